ghost use Rattle.std.specs.Prelude.{◌≡◌, ◌≢◌, ◌≤◌, ◌↔◌, ◌⊎◌, ℕ, List, Some, Ok, Err, IsTrue, IfOk, map, string_bytes};
ghost use Rattle.program_ends.specs.Ends.{NoReadFailed, NoWriteFailed, Offered, ReadBrokeOff, ReadSome};
ghost use Rattle.drda_gateway.specs.Refusal.{Refusal};
ghost use Rattle.drda_gateway.specs.ScriptText.{ScriptText};
ghost use Rattle.drda_gateway.specs.Script.{script_of};
ghost use Rattle.drda_gateway.specs.Play.{play_words, usage_text, refusal_text, Played, RefusedScript, BegunReport, Reports};

use crate::command::are_words;
use crate::report::report;
use crate::script::{ScriptFault, ScriptWhy, read_script};
use crate::world::run_script;
use link_ends::{NoMemory, Octets, Sink, Source};
use program_ends::{ReadError, Status, offer, read_all, write_all};
use std::alloc::Global;

/// What `play` is called with, as its users are told.
const USAGE: &[u8] = b"usage: drda_gateway play\n";

/// Reads a script to its end, runs it, and writes the report. The words are exactly `play`.
///
/// The answer is the status: 0 where the whole report was taken; 1 where the words are others, with the usage offered to
/// the sink; 2 where the script is refused, with its first bad line and the reason offered; 3 where a read failed, and 5
/// where memory ran out, with nothing written; 4 where a write of the report failed or took nothing.
pub fn play<S: Source, K: Sink>(alloc: Global, words: &[String], source: &mut S, sink: &mut K) -> u8
    ensures done { result ≡ 0 → Played (S.state source.old) (S.state source.new) (K.state sink.old) (K.state sink.new) }
    ensures usage { result ≡ 1 → map string_bytes words.now ≢ play_words }
    ensures words { result ≢ 1 → map string_bytes words.now ≡ play_words }
    ensures usage_told { result ≡ 1 → Offered (K.state sink.old) (K.state sink.new) usage_text }
    ensures unread { result ≡ 1 → S.state source.new ≡ S.state source.old }
    ensures refused { result ≡ 2 → RefusedScript (S.state source.old) (S.state source.new) (K.state sink.old) (K.state sink.new) }
    ensures source_fault { result ≡ 3 → ReadBrokeOff (S.state source.old) (S.state source.new) }
    ensures sink_fault { result ≡ 4 → BegunReport (S.state source.old) (S.state source.new) (K.state sink.old) (K.state sink.new) }
    ensures no_memory { result ≡ 5 → ReadSome (S.state source.old) (S.state source.new) }
    ensures unwritten { (result ≡ 3) ⊎ (result ≡ 5) → K.state sink.new ≡ K.state sink.old }
    ensures statuses { result ≤ 5 }

    // A script that is read without a fault, and whose report is taken, is played.
    ensures plays { (text : List ℕ) (script : ScriptText) → (S.state source.old).left ≡ Some text → script_of text ≡ Ok script
        → map string_bytes words.now ≡ play_words → NoReadFailed (S.state source.old) (S.state source.new)
        → NoWriteFailed (K.state sink.old) (K.state sink.new) → (result ≡ 0) ⊎ (result ≡ 5) }

    // A text that is read without a fault and is none is refused, whatever the sink takes.
    ensures refuses { (text : List ℕ) (refusal : Refusal) → (S.state source.old).left ≡ Some text → script_of text ≡ Err refusal
        → map string_bytes words.now ≡ play_words → NoReadFailed (S.state source.old) (S.state source.new)
        → (result ≡ 2) ⊎ (result ≡ 5) }
{
    if !are_words(words, "play") {
        offer(sink, USAGE);
        return Status::Usage as u8;
    }
    let text = match read_all(alloc, source) {
        Ok(text) => text,
        Err(ReadError::Fault) => return Status::SourceFault as u8,
        Err(ReadError::NoMemory) => return Status::NoMemory as u8,
    };
    match report_on(alloc, text.as_slice()) {
        Ok(report) => match write_all(sink, report.as_slice()) {
            Ok(()) => Status::Done as u8,
            Err(_) => Status::SinkFault as u8,
        },
        Err(ScriptFault::Refused { line, why }) => match refusal(alloc, line, why) {
            Ok(text) => {
                offer(sink, text.as_str().as_bytes());
                Status::Refused as u8
            }
            Err(_) => Status::NoMemory as u8,
        },
        Err(ScriptFault::NoMemory) => Status::NoMemory as u8,
    }
}

/// The report of the script that a text is.
fn report_on(alloc: Global, text: &[u8]) -> Result<Octets, ScriptFault>
    ensures { Reports result text.now }
{
    let script = read_script(alloc, text)?;
    let world = run_script(alloc, script.lines())?;
    Ok(report(alloc, &world)?)
}

/// What a refused script is told.
fn refusal(alloc: Global, line: u64, why: ScriptWhy) -> Result<String, NoMemory>
    ensures { IfOk result (λ text. string_bytes text ≡ refusal_text (record { line = line; why = why })) }
{
    let word = match why {
        ScriptWhy::Word => "word",
        ScriptWhy::Order => "order",
        ScriptWhy::Field => "field",
        ScriptWhy::Long => "long",
    };
    Ok(format!(in alloc; "script refused: line {line} {word}\n")?)
}
