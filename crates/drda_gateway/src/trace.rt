ghost use Rattle.std.specs.Prelude.{◌≡◌, ◌≢◌, ◌≤◌, ◌⊎◌, ℕ, Bool, List, Some, Ok, Err, true, false, if◌then◌else◌, IfOk, map, string_bytes};
ghost use Rattle.drda_trace.specs.declared.trace.Traced.{Traced as TracedIs};
ghost use Rattle.drda_trace.specs.Trace.{trace_of};
ghost use Rattle.program_ends.specs.Ends.{NoReadFailed, NoWriteFailed, Offered, ReadBrokeOff, ReadSome};
ghost use Rattle.drda_gateway.specs.Trace.{trace_words, usage_text, refusal_text, WasTraced, RefusedCapture, BegunTrace};

use crate::command::are_words;
use drda_trace::{TraceFault, trace_text};
use link_ends::{NoMemory, Sink, Source};
use program_ends::{ReadError, Status, offer, read_all, write_all};
use std::alloc::Global;

/// What `trace` is called with, as its users are told.
const USAGE: &[u8] = b"usage: drda_gateway trace\n";

/// Reads a capture to its end, and writes what it shows. The words are exactly `trace`.
///
/// The answer is the status: 0 where the whole text was taken and ends with `whole`; 6 where it was taken and ends with `not
/// whole`; 1 where the words are others, with the usage offered to the sink; 2 where the capture is refused, with its first
/// bad line offered; 3 where a read failed, and 5 where memory ran out, with nothing written; 4 where a write of the text
/// failed or took nothing.
pub fn trace<S: Source, K: Sink>(
    alloc: Global,
    words: &[String],
    source: &mut S,
    sink: &mut K,
) -> u8
    ensures done { result ≡ 0 → WasTraced true (S.state source.old) (S.state source.new) (K.state sink.old) (K.state sink.new) }
    ensures not_whole { result ≡ 6 → WasTraced false (S.state source.old) (S.state source.new) (K.state sink.old) (K.state sink.new) }
    ensures usage { result ≡ 1 → map string_bytes words.now ≢ trace_words }
    ensures words { result ≢ 1 → map string_bytes words.now ≡ trace_words }
    ensures usage_told { result ≡ 1 → Offered (K.state sink.old) (K.state sink.new) usage_text }
    ensures unread { result ≡ 1 → S.state source.new ≡ S.state source.old }
    ensures refused { result ≡ 2 → RefusedCapture (S.state source.old) (S.state source.new) (K.state sink.old) (K.state sink.new) }
    ensures source_fault { result ≡ 3 → ReadBrokeOff (S.state source.old) (S.state source.new) }
    ensures sink_fault { result ≡ 4 → BegunTrace (S.state source.old) (S.state source.new) (K.state sink.old) (K.state sink.new) }
    ensures no_memory { result ≡ 5 → ReadSome (S.state source.old) (S.state source.new) }
    ensures unwritten { (result ≡ 3) ⊎ (result ≡ 5) → K.state sink.new ≡ K.state sink.old }
    ensures statuses { result ≤ 6 }

    // A capture that is read without a fault, and whose text is taken, is traced, and the status says whether it is whole.
    ensures traces { (text : List ℕ) (traced : TracedIs) → (S.state source.old).left ≡ Some text → trace_of text ≡ Ok traced
        → map string_bytes words.now ≡ trace_words → NoReadFailed (S.state source.old) (S.state source.new)
        → NoWriteFailed (K.state sink.old) (K.state sink.new) → (result ≡ (if traced.whole then 0 else 6)) ⊎ (result ≡ 5) }

    // A text that is read without a fault and is none is refused, whatever the sink takes.
    ensures refuses { (text : List ℕ) (line : ℕ) → (S.state source.old).left ≡ Some text → trace_of text ≡ Err line
        → map string_bytes words.now ≡ trace_words → NoReadFailed (S.state source.old) (S.state source.new)
        → (result ≡ 2) ⊎ (result ≡ 5) }
{
    if !are_words(words, "trace") {
        offer(sink, USAGE);
        return Status::Usage as u8;
    }
    let text = match read_all(alloc, source) {
        Ok(text) => text,
        Err(ReadError::Fault) => return Status::SourceFault as u8,
        Err(ReadError::NoMemory) => return Status::NoMemory as u8,
    };
    match trace_text(alloc, text.as_slice()) {
        Ok(traced) => match write_all(sink, traced.text.as_slice()) {
            Ok(()) if traced.whole => Status::Done as u8,
            Ok(()) => Status::NotWhole as u8,
            Err(_) => Status::SinkFault as u8,
        },
        Err(TraceFault::Refused { line }) => match refusal(alloc, line) {
            Ok(text) => {
                offer(sink, text.as_str().as_bytes());
                Status::Refused as u8
            }
            Err(_) => Status::NoMemory as u8,
        },
        Err(TraceFault::NoMemory) => Status::NoMemory as u8,
    }
}

/// What a refused capture is told.
fn refusal(alloc: Global, line: u64) -> Result<String, NoMemory>
    ensures { IfOk result (λ text. string_bytes text ≡ refusal_text line) }
{
    Ok(format!(in alloc; "capture refused: line {line}\n")?)
}
