ghost use Rattle.std.specs.Prelude.{◌≡◌, ◌≤◌, ◌⊎◌, map, string_bytes, None, Some};
ghost use Rattle.script_maker.specs.declared.words.Asked.{Asked as AskedIs};
ghost use Rattle.script_maker.specs.Asked.{asked_of};
ghost use Rattle.program_ends.specs.Ends.{NoWriteFailed, Offered};
ghost use Rattle.drda_gateway.specs.Make.{usage_text, WroteScript, BegunScript};

use link_ends::Sink;
use program_ends::{Status, offer, write_all};
use script_maker::{make_script, read_asked};
use std::alloc::Global;

/// What `make` is called with, as its users are told.
const USAGE: &[u8] = b"usage: drda_gateway make SEED APPS UNITS\n";

/// Writes the script that the words ask for: `make`, a seed, a number of applications and a number of units of work.
///
/// The answer is the status: 0 where the whole script was taken; 1 where the words aren't so, with the usage offered to the sink; 4
/// where a write of the script failed or took nothing; 5 where memory ran out, with nothing written.
pub fn make<K: Sink>(alloc: Global, words: &[String], sink: &mut K) -> u8
    ensures done { result ≡ 0 → WroteScript (map string_bytes words.now) (K.state sink.old) (K.state sink.new) }
    ensures usage { result ≡ 1 → asked_of (map string_bytes words.now) ≡ None }
    ensures words { asked_of (map string_bytes words.now) ≡ None → result ≡ 1 }
    ensures usage_told { result ≡ 1 → Offered (K.state sink.old) (K.state sink.new) usage_text }
    ensures sink_fault { result ≡ 4 → BegunScript (map string_bytes words.now) (K.state sink.old) (K.state sink.new) }
    ensures unwritten { result ≡ 5 → K.state sink.new ≡ K.state sink.old }
    ensures statuses { (result ≤ 1) ⊎ ((result ≡ 4) ⊎ (result ≡ 5)) }

    // Right words whose script is taken have it written.
    ensures makes { (asked : AskedIs) → asked_of (map string_bytes words.now) ≡ Some asked → NoWriteFailed (K.state sink.old) (K.state sink.new)
        → (result ≡ 0) ⊎ (result ≡ 5) }
{
    let Some(asked) = read_asked(words) else {
        offer(sink, USAGE);
        return Status::Usage as u8;
    };
    let Ok(script) = make_script(alloc, asked.seed, asked.apps, asked.units) else {
        return Status::NoMemory as u8;
    };
    match write_all(sink, script.as_slice()) {
        Ok(()) => Status::Done as u8,
        Err(_) => Status::SinkFault as u8,
    }
}
