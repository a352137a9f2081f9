ghost use Rattle.std.specs.Prelude.{OnOk, OnErr};
ghost use Rattle.program_ends.specs.Ends.{Took, BrokeOff, Offered};

use link_ends::{Failed, Sink};

/// Writes all of `text`, in as many calls as the sink needs. A call that fails, or takes nothing, ends it.
pub fn write_all<K: Sink>(sink: &mut K, text: &[u8]) -> Result<(), Failed>
    ensures took { OnOk result (Took (K.state sink.old) (K.state sink.new) text.now) }
    ensures broke_off { OnErr result (BrokeOff (K.state sink.old) (K.state sink.new) text.now) }
{
    let mut from = 0;
    while from < text.len() {
        let count = sink.write(&text[from..])?;
        if count == 0 {
            return Err(Failed);
        }
        from += count;
    }
    Ok(())
}

/// Writes a text, as far as the sink takes it.
pub fn offer<K: Sink>(sink: &mut K, text: &[u8])
    ensures { Offered (K.state sink.old) (K.state sink.new) text.now }
{
    let _ = write_all(sink, text);
}
