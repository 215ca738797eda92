ghost use Rattle.std.specs.Prelude.{◌≡◌, ◌≤◌, take, length, OnOk, OnErr};
ghost use Rattle.std.specs.Io.KnownBytes.{Appends};
ghost use Rattle.weld_ports.specs.Faults.{Rises, IsSettled};
ghost use Rattle.weld_front.specs.Answer.{AppendsFront};

use weld_ports::{Sink, WriteFailed};

/// Writes all the bytes of a text, each write being handed all of it that isn't taken yet.
fn write_whole<K: Sink>(output: &mut K, text: &[u8]) -> Result<(), WriteFailed>
    ensures ok { OnOk result (Appends (K.held output.old) (K.held output.new) text.now) }
    ensures front { OnErr result (AppendsFront (K.held output.old) (K.held output.new) text.now) }
    ensures cause { OnErr result (Rises (K.faults output.old) (K.faults output.new)) }
    ensures settled_stays { K.settled output.new ≡ K.settled output.old }
    ensures never_falls { K.faults output.old ≤ K.faults output.new }
{
    let mut taken = 0;
    while taken < text.len() {
        match output.write(&text[taken..]) {
            Ok(count) => taken += count,
            Err(failed) => return Err(failed),
        }
    }
    Ok(())
}

/// Writes a text whole, and flushes once. Where a write or the flush fails, the sink has taken a front of
/// the text, and what the last flush found is as before.
pub fn deliver<K: Sink>(output: &mut K, text: &[u8]) -> Result<(), WriteFailed>
    ensures ok { OnOk result (Appends (K.held output.old) (K.held output.new) text.now) }
    ensures settles { OnOk result (IsSettled (K.held output.new) (K.settled output.new)) }
    ensures front { OnErr result (AppendsFront (K.held output.old) (K.held output.new) text.now) }
    ensures cause { OnErr result (Rises (K.faults output.old) (K.faults output.new)) }
    ensures unchanged { OnErr result (K.settled output.new ≡ K.settled output.old) }
    ensures never_falls { K.faults output.old ≤ K.faults output.new }
{
    write_whole(output, text)?;
    output.flush()
}
