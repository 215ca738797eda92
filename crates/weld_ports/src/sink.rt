ghost use Rattle.std.specs.Prelude.{◌≡◌, ℕ, ◌≤◌, ◌<◌, List, Option, length, take, IfOk, OnOk, OnErr};
ghost use Rattle.std.specs.Io.KnownBytes.{Appends, Keeps};
ghost use Rattle.weld_ports.specs.Faults.{Rises, IsSettled};

/// A write or a flush that failed. What the sink holds is unchanged.
#[derive(Clone, Copy, Debug, PartialEq, Eq)]
pub struct WriteFailed;

/// Bytes that go out, in pieces of the sink's choice.
pub trait Sink {
    /// The bytes that the sink has taken, where it tells them.
    ghost held: { Self → Option (List ℕ) };

    /// How many of them the last flush found, where the sink tells it.
    ghost settled: { Self → Option ℕ };

    /// How often the sink has failed. It never falls.
    ghost faults: { Self → ℕ };

    /// Takes one or more bytes from the front of a piece that isn't empty, and answers how many.
    /// An error takes nothing, and raises the count.
    fn write(&mut self, from: &[u8]) -> Result<usize, WriteFailed>
        requires { 0 < length from.now }
        ensures some { IfOk result (λ count. 0 < count) }
        ensures fits { IfOk result (λ count. count ≤ length from.now) }
        ensures bytes { IfOk result (λ count. Appends (held self.old) (held self.new)
            (take count from.now)) }
        ensures unchanged { OnErr result (Keeps (held self.old) (held self.new)) }
        ensures settled_stays { settled self.new ≡ settled self.old }
        ensures cause { OnErr result (Rises (faults self.old) (faults self.new)) }
        ensures never_falls { faults self.old ≤ faults self.new };

    /// Passes on all that the sink has taken, and takes nothing. An error raises the count.
    fn flush(&mut self) -> Result<(), WriteFailed>
        ensures held_stays { Keeps (held self.old) (held self.new) }
        ensures settles { OnOk result (IsSettled (held self.new) (settled self.new)) }
        ensures unchanged { OnErr result (settled self.new ≡ settled self.old) }
        ensures cause { OnErr result (Rises (faults self.old) (faults self.new)) }
        ensures never_falls { faults self.old ≤ faults self.new };
}
