ghost use Rattle.std.specs.Prelude.{◌≡◌, ℕ, ◌≤◌, ◌<◌, List, Option, Ok, length, take, IfOk, OnErr};
ghost use Rattle.std.specs.Io.KnownBytes.{Consumes, IsAtEnd, Keeps};
ghost use Rattle.weld_ports.specs.Faults.{Rises};

/// A read that failed. The bytes still to come are unchanged.
#[derive(Clone, Copy, Debug, PartialEq, Eq)]
pub struct ReadFailed;

/// Bytes that come in, in pieces of the source's choice.
pub trait Source {
    /// The bytes still to come, where the source tells them.
    ghost left: { Self → Option (List ℕ) };

    /// How often the source has failed. It never falls.
    ghost faults: { Self → ℕ };

    /// Fills the front of a buffer that isn't empty, and answers how many bytes that were. None is the
    /// end of the input. An error leaves the bytes still to come as they were, and raises the count.
    fn read(&mut self, into: &mut [u8]) -> Result<usize, ReadFailed>
        requires { 0 < length into.old }
        ensures fits { IfOk result (λ count. count ≤ length into.new) }
        ensures bytes { IfOk result (λ count. Consumes (left self.old) (left self.new)
            (take count into.new)) }
        ensures end { result ≡ Ok 0 → IsAtEnd (left self.old) }
        ensures unchanged { OnErr result (Keeps (left self.old) (left self.new)) }
        ensures cause { OnErr result (Rises (faults self.old) (faults self.new)) }
        ensures never_falls { faults self.old ≤ faults self.new };
}
