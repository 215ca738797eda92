ghost use Rattle.std.specs.Prelude.{ℕ};

/// Is told of each tile before it is run. It has no influence on any answer.
pub trait Gate: Sync {
    /// Holds of the number of a tile that the gate was told of. Whoever knows no more of a gate than
    /// this trait can show it by a call alone. It tells nothing of how often.
    ghost told: { Self → ℕ → Type 0 };

    /// Called with a tile's number before the tile is run.
    fn before(&self, tile: u64)
        ensures { told self.now tile };
}

/// The gate that does nothing.
#[derive(Clone, Copy, Debug)]
pub struct NoGate;

impl Gate for NoGate {
    ghost told = { λ _ _. Unit {0} };

    fn before(&self, _tile: u64) {}
}
