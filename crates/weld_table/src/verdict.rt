//! What is said of the cells that were read so far.

ghost use Rattle.std.specs.Prelude.{◌≡◌};
ghost use Rattle.weld_table.specs.Cells.{worse};

/// What is said of the cells that were read so far.
#[derive(Clone, Copy, Debug, PartialEq, Eq)]
pub(crate) enum Verdict {
    /// All read.
    Fine,
    /// Each is in form, and one is out of range.
    Range,
    /// One isn't in form.
    Syntax,
}

impl Verdict {
    /// What is said of both: the worse.
    pub(crate) fn and(self, other: Verdict) -> Verdict
        ensures { result ≡ worse self other }
    {
        match (self, other) {
            (Verdict::Syntax, _) | (_, Verdict::Syntax) => Verdict::Syntax,
            (Verdict::Range, _) | (_, Verdict::Range) => Verdict::Range,
            (Verdict::Fine, Verdict::Fine) => Verdict::Fine,
        }
    }
}
