ghost use Rattle.std.specs.Prelude.{◌≡◌};
ghost use Rattle.weld_values.specs.Judging.{worse};

/// What is wrong with a value whose text is in form.
#[derive(Clone, Copy, Debug, PartialEq, Eq)]
pub enum Flaw {
    /// Nothing.
    Fine,
    /// A dictionary has equal keys.
    Repeat,
    /// A number is out of range.
    Range,
}

impl Flaw {
    /// The worse of two.
    pub fn and(self, other: Flaw) -> Flaw
        ensures { result ≡ worse self other }
    {
        match (self, other) {
            (Flaw::Range, _) | (_, Flaw::Range) => Flaw::Range,
            (Flaw::Repeat, _) | (_, Flaw::Repeat) => Flaw::Repeat,
            (Flaw::Fine, Flaw::Fine) => Flaw::Fine,
        }
    }
}
