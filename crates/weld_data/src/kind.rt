/// The kind of a scalar: a truth value, or an integer of 8, 16, 32 or 64 bits, with a sign or without.
#[derive(Clone, Copy, Debug, PartialEq, Eq, Hash)]
pub enum Kind {
    Bool,
    I8,
    I16,
    I32,
    I64,
    U8,
    U16,
    U32,
    U64,
}

impl Kind {
    ghost use Rattle.std.specs.Prelude.{◌↔◌, IsTrue};
    ghost use Rattle.weld_data.specs.Kind.{IsNarrow};

    /// Whether each number of the kind is one of 64 bits with a sign. It takes no memory.
    #[inline(always)]
    pub fn is_narrow(self) -> bool
        ensures { IsTrue result ↔ IsNarrow self }
    {
        match self {
            Kind::U64 => false,
            _ => true,
        }
    }
}
