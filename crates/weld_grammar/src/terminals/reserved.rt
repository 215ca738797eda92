/// A reserved word. It is no name.
#[derive(Clone, Copy, Debug, PartialEq, Eq)]
pub enum Reserved {
    /// `let`
    Let,
    /// `if`
    If,
    /// `select`
    Select,
    /// `lookup`
    Lookup,
    /// `keyexists`
    Keyexists,
    /// `len`
    Len,
    /// `slice`
    Slice,
    /// `merge`
    Merge,
    /// `result`
    Result,
    /// `for`
    For,
    /// `iterate`
    Iterate,
    /// `zip`
    Zip,
    /// `iter`
    Iter,
    /// `vec`
    Vec,
    /// `dict`
    Dict,
    /// `bool`
    Bool,
    /// `i8`
    I8,
    /// `i16`
    I16,
    /// `i32`
    I32,
    /// `i64`
    I64,
    /// `u8`
    U8,
    /// `u16`
    U16,
    /// `u32`
    U32,
    /// `u64`
    U64,
    /// `vecbuilder`
    Vecbuilder,
    /// `appender`
    Appender,
    /// `merger`
    Merger,
    /// `dictmerger`
    Dictmerger,
    /// `vecmerger`
    Vecmerger,
    /// `groupbuilder`
    Groupbuilder,
    /// `groupmerger`
    Groupmerger,
    /// `true`
    True,
    /// `false`
    False,
    /// `min`
    Min,
    /// `max`
    Max,
    /// `macro`
    Macro,
}
