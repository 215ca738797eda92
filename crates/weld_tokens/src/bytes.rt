ghost use Rattle.std.specs.Prelude.{◌≡◌};
ghost use Rattle.weld_tokens.specs.Bytes as bytes;

/// Whether the byte is a space, a tab, a CR or an LF.
pub(crate) fn is_blank(byte: u8) -> bool
    ensures { result ≡ bytes.is_blank byte }
{
    byte == b' ' || byte == b'\t' || byte == b'\r' || byte == b'\n'
}

/// Whether the byte is a letter of ASCII or `_`.
pub(crate) fn is_letter(byte: u8) -> bool
    ensures { result ≡ bytes.is_letter byte }
{
    (b'A' <= byte && byte <= b'Z') || (b'a' <= byte && byte <= b'z') || byte == b'_'
}

/// Whether the byte is a decimal digit.
pub(crate) fn is_digit(byte: u8) -> bool
    ensures { result ≡ bytes.is_digit byte }
{
    b'0' <= byte && byte <= b'9'
}

/// Whether the byte is a letter or a digit.
pub(crate) fn is_word_byte(byte: u8) -> bool
    ensures { result ≡ bytes.is_word_byte byte }
{
    is_letter(byte) || is_digit(byte)
}

/// Whether the byte is a hexadecimal digit, of either case.
pub(crate) fn is_hex(byte: u8) -> bool
    ensures { result ≡ bytes.is_hex byte }
{
    is_digit(byte) || (b'A' <= byte && byte <= b'F') || (b'a' <= byte && byte <= b'f')
}

/// Whether the byte stands for itself in a string.
pub(crate) fn is_plain(byte: u8) -> bool
    ensures { result ≡ bytes.is_plain byte }
{
    (b' ' <= byte && byte <= b'!')
        || (b'#' <= byte && byte <= b'[')
        || (b']' <= byte && byte <= b'~')
}

/// Whether the byte stands behind `\` for one byte.
pub(crate) fn is_escape(byte: u8) -> bool
    ensures { result ≡ bytes.is_escape byte }
{
    byte == b'"' || byte == b'\\' || byte == b'n' || byte == b't'
}
