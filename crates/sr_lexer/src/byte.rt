ghost use Rattle.std.specs.Prelude.{◌≡◌};
ghost use Rattle.sr_lexer.specs.Bytes.{class_of, is_letter, is_digit, is_name_byte, is_text_byte, is_quoting_byte, is_escape, is_blank};

/// What a piece of a source text can be, by its first byte.
#[derive(Clone, Copy, PartialEq, Eq)]
pub enum Class {
    Blank,
    Newline,
    Hash,
    Apostrophe,
    Quote,
    Digit,
    Letter,
    Other,
}

/// The class of a byte.
pub(crate) fn class_of_byte(byte: u8) -> Class
    ensures { result ≡ class_of byte }
{
    if is_blank_byte(byte) {
        Class::Blank
    } else if byte == b'\n' {
        Class::Newline
    } else if byte == b'#' {
        Class::Hash
    } else if byte == b'\'' {
        Class::Apostrophe
    } else if byte == b'"' {
        Class::Quote
    } else if is_decimal_digit(byte) {
        Class::Digit
    } else if is_latin_letter(byte) {
        Class::Letter
    } else {
        Class::Other
    }
}

/// Whether it is a tab, a carriage return or a space.
fn is_blank_byte(byte: u8) -> bool
    ensures { result ≡ is_blank byte }
{
    byte == b'\t' || byte == b'\r' || byte == b' '
}

/// Whether it is a letter.
pub(crate) fn is_latin_letter(byte: u8) -> bool
    ensures { result ≡ is_letter byte }
{
    (b'a' <= byte && byte <= b'z') || (b'A' <= byte && byte <= b'Z')
}

/// Whether it is a decimal digit.
pub(crate) fn is_decimal_digit(byte: u8) -> bool
    ensures { result ≡ is_digit byte }
{
    b'0' <= byte && byte <= b'9'
}

/// Whether a name may go on with it.
pub(crate) fn continues_name(byte: u8) -> bool
    ensures { result ≡ is_name_byte byte }
{
    is_latin_letter(byte) || is_decimal_digit(byte) || byte == b'_'
}

/// Whether it may stand inside a literal.
pub(crate) fn may_be_quoted(byte: u8) -> bool
    ensures { result ≡ is_text_byte byte }
{
    byte == b'\t' || (b' ' <= byte && byte <= b'~')
}

/// Whether it may stand after a backslash.
pub(crate) fn may_be_escaped(byte: u8) -> bool
    ensures { result ≡ is_escape byte }
{
    byte == b'n' || byte == b't' || byte == b'r' || byte == b'0' || is_quoting(byte)
}

/// Whether it is the backslash or one of the quotes.
fn is_quoting(byte: u8) -> bool
    ensures { result ≡ is_quoting_byte byte }
{
    byte == b'\\' || byte == b'\'' || byte == b'"'
}
