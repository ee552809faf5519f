ghost use Rattle.std.specs.Prelude.{◌≡◌, ◌<◌, ◌≤◌, ◌==◌, ◌||◌, not, nat_lt, length, take, All, IsTrue, IfSome, ◌^◌, position};
ghost use Rattle.sr_text.specs.declared.refusal.Kind.TheVariants.{BadToken};
ghost use Rattle.sr_lexer.specs.Bytes.{is_digit, is_letter, is_name_byte, is_text_byte};
ghost use Rattle.sr_lexer.specs.Pieces.{a_piece, first_passes, run_len, line_comment, is_close, close_of, block_comment, name_piece, number_of, number_piece, has_right_count, is_literal, quoted_piece, literal_piece, sign_piece, piece_at, FitsIn};

use crate::byte::{
    Class, class_of_byte, continues_name, is_decimal_digit, is_latin_letter, may_be_quoted,
};
use crate::literal::{any_wrong_escape, count_characters, len_of_quoted};
use crate::symbol::{sign_in_front, spelling_of_sign, word_from};
use sr_text::Kind;
use sr_tree::TokenKind;

/// The greatest number that a token stands for.
const GREATEST: u64 = 2_147_483_647;

/// What a piece of a source text is.
#[derive(Clone, Copy, PartialEq, Eq)]
pub enum PieceKind {
    Blank,
    Newline,
    Comment,
    Token(TokenKind),
}

/// A piece at the front of some bytes.
#[derive(Clone, Copy, PartialEq, Eq)]
pub struct Piece {
    pub kind: PieceKind,
    /// How many bytes it has.
    pub len: usize,
}

/// Why no piece begins at the front of some bytes.
#[derive(Clone, Copy, PartialEq, Eq)]
pub struct Fault {
    pub kind: Kind,
    /// The byte that shows it, counted from the first.
    pub at: usize,
}

/// The longest piece at the front of the bytes, or why none begins there.
#[tactic(auto, using(crate::proofs::PieceLemmas::piece_fits), unfolding(crate::specs::Pieces::piece_at))]
pub(crate) fn piece_in_front(rest: &[u8]) -> Result<Piece, Fault>
    requires { 0 < length rest.now }
    ensures value { result ≡ piece_at rest.now }
    ensures fits { FitsIn rest.now result }
{
    match class_of_byte(rest[0]) {
        Class::Blank => Ok(make_piece(PieceKind::Blank, 1)),
        Class::Newline => Ok(make_piece(PieceKind::Newline, 1)),
        Class::Hash => Ok(line_comment_in_front(rest)),
        Class::Apostrophe => literal_in_front(TokenKind::Char, b'\'', &rest[1..]),
        Class::Quote => literal_in_front(TokenKind::Str, b'"', &rest[1..]),
        Class::Digit => number_in_front(rest),
        Class::Letter => Ok(name_in_front(rest)),
        Class::Other => comment_or_sign_in_front(rest),
    }
}

/// A piece of so many bytes.
fn make_piece(kind: PieceKind, len: usize) -> Piece
    ensures { result ≡ a_piece kind len }
{
    Piece { kind, len }
}

/// The comment from `#` to the end of the line.
fn line_comment_in_front(rest: &[u8]) -> Piece
    requires { 0 < length rest.now }
    ensures { result ≡ line_comment rest.now }
{
    make_piece(PieceKind::Comment, len_of_line(&rest[1..]) + 1)
}

/// How many bytes stand before the end of the line.
pub fn len_of_line(rest: &[u8]) -> usize
    ensures value { result ≡ run_len (λ byte. not (byte == 10)) rest.now }
    ensures within { result ≤ length rest.now }
{
    rest.iter().take_while(|byte| **byte != b'\n').count()
}

/// The first place at which `*/` stands.
#[tactic(auto, unfolding(crate::specs::Pieces::close_of))]
pub fn close_in(bytes: &[u8]) -> Option<usize>
    ensures value { result ≡ close_of bytes.now }
    ensures within { IfSome result (λ at. at < length bytes.now) }
{
    (0..bytes.len()).position(|at| closes_at(bytes, at))
}

/// Whether `*/` stands at this place.
fn closes_at(bytes: &[u8], at: usize) -> bool
    requires { at ≤ length bytes.now }
    ensures { result ≡ is_close bytes.now at }
{
    bytes[at..].starts_with(b"*/")
}

/// The comment from `/*` to the next `*/`.
fn block_comment_in_front(rest: &[u8]) -> Result<Piece, Fault>
    requires { 2 ≤ length rest.now }
    ensures { result ≡ block_comment rest.now }
{
    match close_in(&rest[2..]) {
        Some(at) => Ok(make_piece(PieceKind::Comment, at + 4)),
        None => Err(bad_token()),
    }
}

/// No token, as the whole of it shows.
fn bad_token() -> Fault
    ensures { result ≡ record { kind = BadToken; at = 0 } }
{
    Fault {
        kind: Kind::BadToken,
        at: 0,
    }
}

/// The name or reserved word.
fn name_in_front(rest: &[u8]) -> Piece
    requires { 0 < length rest.now }
    ensures { result ≡ name_piece rest.now }
{
    let len = len_of_name(&rest[1..]) + 1;
    let kind = match word_from(&rest[..len]) {
        Some(word) => TokenKind::Word(word),
        None => TokenKind::Name,
    };
    make_piece(PieceKind::Token(kind), len)
}

/// How many letters, digits and underscores stand at the front.
fn len_of_name(rest: &[u8]) -> usize
    ensures value { result ≡ run_len is_name_byte rest.now }
    ensures within { result ≤ length rest.now }
{
    rest.iter()
        .take_while(|byte| continues_name(**byte))
        .count()
}

/// The number.
fn number_in_front(rest: &[u8]) -> Result<Piece, Fault>
    ensures { result ≡ number_piece rest.now }
{
    let len = len_of_digits(rest);
    if is_in_range(&rest[..len]) && !touches_word(&rest[len..]) {
        Ok(make_piece(PieceKind::Token(TokenKind::Number), len))
    } else {
        Err(bad_token())
    }
}

/// How many digits stand at the front.
fn len_of_digits(rest: &[u8]) -> usize
    ensures value { result ≡ run_len is_digit rest.now }
    ensures digits { All (λ digit. IsTrue (is_digit digit)) (take result rest.now) }
{
    rest.iter()
        .take_while(|byte| is_decimal_digit(**byte))
        .count()
}

/// Whether the digits stand for a number that isn't over the greatest.
#[tactic(auto, using(crate::proofs::PieceLemmas::number_over))]
fn is_in_range(digits: &[u8]) -> bool
    requires { All (λ digit. IsTrue (is_digit digit)) digits.now }
    ensures { result ≡ not (nat_lt 2147483647 (number_of digits.now)) }
{
    let mut number: u64 = 0;
    for digit in digits {
        number = number * 10 + u64::from(*digit - b'0');
        if number > GREATEST {
            return false;
        }
    }
    true
}

/// Whether a letter or an underscore stands at the front.
fn touches_word(rest: &[u8]) -> bool
    ensures { result ≡ first_passes (λ byte. is_letter byte || byte == 95) rest.now }
{
    match rest {
        [byte, ..] => is_latin_letter(*byte) || *byte == b'_',
        [] => false,
    }
}

/// The char or string that goes on with these bytes after its opening quote.
fn literal_in_front(kind: TokenKind, quote: u8, after: &[u8]) -> Result<Piece, Fault>
    requires { length after.now < 2 ^ 63 }
    ensures { result ≡ literal_piece kind quote after.now }
{
    let (inner, rest) = after.split_at(len_of_quoted(quote, after));
    match first_unquotable(inner) {
        Some(at) => Err(Fault {
            kind: Kind::BadByte,
            at: at + 1,
        }),
        None => whole_literal(kind, quote, inner, rest),
    }
}

/// The first byte that no literal allows.
fn first_unquotable(inner: &[u8]) -> Option<usize>
    ensures value { result ≡ position (λ byte. not (is_text_byte byte)) inner.now }
    ensures within { IfSome result (λ at. at < length inner.now) }
{
    inner.iter().position(|byte| !may_be_quoted(*byte))
}

/// The char or string with these bytes between its quotes. Each byte is one that may stand there.
fn whole_literal(kind: TokenKind, quote: u8, inner: &[u8], rest: &[u8]) -> Result<Piece, Fault>
    requires { length inner.now < 2 ^ 63 }
    ensures { result ≡ quoted_piece kind quote inner.now rest.now None }
{
    if is_whole(kind, quote, inner, rest) {
        Ok(make_piece(PieceKind::Token(kind), inner.len() + 2))
    } else {
        Err(bad_token())
    }
}

/// Whether a literal is closed, with right escapes and the right number of characters.
fn is_whole(kind: TokenKind, quote: u8, inner: &[u8], rest: &[u8]) -> bool
    ensures { result ≡ is_literal kind quote inner.now rest.now }
{
    begins_with(quote, rest) && !any_wrong_escape(inner) && counts_right(kind, inner)
}

/// Whether the byte stands at the front.
fn begins_with(quote: u8, rest: &[u8]) -> bool
    ensures { result ≡ first_passes (λ byte. byte == quote) rest.now }
{
    match rest {
        [byte, ..] => *byte == quote,
        [] => false,
    }
}

/// Whether a literal of this kind may have so many characters.
fn counts_right(kind: TokenKind, inner: &[u8]) -> bool
    ensures { result ≡ has_right_count kind inner.now }
{
    match kind {
        TokenKind::Char => count_characters(inner) == 1,
        _ => true,
    }
}

/// The comment between `/*` and `*/`, the separator `;` or the sign.
fn comment_or_sign_in_front(rest: &[u8]) -> Result<Piece, Fault>
    ensures { result ≡ sign_piece rest.now }
{
    if rest.starts_with(b"/*") {
        return block_comment_in_front(rest);
    }
    if rest.starts_with(b";") {
        return Ok(make_piece(PieceKind::Token(TokenKind::Separator), 1));
    }
    match sign_in_front(rest) {
        Some(sign) => {
            let len = spelling_of_sign(sign).len();
            Ok(make_piece(PieceKind::Token(TokenKind::Sign(sign)), len))
        }
        None => Err(Fault {
            kind: Kind::BadByte,
            at: 0,
        }),
    }
}
