ghost use Rattle.std.specs.Prelude.{◌≡◌, find};
ghost use Rattle.std.specs.List.{starts_with};
ghost use Rattle.sr_lexer.specs.Symbols.{sign_spelling, word_spelling, word_of, listed_sign, sign_at};

use sr_tree::{Sign, Word};

/// The signs, each before those that it begins with.
pub(crate) const SIGNS: [Sign; 29] = [
    Sign::Exchange,
    Sign::Assign,
    Sign::Colon,
    Sign::Arrow,
    Sign::Decrement,
    Sign::Minus,
    Sign::Increment,
    Sign::Plus,
    Sign::Star,
    Sign::Parallel,
    Sign::Slash,
    Sign::Percent,
    Sign::Join,
    Sign::Equal,
    Sign::NotEqual,
    Sign::LessEqual,
    Sign::Less,
    Sign::GreaterEqual,
    Sign::Greater,
    Sign::OpenParen,
    Sign::CloseParen,
    Sign::Alternative,
    Sign::OpenBracket,
    Sign::CloseBracket,
    Sign::OpenBrace,
    Sign::CloseBrace,
    Sign::Comma,
    Sign::Point,
    Sign::Query,
];

/// The reserved words.
pub(crate) const WORDS: [Word; 71] = [
    Word::Af,
    Word::And,
    Word::Body,
    Word::Bool,
    Word::By,
    Word::Call,
    Word::Cap,
    Word::Char,
    Word::Co,
    Word::Const,
    Word::Create,
    Word::Destroy,
    Word::Do,
    Word::Downto,
    Word::Else,
    Word::End,
    Word::Enum,
    Word::Exit,
    Word::Fa,
    Word::False,
    Word::Fi,
    Word::Final,
    Word::Forward,
    Word::Global,
    Word::If,
    Word::Import,
    Word::In,
    Word::Int,
    Word::Mod,
    Word::Next,
    Word::Ni,
    Word::Noop,
    Word::Not,
    Word::Null,
    Word::Oc,
    Word::Od,
    Word::On,
    Word::Op,
    Word::OpType,
    Word::Or,
    Word::Proc,
    Word::Procedure,
    Word::Process,
    Word::Rec,
    Word::Receive,
    Word::Reply,
    Word::Res,
    Word::Resource,
    Word::Return,
    Word::Returns,
    Word::Sem,
    Word::Send,
    Word::Skip,
    Word::St,
    Word::Stop,
    Word::String,
    Word::To,
    Word::True,
    Word::Type,
    Word::Val,
    Word::Var,
    Word::Vm,
    Word::Xor,
    Word::Real,
    Word::Ptr,
    Word::Union,
    Word::File,
    Word::Ref,
    Word::External,
    Word::Separate,
    Word::Extend,
];

/// How a sign is written; `!=` has a second spelling, `~=`.
pub(crate) fn spelling_of_sign(sign: Sign) -> &'static [u8]
    ensures { result.now ≡ sign_spelling sign }
{
    match sign {
        Sign::Exchange => b":=:",
        Sign::Assign => b":=",
        Sign::Colon => b":",
        Sign::Arrow => b"->",
        Sign::Decrement => b"--",
        Sign::Minus => b"-",
        Sign::Increment => b"++",
        Sign::Plus => b"+",
        Sign::Star => b"*",
        Sign::Parallel => b"//",
        Sign::Slash => b"/",
        Sign::Percent => b"%",
        Sign::Join => b"||",
        Sign::Equal => b"=",
        Sign::NotEqual => b"!=",
        Sign::LessEqual => b"<=",
        Sign::Less => b"<",
        Sign::GreaterEqual => b">=",
        Sign::Greater => b">",
        Sign::OpenParen => b"(",
        Sign::CloseParen => b")",
        Sign::Alternative => b"[]",
        Sign::OpenBracket => b"[",
        Sign::CloseBracket => b"]",
        Sign::OpenBrace => b"{",
        Sign::CloseBrace => b"}",
        Sign::Comma => b",",
        Sign::Point => b".",
        Sign::Query => b"?",
    }
}

/// How a reserved word is written.
pub(crate) fn spelling_of_word(word: Word) -> &'static [u8]
    ensures { result.now ≡ word_spelling word }
{
    match word {
        Word::Af => b"af",
        Word::And => b"and",
        Word::Body => b"body",
        Word::Bool => b"bool",
        Word::By => b"by",
        Word::Call => b"call",
        Word::Cap => b"cap",
        Word::Char => b"char",
        Word::Co => b"co",
        Word::Const => b"const",
        Word::Create => b"create",
        Word::Destroy => b"destroy",
        Word::Do => b"do",
        Word::Downto => b"downto",
        Word::Else => b"else",
        Word::End => b"end",
        Word::Enum => b"enum",
        Word::Exit => b"exit",
        Word::Fa => b"fa",
        Word::False => b"false",
        Word::Fi => b"fi",
        Word::Final => b"final",
        Word::Forward => b"forward",
        Word::Global => b"global",
        Word::If => b"if",
        Word::Import => b"import",
        Word::In => b"in",
        Word::Int => b"int",
        Word::Mod => b"mod",
        Word::Next => b"next",
        Word::Ni => b"ni",
        Word::Noop => b"noop",
        Word::Not => b"not",
        Word::Null => b"null",
        Word::Oc => b"oc",
        Word::Od => b"od",
        Word::On => b"on",
        Word::Op => b"op",
        Word::OpType => b"optype",
        Word::Or => b"or",
        Word::Proc => b"proc",
        Word::Procedure => b"procedure",
        Word::Process => b"process",
        Word::Rec => b"rec",
        Word::Receive => b"receive",
        Word::Reply => b"reply",
        Word::Res => b"res",
        Word::Resource => b"resource",
        Word::Return => b"return",
        Word::Returns => b"returns",
        Word::Sem => b"sem",
        Word::Send => b"send",
        Word::Skip => b"skip",
        Word::St => b"st",
        Word::Stop => b"stop",
        Word::String => b"string",
        Word::To => b"to",
        Word::True => b"true",
        Word::Type => b"type",
        Word::Val => b"val",
        Word::Var => b"var",
        Word::Vm => b"vm",
        Word::Xor => b"xor",
        Word::Real => b"real",
        Word::Ptr => b"ptr",
        Word::Union => b"union",
        Word::File => b"file",
        Word::Ref => b"ref",
        Word::External => b"external",
        Word::Separate => b"separate",
        Word::Extend => b"extend",
    }
}

/// The reserved word that is written so, if one is.
#[tactic(auto, unfolding(crate::specs::Symbols::word_of))]
pub(crate) fn word_from(text: &[u8]) -> Option<Word>
    ensures { result ≡ word_of text.now }
{
    WORDS
        .iter()
        .copied()
        .find(|word| spelling_of_word(*word) == text)
}

/// The longest sign at the front of the bytes, if one stands there.
pub(crate) fn sign_in_front(rest: &[u8]) -> Option<Sign>
    ensures { result ≡ sign_at rest.now }
{
    if rest.starts_with(b"~=") {
        return Some(Sign::NotEqual);
    }
    sign_of_list(rest)
}

/// The longest sign at the front of the bytes, `~=` left aside.
#[tactic(auto, unfolding(crate::specs::Symbols::listed_sign))]
fn sign_of_list(rest: &[u8]) -> Option<Sign>
    ensures { result ≡ listed_sign rest.now }
{
    SIGNS
        .iter()
        .copied()
        .find(|sign| rest.starts_with(spelling_of_sign(*sign)))
}
