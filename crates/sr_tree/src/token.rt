use sr_value::{Compare, Row, Span, Text};

/// The signs, but for the separator `;`.
#[derive(Clone, Copy, PartialEq, Eq)]
pub enum Sign {
    /// `:=:`
    Exchange,
    /// `:=`
    Assign,
    /// `:`
    Colon,
    /// `->`
    Arrow,
    /// `--`
    Decrement,
    /// `-`
    Minus,
    /// `++`
    Increment,
    /// `+`
    Plus,
    /// `*`
    Star,
    /// `//`
    Parallel,
    /// `/`
    Slash,
    /// `%`
    Percent,
    /// `||`
    Join,
    /// `=`
    Equal,
    /// `!=` or `~=`
    NotEqual,
    /// `<=`
    LessEqual,
    /// `<`
    Less,
    /// `>=`
    GreaterEqual,
    /// `>`
    Greater,
    /// `(`
    OpenParen,
    /// `)`
    CloseParen,
    /// `[]`
    Alternative,
    /// `[`
    OpenBracket,
    /// `]`
    CloseBracket,
    /// `{`
    OpenBrace,
    /// `}`
    CloseBrace,
    /// `,`
    Comma,
    /// `.`
    Point,
    /// `?`
    Query,
}

/// The reserved words.
#[derive(Clone, Copy, PartialEq, Eq)]
pub enum Word {
    Af,
    And,
    Body,
    Bool,
    By,
    Call,
    Cap,
    Char,
    Co,
    Const,
    Create,
    Destroy,
    Do,
    Downto,
    Else,
    End,
    Enum,
    Exit,
    Fa,
    False,
    Fi,
    Final,
    Forward,
    Global,
    If,
    Import,
    In,
    Int,
    Mod,
    Next,
    Ni,
    Noop,
    Not,
    Null,
    Oc,
    Od,
    On,
    Op,
    OpType,
    Or,
    Proc,
    Procedure,
    Process,
    Rec,
    Receive,
    Reply,
    Res,
    Resource,
    Return,
    Returns,
    Sem,
    Send,
    Skip,
    St,
    Stop,
    String,
    To,
    True,
    Type,
    Val,
    Var,
    Vm,
    Xor,
    // The words of SR that this profile leaves out.
    Real,
    Ptr,
    Union,
    File,
    Ref,
    External,
    Separate,
    Extend,
}

/// What a token is.
#[derive(Clone, Copy, PartialEq, Eq)]
pub enum TokenKind {
    /// A name that is no reserved word.
    Name,
    /// A number in decimal digits.
    Number,
    /// A character between single quotes.
    Char,
    /// A string between double quotes.
    Str,
    Sign(Sign),
    Word(Word),
    /// `;`, or a newline that ends a statement or declaration.
    Separator,
}

/// A token of a file: what it is, its bytes as the file has them, and where they stand.
#[derive(Drop)]
pub struct Token {
    pub kind: TokenKind,
    pub text: Text,
    pub span: Span,
}

/// The tokens of a file in order.
#[derive(Drop)]
pub struct Tokens {
    pub items: Row<Token>,
}

impl Compare for Sign {
    fn same(&self, other: &Self) -> bool {
        *self == *other
    }
}

impl Compare for Word {
    fn same(&self, other: &Self) -> bool {
        *self == *other
    }
}

impl Compare for TokenKind {
    fn same(&self, other: &Self) -> bool {
        match self {
            TokenKind::Name => matches!(other, TokenKind::Name),
            TokenKind::Number => matches!(other, TokenKind::Number),
            TokenKind::Char => matches!(other, TokenKind::Char),
            TokenKind::Str => matches!(other, TokenKind::Str),
            TokenKind::Sign(sign) => match other {
                TokenKind::Sign(their_sign) => sign.same(their_sign),
                _ => false,
            },
            TokenKind::Word(word) => match other {
                TokenKind::Word(their_word) => word.same(their_word),
                _ => false,
            },
            TokenKind::Separator => matches!(other, TokenKind::Separator),
        }
    }
}
