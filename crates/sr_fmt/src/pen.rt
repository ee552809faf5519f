use sr_tree::TokenKind;
use sr_value::Text;

/// What decides how the next token is written.
#[derive(Drop)]
pub struct Pen {
    /// How many `(` and `[` are open.
    pub depth: u32,
    /// How many levels of indentation are open.
    pub level: u32,
    /// The last token that was written.
    pub last: Option<TokenKind>,
    /// The comments that wait for a line to begin, each as a line of its own.
    pub held: Text,
}
