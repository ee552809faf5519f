ghost use Rattle.std.specs.Prelude.{◌≡◌, ◌+◌, ◌-◌, ◌^◌, ◌<◌, [], ◌++◌, OnOk, None, false};
ghost use Rattle.sr_lexer.specs.Separators.{open_after, separators_where};
ghost use Rattle.sr_lexer.specs.Reading.{after_token, after_newline, after_piece};
ghost use Rattle.sr_lexer.specs.declared.piece.PieceKind.TheVariants as pieces;

use crate::piece::PieceKind;
use crate::role::{can_end_line, goes_on_with_line, is_closing, is_opening};
use sr_tree::{Token, TokenKind};
use sr_value::{NoMemory, Row, Span, Text};
use std::alloc::Global;

/// The tokens so far, and what decides whether the next newline is a separator.
#[derive(Drop)]
pub struct Reader {
    pub tokens: Row<Token>,
    /// How many `(` and `[` are open.
    pub depth: u32,
    /// Whether a line may end after the last token.
    pub may_end: bool,
    /// The first newline after the last token.
    pub newline: Option<Span>,
}

impl Reader {
    /// Before the first piece.
    pub(crate) fn new(alloc: Global) -> Reader
        ensures tokens { result.tokens ≡ [] }
        ensures depth { result.depth ≡ 0 }
        ensures may_end { result.may_end ≡ false }
        ensures newline { result.newline ≡ None }
    {
        Reader {
            tokens: Row::new(alloc),
            depth: 0,
            may_end: false,
            newline: None,
        }
    }

    /// Takes the next piece.
    pub(crate) fn take(
        &mut self,
        alloc: Global,
        kind: PieceKind,
        text: &[u8],
        span: Span,
    ) -> Result<(), NoMemory>
        requires { self.old.depth < 2 ^ 32 - 1 }
        ensures { OnOk result (self.new ≡ after_piece self.old kind text.now span) }
    {
        match kind {
            PieceKind::Blank => Ok(()),
            PieceKind::Comment => Ok(()),
            PieceKind::Newline => {
                self.take_newline(span);
                Ok(())
            }
            PieceKind::Token(kind) => self.take_token(alloc, kind, text, span),
        }
    }

    /// Takes a newline.
    fn take_newline(&mut self, span: Span)
        ensures { self.new ≡ after_newline self.old span }
    {
        if self.newline.is_none() {
            self.newline = Some(span);
        }
    }

    /// Takes a token, after the separator before it.
    fn take_token(
        &mut self,
        alloc: Global,
        kind: TokenKind,
        text: &[u8],
        span: Span,
    ) -> Result<(), NoMemory>
        requires { self.old.depth < 2 ^ 32 - 1 }
        ensures { OnOk result (self.new ≡ after_token self.old kind text.now span) }
    {
        self.take_separator(alloc, kind)?;
        let text = Text::from_slice(alloc, text)?;
        self.tokens.push(Token { kind, text, span })?;
        self.depth = open_after(self.depth, kind);
        self.may_end = can_end_line(kind);
        self.newline = None;
        Ok(())
    }

    /// Takes the separator that stands before a token, if one does.
    fn take_separator(&mut self, alloc: Global, next: TokenKind) -> Result<(), NoMemory>
        ensures tokens { OnOk result (self.new.tokens
            ≡ self.old.tokens ++ separators_where self.old.depth self.old.may_end self.old.newline next) }
        ensures depth { self.new.depth ≡ self.old.depth }
    {
        if self.depth > 0 || !self.may_end || goes_on_with_line(next) {
            return Ok(());
        }
        if let Some(span) = self.newline {
            let text = Text::from_slice(alloc, b"\n")?;
            let kind = TokenKind::Separator;
            self.tokens.push(Token { kind, text, span })?;
        }
        Ok(())
    }
}

/// How many brackets are open after a token, by how many were before it.
fn open_after(depth: u32, kind: TokenKind) -> u32
    requires { depth < 2 ^ 32 - 1 }
    ensures { result ≡ open_after depth (pieces.Token kind) }
{
    if is_opening(kind) {
        depth + 1
    } else if is_closing(kind) {
        depth.saturating_sub(1)
    } else {
        depth
    }
}
