ghost use Rattle.std.specs.Prelude.{◌≡◌, ◌++◌, ◌-◌, ◌^◌, ◌<◌, [], OnOk, IfOk};
ghost use Rattle.sr_fmt.specs.Gaps.{pen_past};
ghost use Rattle.sr_fmt.specs.Layout.{begins_line, level_of, level_after, depth_after, indentation, line_end, line_start, blank_between, spelled, written, pen_after, first_pen};

use crate::blank::has_blank_between;
use crate::gap::Gap;
use crate::pen::Pen;
use crate::role::{
    is_always_beginning, is_beginning_component, is_closing_level, is_opening_level,
    is_standing_out,
};
use sr_tree::{Sign, TokenKind};
use sr_value::{NoMemory, Text};
use std::alloc::Global;

/// The text so far, and how it goes on.
#[derive(Drop)]
pub(crate) struct Printer {
    pub text: Text,
    pub pen: Pen,
}

impl Printer {
    /// Before the first piece.
    pub(crate) fn new(alloc: Global) -> Printer
        ensures text { result.text ≡ [] }
        ensures pen { result.pen ≡ first_pen }
    {
        Printer {
            text: Text::new(alloc),
            pen: Pen {
                depth: 0,
                level: 0,
                last: None,
                held: Text::new(alloc),
            },
        }
    }

    /// Keeps a comment until a line begins; blanks and newlines are left out.
    pub(crate) fn take_gap(&mut self, gap: Gap, text: &[u8]) -> Result<(), NoMemory>
        ensures text { OnOk result (self.new.text ≡ self.old.text) }
        ensures pen { OnOk result (self.new.pen ≡ pen_past gap.is_comment self.old.pen text.now) }
    {
        if gap.is_comment {
            self.pen.held.push_all(text)?;
            self.pen.held.push(b'\n')?;
        }
        Ok(())
    }

    /// Writes a token. A separator outside of brackets isn't written.
    pub(crate) fn take_token(
        &mut self,
        statement: bool,
        kind: TokenKind,
        text: &[u8],
    ) -> Result<(), NoMemory>
        requires depth { self.old.pen.depth < 2 ^ 32 - 1 }
        requires level { self.old.pen.level < 2 ^ 30 }
        ensures text { OnOk result (self.new.text ≡ self.old.text ++ written self.old.pen statement (Some kind) text.now) }
        ensures pen { OnOk result (self.new.pen ≡ pen_after self.old.pen statement (Some kind) text.now) }
    {
        if self.pen.depth == 0 && kind == TokenKind::Separator {
            return Ok(());
        }
        if begins_a_line(self.pen.depth, statement, kind) {
            self.start_line(kind)?;
        } else {
            self.leave_blank(kind)?;
        }
        self.text.push_all(spelling(kind, text))?;
        self.note(kind);
        Ok(())
    }

    /// Writes what stands before a token that begins a line.
    fn start_line(&mut self, kind: TokenKind) -> Result<(), NoMemory>
        requires { self.old.pen.level < 2 ^ 30 }
        ensures text { OnOk result (self.new.text ≡ self.old.text ++ line_start self.old.pen kind) }
        ensures pen { OnOk result (self.new.pen ≡ record self.old.pen { held = [] }) }
    {
        self.end_line()?;
        if is_beginning_component(kind) {
            self.end_line()?;
        }
        self.text.push_all(self.pen.held.as_bytes())?;
        self.pen.held.truncate(0);
        self.indent(level_of_line(self.pen.level, kind))
    }

    /// Ends the line of the last token, where there is one.
    fn end_line(&mut self) -> Result<(), NoMemory>
        ensures text { OnOk result (self.new.text ≡ self.old.text ++ line_end self.old.pen.last) }
        ensures pen { OnOk result (self.new.pen ≡ self.old.pen) }
    {
        if self.pen.last.is_some() {
            self.text.push(b'\n')?;
        }
        Ok(())
    }

    /// Writes two spaces for each level.
    fn indent(&mut self, level: u32) -> Result<(), NoMemory>
        requires { level < 2 ^ 30 }
        ensures text { OnOk result (self.new.text ≡ self.old.text ++ indentation level) }
        ensures pen { OnOk result (self.new.pen ≡ self.old.pen) }
    {
        for _ in 0..2 * level {
            self.text.push(b' ')?;
        }
        Ok(())
    }

    /// Writes the blank before a token that begins no line, where one stands there.
    fn leave_blank(&mut self, kind: TokenKind) -> Result<(), NoMemory>
        ensures text { OnOk result (self.new.text ≡ self.old.text ++ blank_between self.old.pen.last kind) }
        ensures pen { OnOk result (self.new.pen ≡ self.old.pen) }
    {
        match self.pen.last {
            Some(last) if has_blank_between(last, kind) => self.text.push(b' '),
            _ => Ok(()),
        }
    }

    /// Goes on after a token.
    fn note(&mut self, kind: TokenKind)
        requires depth { self.old.pen.depth < 2 ^ 32 - 1 }
        requires level { self.old.pen.level < 2 ^ 32 - 1 }
        ensures text { self.new.text ≡ self.old.text }
        ensures pen { self.new.pen ≡ record {
          depth = depth_after self.old.pen.depth kind;
          level = level_after self.old.pen.level kind;
          last = Some kind;
          held = self.old.pen.held;
        } }
    {
        self.pen.depth = depth_after_token(self.pen.depth, kind);
        self.pen.level = level_after_token(self.pen.level, kind);
        self.pen.last = Some(kind);
    }

    /// The text with the comments that no line follows.
    pub(crate) fn finish(self) -> Result<Text, NoMemory>
        ensures { IfOk result (λ text. text ≡ self.text ++ (line_end self.pen.last ++ self.pen.held)) }
    {
        let Printer { mut text, pen } = self;
        if pen.last.is_some() {
            text.push(b'\n')?;
        }
        text.push_all(pen.held.as_bytes())?;
        Ok(text)
    }
}

/// Whether a line begins with the token.
fn begins_a_line(depth: u32, statement: bool, kind: TokenKind) -> bool
    ensures { result ≡ begins_line depth statement kind }
{
    depth == 0 && (statement || is_always_beginning(kind))
}

/// The level of a line that begins with the token.
fn level_of_line(level: u32, kind: TokenKind) -> u32
    ensures { result ≡ level_of level kind }
{
    if is_standing_out(kind) {
        level.saturating_sub(1)
    } else {
        level
    }
}

/// How many levels are open after a token.
fn level_after_token(level: u32, kind: TokenKind) -> u32
    requires { level < 2 ^ 32 - 1 }
    ensures { result ≡ level_after level kind }
{
    if is_opening_level(kind) {
        level + 1
    } else if is_closing_level(kind) {
        level.saturating_sub(1)
    } else {
        level
    }
}

/// How many brackets are open after a token.
fn depth_after_token(depth: u32, kind: TokenKind) -> u32
    requires { depth < 2 ^ 32 - 1 }
    ensures { result ≡ depth_after depth kind }
{
    match kind {
        TokenKind::Sign(Sign::OpenParen | Sign::OpenBracket) => depth + 1,
        TokenKind::Sign(Sign::CloseParen | Sign::CloseBracket) => depth.saturating_sub(1),
        _ => depth,
    }
}

/// How a token is spelled.
fn spelling<'a>(kind: TokenKind, text: &'a [u8]) -> &'a [u8]
    ensures { result.now ≡ spelled kind text.now }
{
    match kind {
        TokenKind::Sign(Sign::NotEqual) => b"!=",
        _ => text,
    }
}
