ghost use Rattle.std.specs.Prelude.{◌≡◌, ◌+◌, ◌^◌, ◌<◌, length, OnOk, IfErr, if◌then◌else◌};
ghost use Rattle.sr_lexer.specs.Limits.{fault_where, IsWithinLimits, ExceedsLimits};

use crate::role::{begins_level, ends_level, is_counted, is_left_out_word, stands_between_runs};
use sr_text::{Kind, Refusal};
use sr_tree::{Token, TokenKind, Tokens};
use sr_value::Place;

/// How deep brackets and bracketing words may be nested.
const GREATEST_DEPTH: usize = 64;

/// How many operators, points and opening brackets a run of tokens may hold.
const GREATEST_RUN: usize = 64;

/// What was counted of the tokens so far.
#[derive(Clone, Copy, PartialEq, Eq)]
pub(crate) struct Tally {
    /// The tokens that open a level of nesting.
    pub openers: usize,
    /// The tokens that close one.
    pub closers: usize,
    /// The tokens that count in the run that the last one belongs to.
    pub run: usize,
}

impl Tally {
    ghost use Rattle.sr_lexer.specs.Tallies.{tally_with};

    /// With one more token.
    fn with(self, kind: TokenKind) -> Tally
        requires openers { self.openers < 2 ^ 63 }
        requires closers { self.closers < 2 ^ 63 }
        requires run { self.run < 2 ^ 63 }
        ensures { result ≡ tally_with self kind }
    {
        Tally {
            openers: more_where(begins_level(kind), self.openers),
            closers: more_where(ends_level(kind), self.closers),
            run: self.run_with(kind),
        }
    }

    /// The tokens that count in the run, with one more token.
    fn run_with(self, kind: TokenKind) -> usize
        requires { self.run < 2 ^ 63 }
        ensures { result ≡ (tally_with self kind).run }
    {
        if stands_between_runs(kind) {
            0
        } else {
            more_where(is_counted(kind), self.run)
        }
    }

    /// Why the last token is refused, if it is.
    fn fault(self, kind: TokenKind) -> Option<Kind>
        requires { self.closers < 2 ^ 63 }
        ensures { result ≡ fault_where self.openers self.closers self.run kind }
    {
        if is_left_out_word(kind) {
            Some(Kind::OutOfProfile)
        } else if self.openers > self.closers + GREATEST_DEPTH || self.run > GREATEST_RUN {
            Some(Kind::Large)
        } else {
            None
        }
    }
}

/// One more than a count, where this holds.
fn more_where(holds: bool, count: usize) -> usize
    requires { count < 2 ^ 63 }
    ensures { result ≡ (if holds then count + 1 else count) }
{
    if holds { count + 1 } else { count }
}

/// Tests the limits on the tokens of a file; it takes no memory. The first token past one is refused: S10 at a word
/// that this profile leaves out; S11 at a token over which more than 64 brackets and bracketing words are open, and
/// at the 65th operator, point or opening bracket of a run, which ends at a separator and at `,` `->` `[]` `//` `:=`.
pub fn profile(tokens: &Tokens) -> Result<(), Refusal>
    ensures ok { OnOk result (IsWithinLimits tokens.now.items (length tokens.now.items)) }
    ensures refused { IfErr result (ExceedsLimits tokens.now.items) }
{
    let mut tally = Tally {
        openers: 0,
        closers: 0,
        run: 0,
    };
    for token in tokens.items.as_slice() {
        tally = tally.with(token.kind);
        if let Some(kind) = tally.fault(token.kind) {
            let place = place_of(token);
            return Err(Refusal { kind, place });
        }
    }
    Ok(())
}

/// Where a token stands.
fn place_of(token: &Token) -> Place
    ensures { result ≡ record { file = token.now.span.file; line = token.now.span.line } }
{
    Place {
        file: token.span.file,
        line: token.span.line,
    }
}
