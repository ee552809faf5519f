ghost use Rattle.std.specs.Prelude.{◌≡◌, ◌≤◌, length, IfErr, IfOk};
ghost use Rattle.sr_fmt.specs.Canonical.{IsCanonical};
ghost use Rattle.sr_layout.specs.LaidOut.{IsLaidOut, IsNotLaidOut};
ghost use Rattle.sr_lexer.specs.Limits.{IsWithinLimits};
ghost use Rattle.sr_lexer.specs.Tokens.{Lexes};
ghost use Rattle.sr_text.specs.declared.refusal.FrontFail.TheVariants as fails;
ghost use Rattle.sr_text.specs.declared.refusal.Kind.TheVariants as kinds;

use sr_fmt::canonical;
use sr_lexer::{lex, profile};
use sr_parser::parse;
use sr_text::{FrontFail, Kind, Refusal};
use sr_tree::{File, Tokens};
use sr_value::{Place, Text};
use std::alloc::Global;

/// The greatest number of bytes of a file.
const MOST_BYTES: usize = 1_048_576;

/// The text of a source file in the one style; or its refusal, as that of the only file of a program whose names and
/// types aren't looked at: S11 for more than 1,048,576 bytes, S1 or S2 for one that has no tokens, S10 or S11 for tokens
/// past a limit, S3 for tokens that spell no tree.
pub fn laid_out(alloc: Global, source: &[u8]) -> Result<Text, FrontFail>
    ensures text { IfOk result (IsLaidOut source.now) }
    ensures refused { IfErr result (IsNotLaidOut source.now) }
{
    if source.len() > MOST_BYTES {
        return Err(FrontFail::Refused(too_large()));
    }
    match lex(alloc, 0, source) {
        Ok(tokens) => text_of_tokens(alloc, source, &tokens),
        Err(fail) => Err(fail),
    }
}

/// The refusal of a file for its size.
fn too_large() -> Refusal
    ensures { result ≡ record { kind = kinds.Large; place = record { file = 0; line = 1 } } }
{
    Refusal {
        kind: Kind::Large,
        place: Place { file: 0, line: 1 },
    }
}

/// The text of a source that has these tokens, where they keep the limits.
fn text_of_tokens(alloc: Global, source: &[u8], tokens: &Tokens) -> Result<Text, FrontFail>
    requires small { length source.now ≤ 1048576 }
    requires lexed { Lexes 0 source.now tokens.now.items }
    ensures text { IfOk result (IsLaidOut source.now) }
    ensures refused { IfErr result (IsNotLaidOut source.now) }
{
    match profile(tokens) {
        Ok(()) => text_within(alloc, source, tokens),
        Err(refusal) => Err(FrontFail::Refused(refusal)),
    }
}

/// The text of a source whose tokens keep the limits, where they spell a tree.
fn text_within(alloc: Global, source: &[u8], tokens: &Tokens) -> Result<Text, FrontFail>
    requires small { length source.now ≤ 1048576 }
    requires lexed { Lexes 0 source.now tokens.now.items }
    requires within { IsWithinLimits tokens.now.items (length tokens.now.items) }
    ensures text { IfOk result (IsLaidOut source.now) }
    ensures refused { IfErr result (IsNotLaidOut source.now) }
{
    match parse(alloc, tokens) {
        Ok(tree) => text_of(alloc, source, tokens, &tree),
        Err(fail) => Err(fail),
    }
}

/// The text of a source with these tokens and this tree.
fn text_of(alloc: Global, source: &[u8], tokens: &Tokens, tree: &File) -> Result<Text, FrontFail>
    requires small { length source.now ≤ 1048576 }
    requires lexed { Lexes 0 source.now tokens.now.items }
    ensures text { IfOk result (IsCanonical source.now tree.now) }
    ensures failed { IfErr result (λ fail. fail ≡ fails.NoMemory) }
{
    match canonical(alloc, tokens, tree, source) {
        Ok(text) => Ok(text),
        Err(_) => Err(FrontFail::NoMemory),
    }
}
