//! The phases of reading, each over all files.
ghost use Rattle.std.specs.Prelude.{◌≡◌, ◌≤◌, length, All, IfOk, IfErr, OnOk};
ghost use Rattle.sr_front.specs.Phases.{AllPass, FirstRefused};
ghost use Rattle.sr_front.specs.Reading.{HasItsSize, IsTooLarge, KeepsLimits, BreaksLimits, HasTree, HasNoTree, IsRefusal, contents_of, tokens_of};
ghost use Rattle.sr_lexer.specs.Tokens.{Lexes, RefusesToLex};
ghost use Rattle.sr_text.specs.declared.refusal.Kind.TheVariants as kinds;

use sr_lexer::{lex, profile};
use sr_parser::parse;
use sr_text::{FrontFail, Kind, Refusal};
use sr_tree::{File, Tokens};
use sr_value::{Place, Row, Text};
use std::alloc::Global;

/// The greatest number of bytes of a file.
pub const MOST_BYTES: usize = 1_048_576;

/// Refuses the first file that is too large.
pub fn check_sizes(files: &[(Text, Text)]) -> Result<(), Refusal>
    requires few { length files.now ≤ 64 }
    ensures ok { OnOk result (AllPass HasItsSize 0 (contents_of files.now) (contents_of files.now)) }
    ensures small { OnOk result (All (λ file. length file.1 ≤ 1048576) files.now) }
    ensures refused { IfErr result (FirstRefused HasItsSize IsTooLarge 0 (contents_of files.now)) }
{
    let mut number = 0u32;
    for (_, content) in files {
        if content.len() > MOST_BYTES {
            return Err(too_large(number));
        }
        number += 1;
    }
    Ok(())
}

/// The refusal of a file for its size.
fn too_large(number: u32) -> Refusal
    ensures { result ≡ record { kind = kinds.Large; place = record { file = number; line = 1 } } }
{
    Refusal {
        kind: Kind::Large,
        place: Place {
            file: number,
            line: 1,
        },
    }
}

/// The tokens of each file, or the refusal of the first that has none.
pub fn lex_all(alloc: Global, files: &[(Text, Text)]) -> Result<Row<Tokens>, FrontFail>
    requires few { length files.now ≤ 64 }
    requires small { All (λ file. length file.1 ≤ 1048576) files.now }
    ensures tokens { IfOk result (λ all. AllPass Lexes 0 (contents_of files.now) (tokens_of all)) }
    ensures refused { IfErr result (IsRefusal (FirstRefused Lexes RefusesToLex 0 (contents_of files.now))) }
{
    let mut all = Row::new(alloc);
    let mut number = 0u32;
    for (_, content) in files {
        match lex(alloc, number, content.as_bytes()) {
            Ok(tokens) => all.push(tokens)?,
            Err(fail) => return Err(fail),
        }
        number += 1;
    }
    Ok(all)
}

/// Refuses the first file whose tokens break a limit.
pub fn check_limits(files: &[Tokens]) -> Result<(), Refusal>
    ensures ok { OnOk result (AllPass KeepsLimits 0 (tokens_of files.now) (tokens_of files.now)) }
    ensures refused { IfErr result (FirstRefused KeepsLimits BreaksLimits 0 (tokens_of files.now)) }
{
    for tokens in files {
        match profile(tokens) {
            Ok(()) => {}
            Err(refusal) => return Err(refusal),
        }
    }
    Ok(())
}

/// The tree of each file, or the refusal of the first that has none.
pub fn parse_all(alloc: Global, files: &[Tokens]) -> Result<Row<File>, FrontFail>
    ensures trees { IfOk result (λ trees. AllPass HasTree 0 (tokens_of files.now) trees) }
    ensures refused { IfErr result (IsRefusal (FirstRefused HasTree HasNoTree 0 (tokens_of files.now))) }
{
    let mut trees = Row::new(alloc);
    for tokens in files {
        match parse(alloc, tokens) {
            Ok(tree) => trees.push(tree)?,
            Err(fail) => return Err(fail),
        }
    }
    Ok(trees)
}
