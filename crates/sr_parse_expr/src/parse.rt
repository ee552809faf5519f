ghost use Rattle.std.specs.Prelude.{◌≡◌, ℕ, ◌+◌, ◌<◌, ◌^◌, length, drop, IfOk, IfErr};
ghost use Rattle.sr_parse_expr.specs.Refused.{HasNoTree, IsRefusedIn, refusal_of};
ghost use Rattle.sr_reader.specs.Pieces.{IsLongest};
ghost use Rattle.sr_tree.specs.Expressions.{SpellsExpr};
ghost use Rattle.sr_tree.specs.Types.{SpellsType};

use crate::expression::{LOOSEST, operand};
use crate::types::type_tree;
use sr_parse_tokens::ReadFail;
use sr_text::{FrontFail, Kind, Refusal};
use sr_tree::{Expr, Token, Tokens, TypeTree};
use sr_value::Place;
use std::alloc::Global;

/// Reads an expression from the token `at`, and gives its tree and the place after it: the longest piece of the
/// tokens that spells one, where no longer piece is the beginning of a list that does.
///
/// Refused as `Syntax` exactly where there is no such piece. Unless it is refused at the last token, no list of tokens
/// that has a tree begins with the tokens from `at` through the refused one.
pub fn parse_expr(alloc: Global, tokens: &Tokens, at: u32) -> Result<(Expr, u32), FrontFail>
    requires within { at < length tokens.now.items }
    requires few { length tokens.now.items < 2 ^ 32 }
    ensures front { IfOk result (λ x. (count : ℕ) × (x.1 ≡ at + count) × IsLongest (SpellsExpr 5) (drop at tokens.now.items) x.0 count) }
    ensures none { IfErr result (λ e. HasNoTree (SpellsExpr 5) (drop at tokens.now.items) e) }
    ensures dead { IfErr result (λ e. IsRefusedIn (SpellsExpr 5) tokens.now.items at e) }
{
    let items = tokens.items.as_slice();
    match operand(alloc, LOOSEST, &items[at as usize..]) {
        Ok((expr, rest)) => Ok((expr, (items.len() - rest.len()) as u32)),
        Err(fail) => Err(refused(items, fail)),
    }
}

/// Reads a type from the token `at`, where an enumeration or a record may be declared too, and gives its tree and the
/// place after it: the longest piece of the tokens that spells one, where no longer piece is the beginning of a list
/// that does.
///
/// Refused as `Syntax` exactly where there is no such piece. Unless it is refused at the last token, no list of tokens
/// that has a tree begins with the tokens from `at` through the refused one.
pub fn parse_type(alloc: Global, tokens: &Tokens, at: u32) -> Result<(TypeTree, u32), FrontFail>
    requires within { at < length tokens.now.items }
    requires few { length tokens.now.items < 2 ^ 32 }
    ensures front { IfOk result (λ x. (count : ℕ) × (x.1 ≡ at + count) × IsLongest SpellsType (drop at tokens.now.items) x.0 count) }
    ensures none { IfErr result (λ e. HasNoTree SpellsType (drop at tokens.now.items) e) }
    ensures dead { IfErr result (λ e. IsRefusedIn SpellsType tokens.now.items at e) }
{
    let items = tokens.items.as_slice();
    match type_tree(alloc, &items[at as usize..]) {
        Ok((tree, rest)) => Ok((tree, (items.len() - rest.len()) as u32)),
        Err(fail) => Err(refused(items, fail)),
    }
}

/// The refusal at the token where nothing fits, or at the last one where the tokens end too early.
pub fn refused(items: &[Token], fail: ReadFail) -> FrontFail
    ensures { result ≡ refusal_of items.now fail }
{
    match fail {
        ReadFail::Unexpected { left } => {
            let place = items.len().saturating_sub(left.max(1));
            match items.get(place) {
                Some(token) => FrontFail::Refused(Refusal {
                    kind: Kind::Syntax,
                    place: Place {
                        file: token.span.file,
                        line: token.span.line,
                    },
                }),
                None => FrontFail::NoMemory,
            }
        }
        ReadFail::NoMemory => FrontFail::NoMemory,
    }
}
