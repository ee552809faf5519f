//! Lists of items with commas between. What an item is stays open, so that no failure looks into it.

ghost use Rattle.std.specs.Prelude.{◌≡◌, ◌<◌, ◌≤◌, ℕ, [], ◌∷◌, length, IfOk};
ghost use Rattle.sr_parse_tokens.specs.Gives.{Gives};
ghost use Rattle.sr_parser.specs.Commas.{more_at, next_at};

use crate::after::{let_go, pushed, row_of};
use sr_parse_tokens::{ReadFail, next_is_sign, sign_after};
use sr_tree::{Sign, Token};
use sr_value::Row;
use std::alloc::Global;

/// A kind of list, by the items that stand in it.
pub trait Joined<T> {
    ghost use Rattle.sr_reader.specs.Reader.{Reader};
    ghost use Rattle.sr_tree.specs.declared.token.Token.{Token};

    ghost reader: { ℕ → Reader Token T };

    ghost steps: { ℕ → ℕ };

    /// Reads an item.
    fn item(alloc: Global, tokens: &[Token]) -> Result<(T, &[Token]), ReadFail>
        ensures reads { (k : ℕ) → length tokens.now ≤ k → Gives (λ x. (x.0, x.1.now)) result (reader k tokens.now) }
        ensures shorter { IfOk result (λ x. length x.1.now < length tokens.now) };

    ghost bounded: { (k : ℕ) → steps k ≡ k };
}

/// Reads what stands after the first item of a list.
pub fn list_from<T: Drop, L: Joined<T>>(
    alloc: Global,
    first: T,
    tokens: &[Token],
) -> Result<(Row<T>, &[Token]), ReadFail>
    ensures reads { (k : ℕ) → length tokens.now ≤ k → Gives (λ x. (x.0, x.1.now)) result (more_at (L.reader k) (L.steps k) (first ∷ []) tokens.now) }
    ensures shorter { IfOk result (λ x. length x.1.now ≤ length tokens.now) }
{
    let items = row_of(alloc, first)?;
    more::<T, L>(alloc, items, tokens)
}

/// Reads further items, each after a comma.
#[tactic(auto, unfolding(crate::specs::Commas::more_at))]
fn more<T: Drop, L: Joined<T>>(
    alloc: Global,
    first: Row<T>,
    tokens: &[Token],
) -> Result<(Row<T>, &[Token]), ReadFail>
    ensures reads { (k : ℕ) → length tokens.now ≤ k → Gives (λ x. (x.0, x.1.now)) result (more_at (L.reader k) (L.steps k) first tokens.now) }
    ensures shorter { IfOk result (λ x. length x.1.now ≤ length tokens.now) }
{
    let mut items = first;
    let mut rest = tokens;
    'more: while next_is_sign(rest, Sign::Comma) {
        let (more, after) = next::<T, L>(alloc, items, rest)?;
        items = more;
        rest = after;
    }
    Ok((items, rest))
}

/// Reads a comma and an item, and appends it.
#[tactic(auto, unfolding(crate::specs::Commas::next_at))]
fn next<T: Drop, L: Joined<T>>(
    alloc: Global,
    items: Row<T>,
    tokens: &[Token],
) -> Result<(Row<T>, &[Token]), ReadFail>
    ensures reads { (k : ℕ) → length tokens.now ≤ k → Gives (λ x. (x.0, x.1.now)) result (next_at (L.reader k) items tokens.now) }
    ensures shorter { IfOk result (λ x. length x.1.now < length tokens.now) }
{
    let (_, items, rest) = sign_after(items, tokens, Sign::Comma)?;
    match L::item(alloc, rest) {
        Ok((item, rest)) => Ok((pushed(items, item)?, rest)),
        Err(fail) => {
            let_go(items);
            Err(fail)
        }
    }
}
