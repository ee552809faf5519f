//! Lists of items with separators between. What an item is stays open, so that no failure looks into it.

ghost use Rattle.std.specs.Prelude.{◌≡◌, ◌<◌, ◌≤◌, ℕ, length, true, false, if◌then◌else◌, IfOk};
ghost use Rattle.sr_reader.specs.Reader.{next_is};
ghost use Rattle.sr_tree.specs.Tokens.{is_separator};
ghost use Rattle.sr_parse_tokens.specs.Gives.{Gives};
ghost use Rattle.sr_program_reader.specs.DeclarationReaders.{items_at, list_at, next_item_at};

use crate::after::{let_go, pushed, separator_after};
use sr_parse_tokens::{ReadFail, next_is_separator};
use sr_tree::Token;
use sr_value::Row;
use std::alloc::Global;

/// A kind of list, by the items that may stand in it.
pub trait Listed<T> {
    ghost use Rattle.std.specs.Prelude.{Bool};
    ghost use Rattle.sr_reader.specs.Reader.{Reader};
    ghost use Rattle.sr_tree.specs.declared.token.Token.{Token};

    ghost begins: { Token → Bool };

    ghost reader: { ℕ → Reader Token T };

    ghost steps: { ℕ → ℕ };

    /// Whether the next token begins an item.
    fn next_begins(tokens: &[Token]) -> bool
        ensures { result ≡ next_is begins tokens.now };

    /// Reads an item.
    fn item(alloc: Global, tokens: &[Token]) -> Result<(T, &[Token]), ReadFail>
        ensures reads { (k : ℕ) → length tokens.now ≤ k → Gives (λ x. (x.0, x.1.now)) result (reader k tokens.now) }
        ensures shorter { IfOk result (λ x. length x.1.now < length tokens.now) };

    ghost bounded: { (k : ℕ) → steps k ≡ k };
}

/// Reads a list from its beginning.
#[tactic(auto, unfolding(sr_program_reader::specs::DeclarationReaders::list_at))]
pub fn list<T: Drop, L: Listed<T>>(
    alloc: Global,
    tokens: &[Token],
) -> Result<(Row<T>, &[Token]), ReadFail>
    ensures reads { (k : ℕ) → length tokens.now ≤ k → Gives (λ x. (x.0, x.1.now)) result (list_at L.begins (L.reader k) (L.steps k) tokens.now) }
    ensures shorter { IfOk result (λ x. length x.1.now ≤ length tokens.now) }
{
    let ((items, _), rest) = items_after::<T, L>(alloc, (Row::new(alloc), true), tokens)?;
    Ok((items, rest))
}

/// Reads items as long as they go on, after others; the flag says whether one may begin here.
#[tactic(auto, unfolding(sr_program_reader::specs::DeclarationReaders::items_at))]
pub fn items_after<T: Drop, L: Listed<T>>(
    alloc: Global,
    first: (Row<T>, bool),
    tokens: &[Token],
) -> Result<((Row<T>, bool), &[Token]), ReadFail>
    ensures reads { (k : ℕ) → length tokens.now ≤ k → Gives (λ x. (x.0, x.1.now)) result (items_at L.begins (L.reader k) (L.steps k) first tokens.now) }
    ensures shorter { IfOk result (λ x. length x.1.now ≤ length tokens.now) }
{
    let mut state = first;
    let mut rest = tokens;
    'more: while goes_on::<T, L>(state.1, rest) {
        let (more, after) = next_item::<T, L>(alloc, state, rest)?;
        state = more;
        rest = after;
    }
    Ok((state, rest))
}

/// Reads a separator, after which another may begin, or an item, after which none may.
#[tactic(auto, unfolding(sr_program_reader::specs::DeclarationReaders::next_item_at))]
fn next_item<T: Drop, L: Listed<T>>(
    alloc: Global,
    state: (Row<T>, bool),
    tokens: &[Token],
) -> Result<((Row<T>, bool), &[Token]), ReadFail>
    ensures reads { (k : ℕ) → length tokens.now ≤ k → Gives (λ x. (x.0, x.1.now)) result (next_item_at (L.reader k) state tokens.now) }
    ensures shorter { IfOk result (λ x. length x.1.now < length tokens.now) }
{
    let (items, _) = state;
    if next_is_separator(tokens) {
        let (_, items, rest) = separator_after(items, tokens)?;
        Ok(((items, true), rest))
    } else {
        match L::item(alloc, tokens) {
            Ok((item, rest)) => Ok(((pushed(items, item)?, false), rest)),
            Err(fail) => {
                let_go(items);
                Err(fail)
            }
        }
    }
}

/// Whether a separator stands next, or an item where one may begin.
fn goes_on<T, L: Listed<T>>(may_begin: bool, tokens: &[Token]) -> bool
    ensures { result ≡ next_is (λ t. if is_separator t.kind then true else if may_begin then L.begins t else false) tokens.now }
{
    next_is_separator(tokens) || (may_begin && L::next_begins(tokens))
}
