ghost use Rattle.sr_board.specs.Rule.{Kept};
ghost use Rattle.sr_board.specs.Steps.{committed, gave, took};
ghost use Rattle.sr_board.specs.Views.{first_view, joining, spent_view, split_off, splitting};

use crate::view::View;
use atomic_table::{Join, Play, Split, TableRule};
use std::marker::PhantomData;

/// What a board has to know of the values S in its slots and of the entries E.
pub trait Journals<S, E> {
    ghost use Rattle.std.specs.Prelude.{ℕ, Bool, List, Option};

    // the entries that a part has
    ghost journal: { S → List E };

    // a value may lie at this place
    ghost belongs: { ℕ → S → Type 0 };

    // the entry that a value tells of, where one is lent to a commit
    ghost said: { S → Option E };

    // the number of the seat that made an entry
    ghost seat: { E → ℕ };

    ghost stamp: { E → ℕ };

    ghost touches: { ℕ → E → Bool };
}

/// The rule that every step on a board keeps.
pub struct Law<P> {
    journals: PhantomData<P>,
}

impl<S, E, P: Journals<S, E>> TableRule<S, View<E>, ()> for Law<P> {
    ghost holds = { λ _. Kept P.journal P.belongs P.seat P.stamp P.touches };

    ghost first = { λ _. first_view };
}

/// A seat asks for the turn of a part.
pub struct Take<P> {
    journals: PhantomData<P>,
}

impl<S, E, P: Journals<S, E>> Play<S, View<E>> for Take<P> {
    ghost then = { took P.journal P.belongs };
}

/// An entry goes into the history.
pub struct Commit<P> {
    journals: PhantomData<P>,
}

impl<S, E, P: Journals<S, E>> Play<S, View<E>> for Commit<P> {
    ghost then = { committed P.said P.stamp P.touches };
}

/// The turn of the part that was taken last is given back.
pub struct Give;

impl<S, E> Play<S, View<E>> for Give {
    ghost then = { gave };
}

/// A new seat.
pub struct Fork;

impl<E> Split<View<E>> for Fork {
    ghost left = { splitting };

    ghost right = { split_off };
}

/// A seat takes in the next of those that were split off.
pub struct Absorb;

impl<E> Join<View<E>> for Absorb {
    ghost both = { joining };

    ghost spent = { spent_view };
}
