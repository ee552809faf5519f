ghost use Rattle.std.specs.Prelude.{◌≡◌, ◌<◌, ◌↔◌, remove, slice_index_or, IfNone, IfSome, IsSome, OnSome, Some};
ghost use Rattle.std.specs.VecDeque.{deque_capacity, deque_len};

use std::collections::VecDeque;

/// Takes the one at a place out of a list. The first leaves without a move of the others.
pub fn take_at<T>(list: &mut VecDeque<T>, place: usize) -> Option<T>
    ensures value { IfSome result (λ taken. taken ≡ slice_index_or list.old.items place taken) }
    ensures items { OnSome result (list.new.items ≡ remove list.old.items place) }
    ensures variant { IsSome result ↔ (place < deque_len list.old) }
    ensures succeeds { (other : T) → place < deque_len list.old → result ≡ Some (slice_index_or list.old.items place other) }
    ensures unchanged { IfNone result (list.new.items ≡ list.old.items) }
    ensures capacity { deque_capacity list.new ≡ deque_capacity list.old }
{
    if place == 0 {
        return list.pop_front();
    }
    list.remove(place)
}
