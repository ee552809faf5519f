ghost use Rattle.sr_orders.specs.Ascending.{PlacesGiveAll};

/// What has a key, and stands in a place.
pub trait Placed {
    ghost use Rattle.std.specs.Prelude.{ℕ};

    ghost key: { Self → ℕ };

    ghost place: { Self → ℕ };
}

/// A law of lists that ascend: what stands in each place gives the whole list.
pub fn places_give_all<A: Placed>()
    ensures { PlacesGiveAll A.key A.place }
{}
