ghost use Rattle.std.specs.Prelude.{◌≡◌, ◌<◌, ℕ, slice_index};
ghost use Rattle.sr_races.specs.Items.{Run, actors};
ghost use Rattle.sr_races.specs.Links.{IsBefore};

/// A law: what is before an item comes earlier in the run.
pub fn before_comes_earlier()
    ensures { (r : Run) (i j : ℕ) → IsBefore r i j → i < j }
{}

/// A law: where an item is before another, so are all earlier ones of its process.
pub fn earlier_items_are_before_too()
    ensures { (r : Run) (i k j : ℕ) → 0 < slice_index (actors r) k → slice_index (actors r) i ≡ slice_index (actors r) k → i < k → IsBefore r k j → IsBefore r i j }
{}
