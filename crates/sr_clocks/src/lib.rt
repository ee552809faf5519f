//! A law of clocks: items one after another, some of them linked to later ones, and rows of counts that tell which item
//! comes before which. No function here does anything: each carries a law in its contract.
#![tactic(auto)]

ghost use Rattle.sr_clocks.specs.Clocks.{FirstPart, IsLeast, LastLink, RowsTell};

/// Items, some of which are linked to later ones.
pub trait Linked {
    ghost use Rattle.std.specs.Prelude.{ℕ};

    // where an item is linked to another, by their places
    ghost links: { ℕ → ℕ → Type 0 };
}

/// A relation on items.
pub trait Related {
    ghost use Rattle.std.specs.Prelude.{ℕ};

    // where it holds of two items, by their places
    ghost holds: { ℕ → ℕ → Type 0 };
}

/// The law of clocks: the row of an item tells which items are before it.
pub fn rows_tell<L: Linked>()
    ensures { RowsTell L.links }
{}

/// A law of what is before an item: of each process it is a first part, and it ends with a link.
pub fn before_is_by_links<L: Linked>()
    ensures first { FirstPart L.links }
    ensures last { LastLink L.links }
{}

/// A law of the closure: what is before an item is so by every transitive relation that has the links.
pub fn before_is_least<L: Linked, R: Related>()
    ensures { IsLeast L.links R.holds }
{}
