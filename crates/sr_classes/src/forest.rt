//! A forest of operations: each has a parent before it, or is its own parent and the first of its class.
ghost use Rattle.std.specs.Prelude.{◌≡◌, ◌<◌, ℕ, length};
ghost use Rattle.sr_classes.specs.Joins.{IsForest, Stands, StandsOn, joined};

use sr_value::Row;

/// The first operation of a class. On the way each operation gets its parent's parent, so that ways get shorter.
pub fn first_of(parents: &mut Row<u32>, op: u32) -> u32
    requires within { op < length parents.old }
    requires forest { IsForest parents.old }
    ensures length { length parents.new ≡ length parents.old }
    ensures forest { IsForest parents.new }
    ensures within { result < length parents.new }
    ensures first { (of : ℕ → ℕ) → Stands of parents.old → Stands of parents.new × (result ≡ of op) }
{
    let mut at = op;
    'up: loop {
        let all = parents.as_slice();
        let parent = all[at as usize];
        if parent == at {
            break 'up;
        }
        let above = all[parent as usize];
        let _ = parents.replace(at as usize, above);
        at = above;
    }
    at
}

/// Makes the classes of two operations one.
pub fn join(parents: &mut Row<u32>, a: u32, b: u32)
    requires first { a < length parents.old }
    requires second { b < length parents.old }
    requires forest { IsForest parents.old }
    ensures length { length parents.new ≡ length parents.old }
    ensures forest { IsForest parents.new }
    ensures joined { StandsOn parents.old parents.new (λ of. joined of a b) }
{
    let a = first_of(parents, a);
    let b = first_of(parents, b);
    if a < b {
        let _ = parents.replace(b as usize, a);
    } else {
        let _ = parents.replace(a as usize, b);
    }
}
