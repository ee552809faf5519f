ghost use Rattle.std.specs.Prelude.{◌≡◌, ◌+◌, ℕ, List, [], ◌∷◌, ◌++◌, remove, slice_get, if◌then◌else◌};
ghost use Rattle.sr_queue.specs.Queues.{is_of, waiting};
ghost use Rattle.sr_queue.specs.declared.pending.Pending.{Pending};
ghost use Rattle.sr_value.specs.declared.capability.Owner.{Owner};

/// A law of queues: an invocation that arrives is one more of its operation, and of no other.
pub fn arrival_adds_one()
    ensures { (items : List Pending) (p : Pending) (owner : Owner) (op : ℕ)
        → waiting owner op (items ++ p ∷ []) ≡ waiting owner op items + (if is_of owner op p then 1 else 0) }
{}

/// A law of queues: the invocation that is taken out was one of its operation, and the others stay.
pub fn departure_takes_one()
    ensures { (items : List Pending) (i : ℕ) (p : Pending) (owner : Owner) (op : ℕ) → slice_get items i ≡ Some p
        → waiting owner op items ≡ waiting owner op (remove items i) + (if is_of owner op p then 1 else 0) }
{}
