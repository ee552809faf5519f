ghost use Rattle.sr_orders.specs.Merged.{MergeIsOne, SameParts};

/// What a worker wrote down, with a stamp.
pub trait Entered {
    ghost use Rattle.std.specs.Prelude.{ℕ, Bool};

    // the worker
    ghost by: { Self → ℕ };

    ghost stamp: { Self → ℕ };

    // whether it touches a part
    ghost touches: { ℕ → Self → Bool };
}

/// A law of merging: the lists of workers have no two orders by stamp and then by worker.
pub fn merge_is_one<E: Entered>()
    ensures { MergeIsOne E.by E.stamp }
{}

/// A law of merging: the merged entries have each part as the history has it.
pub fn merge_keeps_parts<E: Entered>()
    ensures { SameParts E.by E.stamp E.touches }
{}
