ghost use Rattle.std.specs.Prelude.{◌≡◌, ◌<◌, ℕ};
ghost use Rattle.sr_buckets.specs.Parts.{ByNumber, part};

/// Maps are the same where each of their parts is.
pub fn parts_are_a_map()
    ensures { (one other : ByNumber ℕ) → ((i : ℕ) → i < 32 → part i one ≡ part i other) → one ≡ other }
{}
