ghost use Rattle.std.specs.Prelude.{ℕ, List};
ghost use Rattle.sr_classes.specs.Classes.{AreLeast};

/// The classes are the least equivalence that holds for any two operations of one `in`.
pub fn least_classes()
    ensures { (groups : List (List ℕ)) → AreLeast groups }
{}
