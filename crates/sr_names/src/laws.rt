ghost use Rattle.sr_names.specs.FirstLaw.{KeepsFirst};

/// That what is kept of the broken rules of a list of findings is the first of all by file and byte, and at one
/// token by number.
pub fn keeps_first()
    ensures { KeepsFirst }
{}
