ghost use Rattle.sr_outline.specs.Needs.{NeedsInOrder};
ghost use Rattle.sr_outline.specs.Shapes.{KeepsFault};

/// That where no global imports itself through others, the needed globals come in an order in which they can be made.
pub fn needs_in_order()
    ensures { NeedsInOrder }
{}

/// That the shape which stands for a type of too many cells has the fault of that type wherever it is a part.
pub fn keeps_fault()
    ensures { KeepsFault }
{}
