ghost use Rattle.sr_execute.specs.Meant.{InstructionsAreCarriedOut};

/// An instruction does up to a request, and after the answers to it, what it is to do.
pub fn instructions_are_carried_out()
    ensures { InstructionsAreCarriedOut }
{}
