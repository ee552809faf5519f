ghost use Rattle.sr_code.specs.Laws.{InstructionsFall, OneInstructionThenTheRest};

/// An instruction goes to a lower address, or it takes a tick or an answer.
pub fn instructions_fall()
    ensures { InstructionsFall }
{}

/// Running code is one instruction and then the rest.
pub fn code_runs_one_by_one()
    ensures { OneInstructionThenTheRest }
{}
