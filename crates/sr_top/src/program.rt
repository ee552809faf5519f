ghost use Rattle.std.specs.Prelude.{◌≤◌, length, IfErr, IfOk};
ghost use Rattle.sr_front.specs.Cores.{IsCoreOf};
ghost use Rattle.sr_front.specs.Reading.{contents_of};
ghost use Rattle.sr_top.specs.Programs.{classes_in, core_in};
ghost use Rattle.sr_top.specs.Reading.{StopsCompiling};

use crate::report::Ending;
use sr_compiled::Compiled;
use sr_front::compile;
use sr_text::FrontFail;
use sr_value::Text;
use std::alloc::Global;

// What runs a process of a program.
pub use sr_process::Process;

/// What the files of a program are compiled to, as a process needs it.
pub type Program = Compiled;

/// The program in these files.
pub fn compiled(alloc: Global, texts: &[(Text, Text)]) -> Result<Program, Ending>
    requires few { length texts.now ≤ 64 }
    ensures core { IfOk result (λ program. IsCoreOf (contents_of texts.now) (core_in program, classes_in program)) }
    ensures ends { IfErr result (StopsCompiling texts.now) }
{
    match compile(alloc, texts) {
        Ok(program) => Ok(Compiled::new(program)),
        Err(FrontFail::Refused(refusal)) => Err(Ending::Refused(refusal)),
        Err(FrontFail::NoMemory) => Err(Ending::NoMemory),
    }
}
