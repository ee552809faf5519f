ghost use Rattle.std.specs.Prelude.{◌≡◌, ◌≤◌, length, IfOk, IfErr};
ghost use Rattle.sr_core.specs.WellFormed.{IsWellFormed};
ghost use Rattle.sr_compiled.specs.Agreement.{AsksTheSame};
ghost use Rattle.sr_front.specs.Cores.{IsCoreOf};
ghost use Rattle.sr_front.specs.Formals.{HasFormals};
ghost use Rattle.sr_front.specs.Imports.{HasImports};
ghost use Rattle.sr_front.specs.Invocations.{HasInvocations};
ghost use Rattle.sr_front.specs.Program.{IsRefused};
ghost use Rattle.sr_front.specs.Reading.{IsRefusal, contents_of};
ghost use Rattle.sr_front.specs.Sites.{HasSites};
ghost use Rattle.sr_front.specs.Variables.{HasVariables};

use crate::cores::core_of;
use sr_code::Program;
use sr_core::{Classes, Core};
use sr_gen::generate;
use sr_text::FrontFail;
use sr_value::{NoMemory, Text};
use std::alloc::Global;

/// The program in these files, which are given with their names: its core with the classes of its operations, as
/// [`core_of`] gives them, and its code. A program that isn't accepted gets the refusal of [`accept`](crate::accept).
pub fn compile(alloc: Global, files: &[(Text, Text)]) -> Result<Program, FrontFail>
    requires few { length files.now ≤ 64 }
    ensures core { IfOk result (λ program. IsCoreOf (contents_of files.now) (program.core, program.classes)) }
    ensures well_formed { IfOk result (λ program. IsWellFormed program.core) }
    ensures sites { IfOk result (λ program. HasSites program.core) }
    ensures imports { IfOk result (λ program. HasImports program.core) }
    ensures formals { IfOk result (λ program. HasFormals program.core) }
    ensures invocations { IfOk result (λ program. HasInvocations program.core) }
    ensures variables { IfOk result (λ program. HasVariables program.core) }
    ensures code { IfOk result (λ program. AsksTheSame program.core program.code) }
    ensures refused { IfErr result (IsRefusal (IsRefused (contents_of files.now))) }
{
    let (core, classes) = core_of(alloc, files)?;
    Ok(with_code(alloc, core, classes)?)
}

/// A core and its classes, with code.
fn with_code(alloc: Global, core: Core, classes: Classes) -> Result<Program, NoMemory>
    ensures core { IfOk result (λ program. program.core ≡ core) }
    ensures classes { IfOk result (λ program. program.classes ≡ classes) }
    ensures code { IfOk result (λ program. AsksTheSame program.core program.code) }
{
    let code = generate(alloc, &core)?;
    Ok(Program {
        core,
        classes,
        code,
    })
}
