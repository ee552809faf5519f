ghost use Rattle.std.specs.Prelude.{◌≡◌, ◌≤◌, length, IfOk, IfErr};
ghost use Rattle.sr_core.specs.WellFormed.{IsWellFormed};
ghost use Rattle.sr_front.specs.Cores.{IsCoreOf, IsWrittenOut};
ghost use Rattle.sr_front.specs.Formals.{HasFormals};
ghost use Rattle.sr_front.specs.Imports.{HasImports};
ghost use Rattle.sr_front.specs.Invocations.{HasInvocations};
ghost use Rattle.sr_front.specs.Program.{IsRefused};
ghost use Rattle.sr_front.specs.Reading.{IsRefusal, contents_of};
ghost use Rattle.sr_front.specs.Sites.{HasSites};
ghost use Rattle.sr_front.specs.Variables.{HasVariables};

use crate::program::{Checked, accept};
use sr_classes::partition;
use sr_core::{Classes, Core};
use sr_desugar::to_core;
use sr_text::FrontFail;
use sr_value::{NoMemory, Text};
use std::alloc::Global;

/// The core of the program in these files, which are given with their names, and the classes of its operations. In the
/// core each abbreviation is written out, and each name is a number. Each number names something, and no rule of kinds
/// is broken. A program that isn't accepted gets the refusal of [`accept`].
pub fn core_of(alloc: Global, files: &[(Text, Text)]) -> Result<(Core, Classes), FrontFail>
    requires few { length files.now ≤ 64 }
    ensures core { IfOk result (IsCoreOf (contents_of files.now)) }
    ensures well_formed { IfOk result (λ made. IsWellFormed made.0) }
    ensures sites { IfOk result (λ made. HasSites made.0) }
    ensures imports { IfOk result (λ made. HasImports made.0) }
    ensures formals { IfOk result (λ made. HasFormals made.0) }
    ensures invocations { IfOk result (λ made. HasInvocations made.0) }
    ensures variables { IfOk result (λ made. HasVariables made.0) }
    ensures refused { IfErr result (IsRefusal (IsRefused (contents_of files.now))) }
{
    let accepted = accept(alloc, files)?;
    Ok(written_out(alloc, accepted)?)
}

/// The core of a program that is accepted, with its classes.
fn written_out(alloc: Global, accepted: Checked) -> Result<(Core, Classes), NoMemory>
    ensures { IfOk result (IsWrittenOut accepted) }
{
    let Checked { trees, facts } = accepted;
    let core = to_core(alloc, trees.as_slice(), facts)?;
    let classes = partition(alloc, &core)?;
    Ok((core, classes))
}
