ghost use Rattle.std.specs.Prelude.{◌≡◌, IfOk, OnOk};
ghost use Rattle.sr_names.specs.Diagnostics.{all_noted};
ghost use Rattle.sr_check.specs.Checked.{Answers, checked, verdict, verdict_by};

use crate::components;
use sr_check_decl::program;
use sr_check_expr::Facts;
use sr_names::{Diagnostic, Diagnostics};
use sr_scope::{Names, refusal_of};
use sr_text::FrontFail;
use sr_tree::File;
use sr_value::NoMemory;
use std::alloc::Global;

/// All that is declared in a program whose names mean this, by the spots of the declarations. The program is refused
/// where a rule of types (S6), of kinds of use (S7) or of guards (S8) is broken: the first by file and byte counts,
/// and at one token the lowest number.
pub fn check(alloc: Global, files: &[File], names: Names) -> Result<Facts, FrontFail>
    ensures { Answers result (verdict names.uses names.specs files.now) }
{
    let mut diagnostics = Diagnostics::new(alloc);
    let facts = read(alloc, files, names, &mut diagnostics)?;
    answer(diagnostics.first, facts)
}

/// All that is declared in a program; what is found in it is noted.
fn read(
    alloc: Global,
    files: &[File],
    names: Names,
    diagnostics: &mut Diagnostics,
) -> Result<Facts, NoMemory>
    ensures known { IfOk result (λ facts. facts ≡ (checked names.uses names.specs files.now).facts) }
    ensures noted { OnOk result (diagnostics.new ≡ all_noted diagnostics.old (checked names.uses names.specs files.now).found) }
{
    let Names { uses, specs } = names;
    let mut facts = program(alloc, uses, specs, files, diagnostics)?;
    match components::files(alloc, files, &mut facts, diagnostics) {
        Ok(()) => Ok(facts),
        Err(stop) => Err(stop),
    }
}

fn answer(first: Option<Diagnostic>, facts: Facts) -> Result<Facts, FrontFail>
    ensures { Answers result (verdict_by first facts) }
{
    match first {
        None => Ok(facts),
        Some(diagnostic) => Err(FrontFail::Refused(refusal_of(diagnostic))),
    }
}
