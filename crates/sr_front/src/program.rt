ghost use Rattle.std.specs.Prelude.{◌≡◌, ◌≤◌, length, IfOk, IfErr};
ghost use Rattle.sr_check.specs.Checked.{verdict};
ghost use Rattle.sr_front.specs.Program.{IsAccepted, IsRefused, IsChecked};
ghost use Rattle.sr_front.specs.Reading.{IsRefusal, contents_of};

use crate::sources::read;
use sr_check::check;
use sr_check_expr::Facts;
use sr_scope::{Names, resolve};
use sr_text::FrontFail;
use sr_tree::File;
use sr_value::{Row, Text};
use std::alloc::Global;

/// The files of a program that is accepted: their trees, and what is declared in them. It is what the compiler goes on
/// from.
#[derive(Drop)]
pub struct Checked {
    /// The trees of the files, in the order in which the files were given.
    pub trees: Row<File>,
    /// What the names in the trees mean, and what is declared there: with it [`sr_check_expr::expr`] gives the type and
    /// the static value of each expression.
    pub facts: Facts,
}

/// The program in these files, which are given with their names: their trees and their declarations. Or the refusal of
/// the program. Where a file can't be read it is the refusal of [`read`]. Else, where a rule of names is broken, it is
/// S4, S5, S9 or S12 for the first. Else it is S6, S7 or S8 for the first broken rule of types, of kinds of use or of
/// guards.
pub fn accept(alloc: Global, files: &[(Text, Text)]) -> Result<Checked, FrontFail>
    requires few { length files.now ≤ 64 }
    ensures accepted { IfOk result (IsAccepted (contents_of files.now)) }
    ensures refused { IfErr result (IsRefusal (IsRefused (contents_of files.now))) }
{
    let trees = read(alloc, files)?;
    match resolve(alloc, &trees) {
        Ok(names) => checked_trees(alloc, trees, names),
        Err(fail) => Err(fail),
    }
}

/// The program of trees whose names mean this, or its refusal.
fn checked_trees(alloc: Global, trees: Row<File>, names: Names) -> Result<Checked, FrontFail>
    ensures { IsChecked trees (verdict names.uses names.specs trees) result }
{
    match check(alloc, trees.as_slice(), names) {
        Ok(facts) => Ok(Checked { trees, facts }),
        Err(stop) => Err(stop),
    }
}
