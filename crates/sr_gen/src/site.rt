ghost use Rattle.std.specs.Prelude.{◌≡◌, OnOk, map};
ghost use Rattle.sr_code.specs.Operands.{join_value, put_list};
ghost use Rattle.sr_core.specs.declared.component.Core.{Core};
ghost use Rattle.sr_meaning.specs.Expressions.{in_order};
ghost use Rattle.sr_meaning.specs.Statements.{named_value};
ghost use Rattle.sr_gen.specs.Doing.{Closes, site_in};
ghost use Rattle.sr_gen_expr.specs.Emitting.{Gives};

use sr_code::{Coded, Instruction};
use sr_core::{Arm, Core, Named};
use sr_gen_expr::emit;
use sr_value::{NoMemory, Place, Row};

/// The arms of a site.
pub fn arms_of(core: &Core, site: u32) -> &[Arm]
    ensures { result.now ≡ (site_in core.now site).arms }
{
    match core.sites.get(site as usize) {
        Some(found) => found.arms.as_slice(),
        None => &[],
    }
}

/// Whether a site has an `else`.
pub fn has_else(core: &Core, site: u32) -> bool
    ensures { result ≡ (site_in core.now site).has_else }
{
    match core.sites.get(site as usize) {
        Some(found) => found.has_else,
        None => false,
    }
}

/// What the guards of a site name of the process.
pub fn names_of(core: &Core, site: u32) -> &[Named]
    ensures { result.now ≡ (site_in core.now site).names }
{
    match core.sites.get(site as usize) {
        Some(found) => found.names.as_slice(),
        None => &[],
    }
}

/// Emits what guards name of the process, which becomes a list.
pub fn gen_named(place: Place, names: &[Named], out: &mut Row<Coded>) -> Result<(), NoMemory>
    ensures { OnOk result ((core : Core) → Gives put_list core place (in_order (map named_value names.now)) out.old out.new) }
{
    let mut at = names.len();
    while at > 0 {
        at -= 1;
        gen_name(place, &names[at], out)?;
    }
    emit(place, Instruction::NoValues, out)?;
    Ok(())
}

/// Emits one of them, which joins the list.
fn gen_name(place: Place, named: &Named, out: &mut Row<Coded>) -> Result<(), NoMemory>
    ensures { OnOk result ((core : Core) → Gives join_value core place (named_value named.now) out.old out.new) }
{
    emit(place, Instruction::AddNamed(*named), out)?;
    Ok(())
}

/// Emits the end of a service: the code goes on at `to`.
pub fn gen_close(place: Place, to: usize, out: &mut Row<Coded>) -> Result<(), NoMemory>
    ensures { OnOk result ((core : Core) → Closes to core place out.old out.new) }
{
    emit(place, Instruction::Jump { to }, out)?;
    emit(place, Instruction::EndService, out)?;
    emit(place, Instruction::Reply, out)?;
    Ok(())
}
