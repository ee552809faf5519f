ghost use Rattle.std.specs.Prelude.{◌≡◌, IfOk, OnOk};
ghost use Rattle.sr_code.specs.Acts.{second_place};
ghost use Rattle.sr_code.specs.Operands.{drop_place, join_sel, place_on};
ghost use Rattle.sr_code.specs.Owners.{home_at, owner_in, root_in, variable_in};
ghost use Rattle.sr_frame.specs.Scenes.{here_of};
ghost use Rattle.sr_execute.specs.Executes.{Does, begun, went};
ghost use Rattle.sr_code.specs.declared.instruction.Instruction.TheVariants as instruction;

use crate::frame::Frame;
use crate::putting::put_place;
use crate::step::Step;
use crate::tops::top_or;
use sr_ask::{Located, Spot};
use sr_code::Operands;
use sr_core::{Home, OperationOwner, Root, Scope};
use sr_frame::{Scene, whole};
use sr_value::{Duplicate, NoMemory, Owner, Sel};
use std::alloc::Global;

/// The instance of an imported global.
pub fn home_at(scene: &Scene, at: u32) -> u32
    ensures { result ≡ home_at at (here_of scene.now) }
{
    match scene.start.homes.get(at as usize) {
        Some(instance) => *instance,
        None => 0,
    }
}

/// The owner that an operation's capability names.
pub fn owner_in(scene: &Scene, whose: OperationOwner) -> Owner
    ensures { result ≡ owner_in whose (here_of scene.now) }
{
    match whose {
        OperationOwner::Mine => Owner::Inst(scene.start.instance),
        OperationOwner::Imported(at) => Owner::Inst(home_at(scene, at)),
        OperationOwner::Process => Owner::Proc(scene.start.process),
    }
}

/// The variable of a place.
pub fn root_in(scene: &Scene, root: Root) -> Spot
    ensures { result ≡ root_in root (here_of scene.now) }
{
    match root {
        Root::Own(var) => Spot::Own(var),
        Root::Shared { home, var } => match home {
            Home::Mine => Spot::Shared {
                block: scene.start.instance,
                var,
            },
            Home::Imported(at) => Spot::Shared {
                block: home_at(scene, at),
                var,
            },
        },
    }
}

/// The variable of a declaration.
pub fn variable_in(scene: &Scene, scope: Scope, var: u32) -> Spot
    ensures { result ≡ variable_in scope var (here_of scene.now) }
{
    match scope {
        Scope::Own => Spot::Own(var),
        Scope::Shared => Spot::Shared {
            block: scene.start.instance,
            var,
        },
    }
}

/// Takes the place on top.
pub fn take_place(alloc: Global, operands: &mut Operands) -> Located
    ensures place { result ≡ place_on operands.old }
    ensures others { operands.new ≡ drop_place operands.old }
{
    operands.places.take(whole(alloc, Spot::Own(0)))
}

/// A copy of the place on top.
pub fn copied_place(alloc: Global, operands: &Operands) -> Result<Located, NoMemory>
    ensures { IfOk result (λ place. place ≡ place_on operands.now) }
{
    top_or(&operands.places, &whole(alloc, Spot::Own(0))).copy(alloc)
}

/// A copy of the place below the top.
pub fn copied_second(alloc: Global, operands: &mut Operands) -> Result<Located, NoMemory>
    ensures place { IfOk result (λ place. place ≡ second_place operands.old) }
    ensures same { OnOk result (operands.new ≡ operands.old) }
{
    let first = operands.places.pop();
    let place = copied_place(alloc, operands)?;
    if let Some(first) = first {
        operands.places.push(first)?;
    }
    Ok(place)
}

/// A place becomes a part of it.
pub fn extend(scene: &Scene, frame: &mut Frame, step: Sel, next: usize) -> Result<Step, NoMemory>
    ensures { Does result frame.new (went next (join_sel step frame.old.operands) frame.old) }
{
    let Located { spot, mut path } = take_place(scene.alloc, &mut frame.operands);
    path.push(step)?;
    put_place(frame, Located { spot, path }, next)
}

/// A place becomes its part at a number.
pub fn place_at(scene: &Scene, frame: &mut Frame, next: usize) -> Result<Step, NoMemory>
    ensures { Does result frame.new (begun scene.now.names.now instruction.At (here_of scene.now) next frame.old.operands frame.old) }
{
    let index = frame.operands.numbers.take(0);
    extend(scene, frame, Sel::At(index), next)
}

/// A place becomes its part at two numbers.
pub fn place_at2(scene: &Scene, frame: &mut Frame, next: usize) -> Result<Step, NoMemory>
    ensures { Does result frame.new (begun scene.now.names.now instruction.At2 (here_of scene.now) next frame.old.operands frame.old) }
{
    let column = frame.operands.numbers.take(0);
    let row = frame.operands.numbers.take(0);
    extend(scene, frame, Sel::At2(row, column), next)
}
