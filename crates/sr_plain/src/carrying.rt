ghost use Rattle.std.specs.Prelude.{◌≡◌, ℕ, IfOk, OnErr, Ok};
ghost use Rattle.sr_plain.specs.Carrying.{Names};
ghost use Rattle.sr_plain.specs.Leaving.{written_by};
ghost use Rattle.sr_plain.specs.Order.{IsNext};
ghost use Rattle.sr_world.specs.Acting.{Acts, NeedsNew};
ghost use Rattle.sr_world.specs.Callers.{caller_in};
ghost use Rattle.sr_world.specs.Does.{Does as what};
ghost use Rattle.sr_world.specs.Steps.{does};

use sr_ask::{Ask, Request};
use sr_core::Core;
use sr_value::{Duplicate, NoMemory, Text};
use sr_world::{Acted, World};
use std::alloc::Global;

/// What the machine did, the number of the step, who waited for what was answered, and what was written.
#[derive(Drop)]
pub struct Carried {
    pub name: u32,
    pub caller: u32,
    pub output: Text,
    pub acted: Acted,
}

/// One more than the greatest number that was given out. Where that is the greatest of all there is no memory for more.
pub fn new_name(world: &World) -> Result<u32, NoMemory>
    ensures next { IfOk result (IsNext world.now.used) }
    ensures needed { IfOk result (λ name. (meant : what) → NeedsNew meant world.now name) }
{
    match world.greatest_used().checked_add(1) {
        Some(name) => {
            if world.is_new(name) {
                return Ok(name);
            }
            Err(NoMemory)
        }
        None => Err(NoMemory),
    }
}

/// The number of the step of a request.
fn name_for(world: &World, core: &Core, ask: &Ask) -> Result<u32, NoMemory>
    ensures names { IfOk result (λ name. (actor : ℕ) → Names (does core.now world.now actor ask.now name) world.now name) }
    ensures needed { IfOk result (λ name. (actor : ℕ) → NeedsNew (does core.now world.now actor ask.now name) world.now name) }
{
    if world.makes(core, ask) {
        return new_name(world);
    }
    Ok(0)
}

/// What a request writes.
fn written(alloc: Global, request: &Request) -> Result<Text, NoMemory>
    ensures { IfOk result (λ text. text ≡ written_by request.now) }
{
    match request {
        Request::Write { bytes } => bytes.copy(alloc),
        _ => Ok(Text::new(alloc)),
    }
}

/// Has the machine carry a request out.
pub fn carry_out(
    alloc: Global,
    world: &mut World,
    core: &Core,
    actor: u32,
    ask: &Ask,
) -> Result<Carried, NoMemory>
    ensures acts { IfOk result (λ carried. Acts (does core.now world.old actor ask.now carried.name) world.old world.new (Ok carried.acted)) }
    ensures names { IfOk result (λ carried. Names (does core.now world.old actor ask.now carried.name) world.old carried.name) }
    ensures caller { IfOk result (λ carried. carried.caller ≡ caller_in world.old actor ask.now.request) }
    ensures output { IfOk result (λ carried. carried.output ≡ written_by ask.now.request) }
    ensures err { OnErr result (world.new ≡ world.old) }
{
    let name = name_for(world, core, ask)?;
    let caller = world.caller(actor, &ask.request);
    let output = written(alloc, &ask.request)?;
    let acted = world.act(core, actor, ask, name)?;
    Ok(Carried {
        name,
        caller,
        output,
        acted,
    })
}
