ghost use Rattle.std.specs.Prelude.{◌≡◌, map, IfOk, slice_get};
ghost use Rattle.std.specs.Option.{option_copied};
ghost use Rattle.sr_ask.specs.Asking.{selected};
ghost use Rattle.sr_ask.specs.Behaviors.{Came};
ghost use Rattle.sr_meaning.specs.Expressions.{in_order};
ghost use Rattle.sr_meaning.specs.Statements.{named_value, service_for, site_at};
ghost use Rattle.sr_interpreter_parts.specs.StatementParts.{choosing};
ghost use Rattle.sr_interpreter_expr.specs.Interpreters.{Agrees, here_of, stage_of};
ghost use Rattle.sr_ask.specs.Replies.{set_service};

use crate::formals::result_vars;
use sr_ask::{Answer, Gives, Pick, Request, Selection, Service};
use sr_core::{Arm, Named};
use sr_frame::selected;
use sr_interpreter_expr::{HasCore, Interpreter, Scene, Stop, Takes, ask, failed};
use sr_value::{Cap, Duplicate, Fault, NoMemory, Row, Value};
use std::alloc::Global;

/// `Picked`, of one of so many arms; `Else`, where the statement has one.
#[derive(Clone, Copy)]
struct IsSelected {
    arms: usize,
    has_else: bool,
}

impl Takes<Selection> for IsSelected {
    ghost takes = { λ form. selected form.arms form.has_else };

    fn take(&self, answer: Answer) -> Option<Selection> {
        selected(self.arms, self.has_else, answer)
    }
}

/// What goes with a `Select` of one thing that the guards name.
fn named_value<C: HasCore>(
    scene: &Scene<C>,
    interpreter: &Interpreter,
    name: Named,
) -> Result<Value, Stop>
    ensures { Agrees (named_value name (here_of C.core_of scene.now) (stage_of interpreter.now)) result (stage_of interpreter.now) }
{
    match name {
        Named::Own(var) => match interpreter.own.get(var as usize) {
            Some(Some(own)) => Ok(own.value.copy(scene.alloc)?),
            _ => failed(scene, interpreter, Fault::Early),
        },
        Named::Home(at) => match scene.start.homes.get(at as usize) {
            Some(instance) => Ok(Value::Capa(Cap::Res(*instance))),
            None => Ok(Value::Capa(Cap::Res(0))),
        },
        Named::Machine => Ok(Value::Capa(Cap::Vm(scene.start.vm))),
    }
}

/// What goes with a `Select`.
fn named_values<C: HasCore>(
    scene: &Scene<C>,
    interpreter: &Interpreter,
    names: &[Named],
) -> Result<Row<Value>, Stop>
    ensures { Agrees (in_order (map named_value names.now) (here_of C.core_of scene.now) (stage_of interpreter.now)) result (stage_of interpreter.now) }
{
    let mut values = Row::new(scene.alloc);
    for name in names {
        let value = named_value(scene, interpreter, *name)?;
        values.push(value)?;
    }
    Ok(values)
}

/// What the guards of a site name of the process.
fn names_at<'a, C: HasCore>(scene: &Scene<'a, C>, site: u32) -> &'a [Named]
    ensures { result.now ≡ (site_at site (here_of C.core_of scene.now)).names }
{
    match scene.program.core().sites.get(site as usize) {
        Some(found) => found.names.as_slice(),
        None => &[],
    }
}

/// Whether a site has an `else`.
fn has_else<C: HasCore>(scene: &Scene<C>, site: u32) -> bool
    ensures { result ≡ (site_at site (here_of C.core_of scene.now)).has_else }
{
    match scene.program.core().sites.get(site as usize) {
        Some(found) => found.has_else,
        None => false,
    }
}

/// The arm of a site.
pub fn arm_at<'a, C: HasCore>(scene: &Scene<'a, C>, site: u32, arm: u32) -> Option<&'a Arm>
    ensures { option_copied result ≡ slice_get (site_at site (here_of C.core_of scene.now)).arms arm }
{
    match scene.program.core().sites.get(site as usize) {
        Some(found) => found.arms.get(arm as usize),
        None => None,
    }
}

/// Asks which arm of a site is to run, out of so many.
pub fn choose<C: HasCore>(
    scene: &Scene<C>,
    interpreter: &mut Interpreter,
    site: u32,
    arms: usize,
) -> Result<Selection, Stop>
    ensures { Agrees (choosing site arms (here_of C.core_of scene.now) (stage_of interpreter.old)) result (stage_of interpreter.new) }
{
    let request = Request::Select {
        site,
        env: named_values(scene, interpreter, names_at(scene, site))?,
    };
    let form = IsSelected {
        arms,
        has_else: has_else(scene, site),
    };
    ask(scene, interpreter, &form, request)
}

/// What a process holds while it services an invocation.
pub fn service_for(alloc: Global, pick: &Pick, arm: &Arm) -> Result<Service, NoMemory>
    ensures { IfOk result (λ service. service ≡ service_for pick.now arm.now) }
{
    Ok(Service {
        held: pick.id,
        back: pick.back,
        answered: false,
        gives: Gives::Values(result_vars(alloc, arm.formals.as_slice(), &arm.returned)?),
    })
}

/// Makes another invocation the one in service, and returns the one before.
pub fn set_service(interpreter: &mut Interpreter, service: Service) -> Service
    ensures set { set_service service (stage_of interpreter.old) ≡ Came tt (stage_of interpreter.new) }
    ensures before { result ≡ interpreter.old.service }
{
    std::mem::replace(&mut interpreter.service, service)
}
