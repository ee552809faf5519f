ghost use Rattle.std.specs.Prelude.{◌≡◌, IfSome, Some, option_map};
ghost use Rattle.sr_classes.specs.Classes.{class_of};
ghost use Rattle.sr_touch.specs.Orders.{IsAscending, all_added, parts_in};
ghost use Rattle.sr_touch.specs.Touched.{count_part, is_proc, is_wide, one_part, parts_beside, touched};

use crate::invoked::{is_wide_target, with_caller, with_invoked};
use crate::parts::Parts;
use crate::site::{count_part, is_wide_site, with_select};
use sr_ask::{Ask, Request, Role};
use sr_buckets::home;
use sr_core::{Classes, Core, Me};

fn is_proc(role: Role) -> bool
    ensures { result ≡ is_proc role }
{
    match role {
        Role::Proc => true,
        _ => false,
    }
}

/// Whether a request of a process is wide: it changes what stands in no part, or touches more than three.
pub fn is_wide(core: &Core, classes: &Classes, me: Me, ask: &Ask) -> bool
    ensures { result ≡ is_wide core.now (class_of classes.now.of) me ask.now }
{
    match &ask.request {
        Request::Select { site, env } => is_wide_site(core, classes, me, env.as_slice(), *site),
        Request::Reply { .. } => !is_proc(ask.role),
        Request::Finish { .. } => !is_proc(ask.role),
        Request::Declare { .. } => false,
        Request::Load { .. } => false,
        Request::Store { .. } => false,
        Request::Invoke { target, .. } => is_wide_target(core, *target),
        Request::Take { .. } => false,
        Request::Forward { target, .. } => is_wide_target(core, *target),
        Request::Count { .. } => false,
        Request::Wake { .. } => false,
        _ => true,
    }
}

/// With the part of an operation's line, as a process means it.
fn with_count(parts: Parts, core: &Core, classes: &Classes, me: Me, op: u32) -> Option<Parts>
    requires { IsAscending parts }
    ensures value { option_map parts_in result ≡ all_added (Some (parts_in parts)) (one_part (count_part core.now (class_of classes.now.of) me op)) }
    ensures ascending { IfSome result IsAscending }
{
    match count_part(core, classes, me, op) {
        Some(part) => parts.with(part),
        None => Some(parts),
    }
}

/// With the parts that a request touches beside that of its process, in a step of this number.
fn with_beside(
    parts: Parts,
    core: &Core,
    classes: &Classes,
    me: Me,
    name: u32,
    request: &Request,
) -> Option<Parts>
    requires { IsAscending parts }
    ensures { option_map parts_in result ≡ all_added (Some (parts_in parts)) (parts_beside core.now (class_of classes.now.of) me name request.now) }
{
    match request {
        Request::Declare { block, .. } => parts.with(home(*block)),
        Request::Load { block, .. } => parts.with(home(*block)),
        Request::Store { block, .. } => parts.with(home(*block)),
        Request::Invoke { target, .. } => {
            with_invoked(parts, core, classes, name, me.process, *target)
        }
        Request::Select { site, env } => {
            with_select(parts, core, classes, me, env.as_slice(), *site)
        }
        Request::Reply { back, .. } => with_caller(parts, *back),
        Request::Forward { back, target, .. } => {
            with_invoked(parts, core, classes, name, *back, *target)
        }
        Request::Count { op } => with_count(parts, core, classes, me, *op),
        Request::Finish { answered, back, .. } => {
            if *answered {
                Some(parts)
            } else {
                with_caller(parts, *back)
            }
        }
        _ => Some(parts),
    }
}

/// The parts of a world that a request of a process touches, in a step of this number; `None` where it is wide.
#[tactic(auto, using(crate::proofs::TouchLemmas::narrow_added))]
pub fn touched(core: &Core, classes: &Classes, me: Me, ask: &Ask, name: u32) -> Option<Parts>
    ensures { option_map parts_in result ≡ touched core.now (class_of classes.now.of) me ask.now name }
{
    if is_wide(core, classes, me, ask) {
        None
    } else {
        with_beside(
            Parts::One(home(me.process)),
            core,
            classes,
            me,
            name,
            &ask.request,
        )
    }
}
