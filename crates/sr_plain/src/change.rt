ghost use Rattle.std.specs.Prelude.{◌≡◌, None, Some};
ghost use Rattle.sr_plain.specs.declared.change.Change.TheVariants.{Everything};
ghost use Rattle.sr_plain.specs.Changes.{change_of as change_in, change_of_call, change_of_choice, change_of_end, change_of_reply, class_of, gone_by as gone_in, is_everything, owner_at};

use sr_ask::{Answer, Ask, Request, Role};
use sr_core::{Core, Me, Scope, Site};
use sr_value::{Cap, Owner};

/// What a step changes that processes may wait for, besides replies.
#[derive(Clone, Copy)]
pub enum Change {
    Nothing,
    /// An instance.
    Watched,
    /// A shared variable.
    Variable { block: u32, var: u32 },
    /// An invocation of an operation comes.
    Class { owner: Owner, op: u32 },
    /// An invocation of an operation goes.
    Gone { owner: Owner, op: u32 },
    Everything,
}

impl Change {
    /// Whether an invocation comes.
    pub(crate) fn is_arrival(self) -> bool {
        matches!(self, Change::Class { .. })
    }

    pub(crate) fn is_everything(self) -> bool
        ensures { result ≡ is_everything self }
    {
        matches!(self, Change::Everything)
    }
}

/// Who may be able to go on after a step.
#[derive(Clone, Copy)]
pub struct Woken {
    pub change: Change,
    /// Who got a reply.
    pub caller: u32,
    /// The number of the step.
    pub made: u32,
    /// The process that ended itself.
    pub gone: Option<u32>,
}

impl Woken {
    pub fn everyone() -> Self
        ensures change { result.change ≡ Everything }
        ensures gone { result.gone ≡ None }
    {
        Woken {
            change: Change::Everything,
            caller: 0,
            made: 0,
            gone: None,
        }
    }
}

/// Whose the operations of a statement are.
pub fn owner_of(scope: Scope, me: Me) -> Owner
    ensures { result ≡ owner_at scope me }
{
    match scope {
        Scope::Own => Owner::Proc(me.process),
        Scope::Shared => Owner::Inst(me.instance),
    }
}

/// An invocation starts a process, or it arrives.
fn of_call(core: &Core, target: Cap) -> Change
    ensures { result ≡ change_of_call core.now target }
{
    match target {
        Cap::Op { owner, op } => match core.operations.get(op as usize) {
            Some(operation) => match operation.proc {
                Some(_) => Change::Nothing,
                None => Change::Class { owner, op },
            },
            None => Change::Nothing,
        },
        _ => Change::Nothing,
    }
}

/// The invocation goes that an arm services.
fn of_arm(site: &Site, me: Me, number: u32) -> Change
    ensures { result ≡ class_of me number (Some site.now) }
{
    match site.arms.get(number as usize) {
        Some(arm) => Change::Gone {
            owner: owner_of(site.scope, me),
            op: arm.op,
        },
        None => Change::Nothing,
    }
}

fn of_choice(core: &Core, me: Me, number: u32, answer: &Answer) -> Change
    ensures { result ≡ change_of_choice core.now me number answer.now }
{
    match answer {
        Answer::Picked { arm, .. } => match core.sites.get(number as usize) {
            Some(site) => of_arm(site, me, *arm),
            None => Change::Nothing,
        },
        _ => Change::Nothing,
    }
}

/// Initial code that replies to its `create` makes its instance ready.
fn of_reply(role: Role, own: bool) -> Change
    ensures { result ≡ change_of_reply role own }
{
    match role {
        Role::Initial => {
            if own {
                Change::Watched
            } else {
                Change::Nothing
            }
        }
        _ => Change::Nothing,
    }
}

fn of_end(role: Role, back: u32) -> Change
    ensures { result ≡ change_of_end role back }
{
    match role {
        Role::Initial => Change::Watched,
        Role::Final => {
            if back == 0 {
                Change::Nothing
            } else {
                Change::Everything
            }
        }
        _ => Change::Nothing,
    }
}

/// What a step changes that was answered so.
pub fn change_of(core: &Core, me: Me, ask: &Ask, answer: &Answer) -> Change
    ensures { result ≡ change_in core.now me ask.now answer.now }
{
    match &ask.request {
        Request::Declare { block, var, .. } => Change::Variable {
            block: *block,
            var: *var,
        },
        Request::Store { block, var, .. } => Change::Variable {
            block: *block,
            var: *var,
        },
        Request::EnsureGlobal { .. } | Request::Create { .. } => Change::Watched,
        Request::Invoke { target, .. } => of_call(core, *target),
        Request::Forward { target, .. } => of_call(core, *target),
        Request::Select { site, .. } => of_choice(core, me, *site, answer),
        Request::Reply { held, .. } => of_reply(ask.role, *held == me.process),
        Request::Finish { back, .. } => of_end(ask.role, *back),
        Request::Destroy { .. } | Request::Stop { .. } => Change::Everything,
        _ => Change::Nothing,
    }
}

/// The process that a request ends by itself.
pub fn gone_by(request: &Request, process: u32) -> Option<u32>
    ensures { result ≡ gone_in request.now process }
{
    match request {
        Request::Finish { .. } => Some(process),
        _ => None,
    }
}
