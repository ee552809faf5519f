ghost use Rattle.std.specs.Prelude.{◌≡◌};
ghost use Rattle.sr_trace.specs.Asking as asking;

use crate::traced::{Act, Subject};
use sr_ask::Request;
use sr_value::Cap;

/// What a step does that makes this request.
pub fn act_of(request: &Request) -> Act
    ensures { result ≡ asking.act_of request.now }
{
    match request {
        Request::Declare { .. } => Act::Declare,
        Request::Load { .. } => Act::Load,
        Request::Store { .. } => Act::Store,
        Request::Invoke { wants, .. } => invoking(*wants),
        Request::Select { .. } => Act::Service,
        Request::Take { .. } => Act::Take,
        Request::Reply { .. } => Act::Reply,
        Request::Forward { .. } => Act::Forward,
        Request::Count { .. } => Act::Count,
        Request::Write { .. } => Act::Write,
        Request::Read { .. } => Act::Read,
        Request::EnsureGlobal { .. } => Act::Import,
        Request::Create { .. } => Act::Create,
        Request::MakeVm => Act::MakeMachine,
        Request::Destroy { .. } => Act::Destroy,
        Request::Finish { .. } => Act::Finish,
        Request::Stop { .. } => Act::Stop,
        Request::Fail { .. } => Act::Fail,
        Request::Age => Act::Age,
        Request::Wake { .. } => Act::Nap,
    }
}

fn invoking(wants: bool) -> Act
    ensures { result ≡ asking.invoking wants }
{
    if wants { Act::Call } else { Act::Send }
}

/// What is named by a request. `served` is the operation whose invocation it services, where it services one.
pub fn subject_of(request: &Request, served: Option<u32>) -> Subject
    ensures { result ≡ asking.subject_of request.now served }
{
    match request {
        Request::Invoke { target, .. } => invoked(*target),
        Request::Forward { target, .. } => invoked(*target),
        Request::Select { .. } => serviced(served),
        Request::Count { op } => Subject::Operation(*op),
        Request::EnsureGlobal { global, .. } => Subject::Component(*global),
        Request::Create { resource, .. } => Subject::Component(*resource),
        _ => Subject::Nothing,
    }
}

fn invoked(target: Cap) -> Subject
    ensures { result ≡ asking.invoked target }
{
    match target {
        Cap::Op { op, .. } => Subject::Operation(op),
        _ => Subject::Nothing,
    }
}

fn serviced(served: Option<u32>) -> Subject
    ensures { result ≡ asking.serviced served }
{
    match served {
        Some(op) => Subject::Operation(op),
        None => Subject::Nothing,
    }
}
