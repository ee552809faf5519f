use crate::program::PLACE;
use sr_ask::{Ask, ReadKind, Request, Role, SharedNumbers};
use sr_value::{Cap, Fault, NoMemory, Row, Shape, Text, Value};
use std::alloc::Global;

/// A request without what no part depends on.
#[derive(Clone, Copy)]
pub enum Asked {
    /// To declare, load, store a variable of a block.
    Declare(u32),
    Load(u32),
    Store(u32),
    Invoke(Cap),
    Select(u32),
    Take,
    /// To answer the one who waits.
    Reply(u32),
    /// To hand the duty to answer the one who waits on.
    Forward(u32, Cap),
    Count(u32),
    Write,
    Read,
    EnsureGlobal,
    Create,
    MakeVm,
    Destroy,
    /// To end, with the invocation answered or not.
    Finish(bool, u32),
    Stop,
    Fail,
    Age,
    Wake,
}

/// The requests about instances, machines, input, output and the end.
fn wide_request(alloc: Global, asked: Asked) -> Request {
    match asked {
        Asked::Write => Request::Write {
            bytes: Text::new(alloc),
        },
        Asked::Read => Request::Read {
            kind: ReadKind::Int,
        },
        Asked::EnsureGlobal => Request::EnsureGlobal {
            global: 0,
            vm: Cap::Vm(1),
        },
        Asked::Create => Request::Create {
            resource: 0,
            args: Row::new(alloc),
            vm: Cap::Vm(1),
        },
        Asked::MakeVm => Request::MakeVm,
        Asked::Destroy => Request::Destroy {
            target: Cap::Res(3),
        },
        Asked::Stop => Request::Stop { status: 0 },
        Asked::Fail => Request::Fail {
            fault: Fault::Range,
        },
        _ => Request::Age,
    }
}

/// The requests about variables and time.
fn plain_request(alloc: Global, asked: Asked) -> Request {
    match asked {
        Asked::Declare(block) => Request::Declare {
            block,
            var: 0,
            shape: Shape::Int,
        },
        Asked::Load(block) => Request::Load {
            block,
            var: 0,
            path: Row::new(alloc),
        },
        Asked::Store(block) => Request::Store {
            block,
            var: 0,
            path: Row::new(alloc),
            value: Value::Int(0),
        },
        Asked::Take => Request::Take {
            ids: SharedNumbers::new(alloc),
        },
        Asked::Wake => Request::Wake { until: 10 },
        _ => wide_request(alloc, asked),
    }
}

fn request_of(alloc: Global, asked: Asked) -> Request {
    match asked {
        Asked::Invoke(target) => Request::Invoke {
            target,
            args: Row::new(alloc),
            wants: true,
        },
        Asked::Select(site) => Request::Select {
            site,
            env: Row::new(alloc),
        },
        Asked::Reply(back) => Request::Reply {
            held: 20,
            back,
            results: Row::new(alloc),
        },
        Asked::Forward(back, target) => Request::Forward {
            held: 20,
            back,
            target,
            args: Row::new(alloc),
        },
        Asked::Count(op) => Request::Count { op },
        Asked::Finish(answered, back) => Request::Finish {
            answered,
            back,
            results: Row::new(alloc),
        },
        _ => plain_request(alloc, asked),
    }
}

/// The request, asked in code of this role.
pub fn ask_of(alloc: Global, role: Role, asked: Asked) -> Ask {
    Ask {
        place: PLACE,
        role,
        request: request_of(alloc, asked),
    }
}
