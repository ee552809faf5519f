ghost use Rattle.std.specs.Prelude.{◌≡◌, IfOk};

use crate::numbers::SharedNumbers;
use sr_value::{Cap, Compare, Duplicate, Fault, NoMemory, Row, Sel, Shape, Text, Value};
use std::alloc::Global;

/// What one item of input is read as.
#[derive(Clone, Copy, Debug, PartialEq, Eq)]
pub enum ReadKind {
    Int,
    Bool,
    Char,
    Str,
}

impl Compare for ReadKind {
    fn same(&self, other: &Self) -> bool {
        *self == *other
    }
}

/// What a process asks of the machine: the one thing that it can't do by itself next.
#[derive(Debug, Drop)]
pub enum Request {
    /// To make the variable `var` of a block, with the default of `shape`.
    Declare {
        block: u32,
        var: u32,
        shape: Shape,
    },
    /// For the value at `path` in a variable of a block.
    Load {
        block: u32,
        var: u32,
        path: Row<Sel>,
    },
    /// To put a value at `path` in a variable of a block.
    Store {
        block: u32,
        var: u32,
        path: Row<Sel>,
        value: Value,
    },
    /// To invoke an operation. Where it `wants`, the reply is for the process that asks.
    Invoke {
        target: Cap,
        args: Row<Value>,
        wants: bool,
    },
    /// To choose an invocation at the `in` statement numbered `site`. `env` has the local values that the
    /// guards of the site name.
    Select {
        site: u32,
        env: Row<Value>,
    },
    /// For the earliest reply to one of these invocations.
    Take {
        ids: SharedNumbers,
    },
    /// To answer the invocation that the process holds as `held`, whose caller is `back`, or nobody where
    /// `back` is 0.
    Reply {
        held: u32,
        back: u32,
        results: Row<Value>,
    },
    /// To hand the duty to answer the invocation `held` to a new invocation.
    Forward {
        held: u32,
        back: u32,
        target: Cap,
        args: Row<Value>,
    },
    /// For the number of pending invocations of an operation.
    Count {
        op: u32,
    },
    /// To write these bytes.
    Write {
        bytes: Text,
    },
    /// To read one item of input.
    Read {
        kind: ReadKind,
    },
    /// To have an instance of a global on a machine, whose initial code has ended or replied.
    EnsureGlobal {
        global: u32,
        vm: Cap,
    },
    /// To make an instance of a resource on a machine.
    Create {
        resource: u32,
        args: Row<Value>,
        vm: Cap,
    },
    /// To make a machine.
    MakeVm,
    /// To end an instance.
    Destroy {
        target: Cap,
    },
    /// To end, with the results for the caller `back` where the invocation hasn't been `answered`.
    Finish {
        answered: bool,
        back: u32,
        results: Row<Value>,
    },
    /// To stop the run with a status.
    Stop {
        status: i32,
    },
    /// To end the run with a fault.
    Fail {
        fault: Fault,
    },
    /// For the machine's moment, in milliseconds.
    Age,
    /// To wait until the machine's moment is `until`.
    Wake {
        until: u32,
    },
}

impl Duplicate for Request {
    fn copy(&self, alloc: Global) -> Result<Request, NoMemory> {
        match self {
            Request::Declare { block, var, shape } => Ok(Request::Declare {
                block: *block,
                var: *var,
                shape: shape.copy(alloc)?,
            }),
            Request::Load { block, var, path } => Ok(Request::Load {
                block: *block,
                var: *var,
                path: path.copy(alloc)?,
            }),
            Request::Store {
                block,
                var,
                path,
                value,
            } => copied_store(alloc, *block, *var, path, value),
            Request::Invoke {
                target,
                args,
                wants,
            } => Ok(Request::Invoke {
                target: *target,
                args: args.copy(alloc)?,
                wants: *wants,
            }),
            Request::Select { site, env } => Ok(Request::Select {
                site: *site,
                env: env.copy(alloc)?,
            }),
            Request::Take { ids } => Ok(Request::Take {
                ids: ids.copy(alloc)?,
            }),
            Request::Reply {
                held,
                back,
                results,
            } => Ok(Request::Reply {
                held: *held,
                back: *back,
                results: results.copy(alloc)?,
            }),
            Request::Forward {
                held,
                back,
                target,
                args,
            } => Ok(Request::Forward {
                held: *held,
                back: *back,
                target: *target,
                args: args.copy(alloc)?,
            }),
            Request::Count { op } => Ok(Request::Count { op: *op }),
            Request::Write { bytes } => Ok(Request::Write {
                bytes: bytes.copy(alloc)?,
            }),
            Request::Read { kind } => Ok(Request::Read { kind: *kind }),
            Request::EnsureGlobal { global, vm } => Ok(Request::EnsureGlobal {
                global: *global,
                vm: *vm,
            }),
            Request::Create { resource, args, vm } => Ok(Request::Create {
                resource: *resource,
                args: args.copy(alloc)?,
                vm: *vm,
            }),
            Request::MakeVm => Ok(Request::MakeVm),
            Request::Destroy { target } => Ok(Request::Destroy { target: *target }),
            Request::Finish {
                answered,
                back,
                results,
            } => Ok(Request::Finish {
                answered: *answered,
                back: *back,
                results: results.copy(alloc)?,
            }),
            Request::Stop { status } => Ok(Request::Stop { status: *status }),
            Request::Fail { fault } => Ok(Request::Fail { fault: *fault }),
            Request::Age => Ok(Request::Age),
            Request::Wake { until } => Ok(Request::Wake { until: *until }),
        }
    }
}

fn copied_store(
    alloc: Global,
    block: u32,
    var: u32,
    path: &Row<Sel>,
    value: &Value,
) -> Result<Request, NoMemory>
    ensures { IfOk result (λ c. c ≡ Request.Store block var path.now value.now) }
{
    Ok(Request::Store {
        block,
        var,
        path: path.copy(alloc)?,
        value: value.copy(alloc)?,
    })
}

impl Compare for Request {
    fn same(&self, other: &Self) -> bool {
        match self {
            Request::Declare { block, var, shape } => match other {
                Request::Declare {
                    block: their_block,
                    var: their_var,
                    shape: their_shape,
                } => *block == *their_block && *var == *their_var && shape.same(their_shape),
                _ => false,
            },
            Request::Load { block, var, path } => match other {
                Request::Load {
                    block: their_block,
                    var: their_var,
                    path: their_path,
                } => *block == *their_block && *var == *their_var && path.same(their_path),
                _ => false,
            },
            Request::Store {
                block,
                var,
                path,
                value,
            } => match other {
                Request::Store {
                    block: their_block,
                    var: their_var,
                    path: their_path,
                    value: their_value,
                } => {
                    *block == *their_block
                        && *var == *their_var
                        && path.same(their_path)
                        && value.same(their_value)
                }
                _ => false,
            },
            Request::Invoke {
                target,
                args,
                wants,
            } => match other {
                Request::Invoke {
                    target: their_target,
                    args: their_args,
                    wants: their_wants,
                } => target.same(their_target) && args.same(their_args) && *wants == *their_wants,
                _ => false,
            },
            Request::Select { site, env } => match other {
                Request::Select {
                    site: their_site,
                    env: their_env,
                } => *site == *their_site && env.same(their_env),
                _ => false,
            },
            Request::Take { ids } => match other {
                Request::Take { ids: their_ids } => ids.same(their_ids),
                _ => false,
            },
            Request::Reply {
                held,
                back,
                results,
            } => match other {
                Request::Reply {
                    held: their_held,
                    back: their_back,
                    results: their_results,
                } => *held == *their_held && *back == *their_back && results.same(their_results),
                _ => false,
            },
            Request::Forward {
                held,
                back,
                target,
                args,
            } => match other {
                Request::Forward {
                    held: their_held,
                    back: their_back,
                    target: their_target,
                    args: their_args,
                } => {
                    *held == *their_held
                        && *back == *their_back
                        && target.same(their_target)
                        && args.same(their_args)
                }
                _ => false,
            },
            Request::Count { op } => match other {
                Request::Count { op: their_op } => *op == *their_op,
                _ => false,
            },
            Request::Write { bytes } => match other {
                Request::Write { bytes: their_bytes } => bytes.same(their_bytes),
                _ => false,
            },
            Request::Read { kind } => match other {
                Request::Read { kind: their_kind } => *kind == *their_kind,
                _ => false,
            },
            Request::EnsureGlobal { global, vm } => match other {
                Request::EnsureGlobal {
                    global: their_global,
                    vm: their_vm,
                } => *global == *their_global && vm.same(their_vm),
                _ => false,
            },
            Request::Create { resource, args, vm } => match other {
                Request::Create {
                    resource: their_resource,
                    args: their_args,
                    vm: their_vm,
                } => *resource == *their_resource && args.same(their_args) && vm.same(their_vm),
                _ => false,
            },
            Request::MakeVm => matches!(other, Request::MakeVm),
            Request::Destroy { target } => match other {
                Request::Destroy {
                    target: their_target,
                } => target.same(their_target),
                _ => false,
            },
            Request::Finish {
                answered,
                back,
                results,
            } => match other {
                Request::Finish {
                    answered: their_answered,
                    back: their_back,
                    results: their_results,
                } => {
                    *answered == *their_answered
                        && *back == *their_back
                        && results.same(their_results)
                }
                _ => false,
            },
            Request::Stop { status } => match other {
                Request::Stop {
                    status: their_status,
                } => *status == *their_status,
                _ => false,
            },
            Request::Fail { fault } => match other {
                Request::Fail { fault: their_fault } => *fault == *their_fault,
                _ => false,
            },
            Request::Age => matches!(other, Request::Age),
            Request::Wake { until } => match other {
                Request::Wake { until: their_until } => *until == *their_until,
                _ => false,
            },
        }
    }
}
