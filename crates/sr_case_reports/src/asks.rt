//! What a process asks, as text.

use sr_ask::{Ask, ReadKind, Request, Role, SharedNumbers};
use sr_case_values::{print_cap, print_quoted, print_shape, print_value, print_values};
use sr_value::{Cap, Place, Sel, Value};
use std::alloc::AllocError;

/// `boot`, `initial`, `proc` or `final`
pub fn role_text(role: Role) -> &'static str {
    match role {
        Role::Boot => "boot",
        Role::Initial => "initial",
        Role::Proc => "proc",
        Role::Final => "final",
    }
}

fn kind_text(kind: ReadKind) -> &'static str {
    match kind {
        ReadKind::Int => "read int",
        ReadKind::Bool => "read bool",
        ReadKind::Char => "read char",
        ReadKind::Str => "read string",
    }
}

/// `2.0`, `2.0[3]`, `2.0[3, 4]` or `2.0.1`: a variable of a block, with the way to a part of it.
fn print_place(out: &mut String, block: u32, var: u32, path: &[Sel]) -> Result<(), AllocError> {
    write!(out, "{block}.{var}")?;
    for step in path {
        match *step {
            Sel::At(index) => write!(out, "[{index}]")?,
            Sel::At2(first, second) => write!(out, "[{first}, {second}]")?,
            Sel::Field(field) => write!(out, ".{field}")?,
        }
    }
    Ok(())
}

/// `store 2.0 5`
fn print_store(
    out: &mut String,
    block: u32,
    var: u32,
    path: &[Sel],
    value: &Value,
) -> Result<(), AllocError> {
    out.push_str("store ")?;
    print_place(out, block, var, path)?;
    out.push(' ')?;
    print_value(out, value)
}

/// `(3 4)`
fn print_numbers(out: &mut String, numbers: &SharedNumbers) -> Result<(), AllocError> {
    out.push('(')?;
    for at in 0..numbers.len() {
        if at > 0 {
            out.push(' ')?;
        }
        let number = numbers.get(at).unwrap_or(0);
        write!(out, "{number}")?;
    }
    out.push(')')
}

/// `op:0@2 (4)`
fn print_invocation(out: &mut String, target: Cap, args: &[Value]) -> Result<(), AllocError> {
    print_cap(out, target)?;
    out.push(' ')?;
    print_values(out, args)
}

/// `finish for 1 (res:2)`, or `finish answered for 1 (res:2)`
fn print_finish(
    out: &mut String,
    answered: bool,
    back: u32,
    results: &[Value],
) -> Result<(), AllocError> {
    out.push_str(if answered {
        "finish answered"
    } else {
        "finish"
    })?;
    write!(out, " for {back} ")?;
    print_values(out, results)
}

/// Of the requests that are about instances, machines and ends, this one.
fn print_of_instances(out: &mut String, request: &Request) -> Result<(), AllocError> {
    match request {
        Request::EnsureGlobal { global, vm } => {
            write!(out, "global {global} on ")?;
            print_cap(out, *vm)
        }
        Request::Create { resource, args, vm } => {
            write!(out, "create {resource} ")?;
            print_values(out, args.as_slice())?;
            out.push_str(" on ")?;
            print_cap(out, *vm)
        }
        Request::Destroy { target } => {
            out.push_str("destroy ")?;
            print_cap(out, *target)
        }
        Request::Finish {
            answered,
            back,
            results,
        } => print_finish(out, *answered, *back, results.as_slice()),
        Request::Stop { status } => write!(out, "stop {status}"),
        Request::Fail { fault } => write!(out, "fail {fault:?}"),
        Request::Age => out.push_str("age"),
        Request::Wake { until } => write!(out, "wake {until}"),
        _ => out.push_str("machine"),
    }
}

/// Of the requests that are about invocations, this one.
fn print_of_invocations(out: &mut String, request: &Request) -> Result<(), AllocError> {
    match request {
        Request::Invoke {
            target,
            args,
            wants,
        } => {
            out.push_str(if *wants { "call " } else { "send " })?;
            print_invocation(out, *target, args.as_slice())
        }
        Request::Select { site, env } => {
            write!(out, "select {site} ")?;
            print_values(out, env.as_slice())
        }
        Request::Take { ids } => {
            out.push_str("take ")?;
            print_numbers(out, ids)
        }
        Request::Reply {
            held,
            back,
            results,
        } => {
            write!(out, "reply {held} for {back} ")?;
            print_values(out, results.as_slice())
        }
        Request::Forward {
            held,
            back,
            target,
            args,
        } => {
            write!(out, "forward {held} for {back} ")?;
            print_invocation(out, *target, args.as_slice())
        }
        Request::Count { op } => write!(out, "count {op}"),
        _ => print_of_instances(out, request),
    }
}

/// A request.
fn print_request(out: &mut String, request: &Request) -> Result<(), AllocError> {
    match request {
        Request::Declare { block, var, shape } => {
            write!(out, "declare {block}.{var} ")?;
            print_shape(out, shape)
        }
        Request::Load { block, var, path } => {
            out.push_str("load ")?;
            print_place(out, *block, *var, path.as_slice())
        }
        Request::Store {
            block,
            var,
            path,
            value,
        } => print_store(out, *block, *var, path.as_slice(), value),
        Request::Write { bytes } => {
            out.push_str("write ")?;
            print_quoted(out, bytes.as_bytes())
        }
        Request::Read { kind } => out.push_str(kind_text(*kind)),
        _ => print_of_invocations(out, request),
    }
}

/// `2 write "a"`: the line and the request, after the file where it isn't the first, and the role where it isn't the
/// expected one.
pub fn print_ask(out: &mut String, ask: &Ask, role: Role) -> Result<(), AllocError> {
    let Place { file, line } = ask.place;
    if file != 0 {
        write!(out, "file {file} ")?;
    }
    write!(out, "{line} ")?;
    if ask.role != role {
        write!(out, "as {} ", role_text(ask.role))?;
    }
    print_request(out, &ask.request)
}
