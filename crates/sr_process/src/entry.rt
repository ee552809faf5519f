ghost use Rattle.std.specs.Prelude.{◌≡◌, IfOk, option_copied, unwrap_or};
ghost use Rattle.sr_code.specs.Runs.{ends_at, entry_of, first_line, gives_without};
ghost use Rattle.sr_process.specs.Processes.{frame_at, frame_with, line_without};

use sr_ask::{Gives, Own, Role, Service, Start};
use sr_code::{Code, Entry, Operands, Outs, Stack};
use sr_execute::Frame;
use sr_frame::{copied_gives, service_with, undeclared};
use sr_value::{NoMemory, Place, Row};
use std::alloc::Global;

/// Where the code of a role begins, where the program has code for it.
fn entry_found(code: &Code, role: Role, number: u32) -> Option<&Entry>
    ensures { entry_of code.now role number ≡ unwrap_or (option_copied result) (ends_at (line_without code.now role) role) }
{
    match role {
        Role::Boot => Some(&code.boot),
        Role::Initial => code.initial.get(number as usize),
        Role::Proc => code.procs.get(number as usize),
        Role::Final => code.final_code.get(number as usize),
    }
}

fn first_line(entries: &[Entry]) -> Place
    ensures { result ≡ first_line entries.now }
{
    match entries {
        [] => Place { file: 0, line: 1 },
        [entry, ..] => entry.place,
    }
}

/// The line at which a process without code ends.
fn line_without(code: &Code, role: Role) -> Place
    ensures { result ≡ line_without code.now role }
{
    match role {
        Role::Proc => first_line(code.initial.as_slice()),
        _ => Place { file: 0, line: 1 },
    }
}

/// The line at which a process ends.
pub fn entry_place(code: &Code, start: &Start) -> Place
    ensures { result ≡ (entry_of code.now start.now.role start.now.code).place }
{
    match entry_found(code, start.role, start.code) {
        Some(entry) => entry.place,
        None => line_without(code, start.role),
    }
}

/// The address at which a process begins.
pub fn entry_address(code: &Code, start: &Start) -> usize
    ensures { result ≡ (entry_of code.now start.now.role start.now.code).address }
{
    match entry_found(code, start.role, start.code) {
        Some(entry) => entry.address,
        None => 0,
    }
}

fn gives_without(alloc: Global, role: Role) -> Gives
    ensures { result ≡ gives_without role }
{
    match role {
        Role::Initial => Gives::Instance,
        _ => Gives::Values(Row::new(alloc)),
    }
}

/// What a process holds at first, with room for the list of its arguments: most processes need no other list.
pub fn first_frame(alloc: Global, code: &Code, start: &Start, limit: u32) -> Result<Frame, NoMemory>
    ensures { IfOk result (λ frame. frame ≡ frame_at (entry_of code.now start.now.role start.now.code) start.now limit) }
{
    let lists = Row::from_vec(Vec::with_capacity(alloc, 1)?);
    let mut frame = bare_frame(alloc, code, start, limit)?;
    frame.operands.lists = Stack::from_row(lists);
    Ok(frame)
}

fn bare_frame(alloc: Global, code: &Code, start: &Start, limit: u32) -> Result<Frame, NoMemory>
    ensures { IfOk result (λ frame. frame ≡ frame_at (entry_of code.now start.now.role start.now.code) start.now limit) }
{
    match entry_found(code, start.role, start.code) {
        Some(entry) => {
            let own = undeclared(alloc, entry.owns)?;
            let gives = copied_gives(alloc, &entry.gives)?;
            Ok(frame_with(alloc, own, service_with(start, gives), limit))
        }
        None => {
            let service = service_with(start, gives_without(alloc, start.role));
            Ok(frame_with(alloc, Row::new(alloc), service, limit))
        }
    }
}

fn frame_with(alloc: Global, own: Row<Option<Own>>, service: Service, limit: u32) -> Frame
    ensures { result ≡ frame_with own service limit }
{
    Frame {
        operands: Operands::new(alloc),
        ticks: limit,
        own,
        service,
        out: Outs::new(alloc),
    }
}

/// What a process holds that hasn't begun.
pub fn no_frame(alloc: Global) -> Frame {
    Frame {
        operands: Operands::new(alloc),
        ticks: 0,
        own: Row::new(alloc),
        service: Service {
            held: 0,
            back: 0,
            answered: false,
            gives: Gives::Instance,
        },
        out: Outs::new(alloc),
    }
}
