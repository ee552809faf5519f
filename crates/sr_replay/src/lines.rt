ghost use Rattle.std.specs.Prelude.{◌≡◌, ◌++◌, ◌∷◌, [], OnOk};
ghost use Rattle.std.specs.Fmt.{decimal};
ghost use Rattle.std.specs.Option.{option_copied};
ghost use Rattle.sr_replay.specs.Texts as texts;

use sr_ask::{Asks, Request, Role};
use sr_core::{Core, Operation};
use sr_instances::State;
use sr_value::{Fault, NoMemory, Text};
use std::alloc::Global;

pub(crate) fn state_name(state: State) -> &'static [u8]
    ensures { result.now ≡ texts.state_name state }
{
    match state {
        State::Starting => b"Starting",
        State::Ready => b"Ready",
        State::Closing => b"Closing",
        State::Gone => b"Gone",
    }
}

pub(crate) fn role_name(role: Role) -> &'static [u8]
    ensures { result.now ≡ texts.role_name role }
{
    match role {
        Role::Boot => b"boot",
        Role::Initial => b"initial",
        Role::Proc => b"proc",
        Role::Final => b"final",
    }
}

pub(crate) fn fault_name(fault: Fault) -> &'static [u8]
    ensures { result.now ≡ texts.fault_name fault }
{
    match fault {
        Fault::Overflow => b"E1 Overflow",
        Fault::ZeroDivisor => b"E2 ZeroDivisor",
        Fault::Index => b"E3 Index",
        Fault::Shape => b"E4 Shape",
        Fault::StringLength => b"E5 StringLength",
        Fault::Range => b"E6 Range",
        Fault::NullCap => b"E7 NullCap",
        Fault::Gone => b"E8 Gone",
        Fault::BadStatus => b"E9 BadStatus",
        Fault::TooLarge => b"E10 TooLarge",
        Fault::Early => b"E11 Early",
    }
}

fn request_name(request: &Request) -> &'static [u8]
    ensures { result.now ≡ texts.request_name request.now }
{
    match request {
        Request::Declare { .. } => b"Declare",
        Request::Load { .. } => b"Load",
        Request::Store { .. } => b"Store",
        Request::Invoke { .. } => b"Invoke",
        Request::Select { .. } => b"Select",
        Request::Take { .. } => b"Take",
        Request::Reply { .. } => b"Reply",
        Request::Forward { .. } => b"Forward",
        Request::Count { .. } => b"Count",
        Request::Write { .. } => b"Write",
        Request::Read { .. } => b"Read",
        Request::EnsureGlobal { .. } => b"EnsureGlobal",
        Request::Create { .. } => b"Create",
        Request::MakeVm => b"MakeVm",
        Request::Destroy { .. } => b"Destroy",
        Request::Finish { .. } => b"Finish",
        Request::Stop { .. } => b"Stop",
        Request::Fail { .. } => b"Fail",
        Request::Age => b"Age",
        Request::Wake { .. } => b"Wake",
    }
}

pub(crate) fn asks_name(asks: &Asks) -> &'static [u8]
    ensures { result.now ≡ texts.asks_name asks.now }
{
    match asks {
        Asks::Asked(ask) => request_name(&ask.request),
        Asks::OverTicks => b"OverTicks",
    }
}

pub(crate) fn component_name(core: &Core, component: u32) -> &[u8]
    ensures { result.now ≡ texts.component_name core.now component }
{
    match core.components.get(component as usize) {
        None => b"",
        Some(component) => component.name.as_bytes(),
    }
}

/// Adds a word after a space.
pub(crate) fn push_word(text: &mut Text, word: &[u8]) -> Result<(), NoMemory>
    ensures { OnOk result (text.new ≡ text.old ++ texts.word word.now) }
{
    text.push(b' ')?;
    text.push_all(word)
}

/// Adds a number in decimal after a space.
pub(crate) fn push_number(alloc: Global, text: &mut Text, number: u64) -> Result<(), NoMemory>
    ensures { OnOk result (text.new ≡ text.old ++ texts.word (decimal number)) }
{
    let digits = format!(in alloc; "{number}")?;
    push_word(text, digits.as_bytes())
}

/// Adds the component and the name of an operation after a space.
pub(crate) fn push_operation(
    text: &mut Text,
    core: &Core,
    operation: Option<&Operation>,
) -> Result<(), NoMemory>
    ensures { OnOk result (text.new ≡ text.old ++ texts.word (texts.full_name core.now (option_copied operation.entry))) }
{
    match operation {
        None => text.push(b' '),
        Some(operation) => {
            push_word(text, component_name(core, operation.component))?;
            text.push(b'.')?;
            text.push_all(operation.name.as_bytes())
        }
    }
}
