ghost use Rattle.std.specs.Prelude.{◌≡◌, ◌++◌, ◌∷◌, [], IfOk, OnErr, OnOk, false, pos};
ghost use Rattle.sr_ask.specs.declared.answer.Answer.TheVariants.{Got};
ghost use Rattle.sr_value.specs.declared.value.Value.TheVariants.{Int};
ghost use Rattle.sr_worker.specs.Notes.{is_spent};
ghost use Rattle.sr_worker_tests.specs.Desks.{Declines, is_closed};

use sr_ask::{Answer, Ask, Entry, Request};
use sr_core::{Classes, Core, Me};
use sr_value::{Duplicate, NoMemory, Row, Shared, Value};
use sr_worker::{Desk, Desked, Notes};
use std::alloc::Global;

/// A desk at which some variables can be loaded, and nothing else can be done.
#[derive(Drop)]
pub struct FakeDesk {
    pub alloc: Global,
    /// The first variable that can't be loaded.
    pub limit: u32,
}

/// A seat at it.
#[derive(Drop)]
pub struct FakeSeat {
    /// How often the desk still answers that it is busy.
    pub busy: u32,
    /// How often it did.
    pub refused: u32,
    /// How often it was asked.
    pub asked: u32,
    /// The steps that were made.
    pub made: Row<Shared<Entry>>,
}

impl FakeSeat {
    pub fn new(alloc: Global, busy: u32) -> Self {
        FakeSeat {
            busy,
            refused: 0,
            asked: 0,
            made: Row::new(alloc),
        }
    }
}

fn is_closed(limit: u32, request: &Request) -> bool
    ensures { result ≡ is_closed limit request.now }
{
    match request {
        Request::Load { var, .. } => !(*var < limit),
        _ => true,
    }
}

/// A step as it is written down: the answer is always 0.
fn entry_of(alloc: Global, notes: &Notes, me: Me, ask: &Ask) -> Result<Entry, NoMemory>
    ensures worker { IfOk result (λ entry. entry.worker ≡ notes.now.worker.number) }
    ensures actor { IfOk result (λ entry. entry.actor ≡ me.process) }
    ensures instance { IfOk result (λ entry. entry.instance ≡ me.instance) }
    ensures name { IfOk result (λ entry. entry.name ≡ 0) }
    ensures ask { IfOk result (λ entry. entry.ask ≡ ask.now) }
    ensures answer { IfOk result (λ entry. entry.answer ≡ Got (Int (pos 0))) }
{
    let ask = ask.copy(alloc)?;
    Ok(Entry {
        worker: notes.worker.number,
        stamp: u64::from(notes.count()) + 1,
        actor: me.process,
        instance: me.instance,
        name: 0,
        ask,
        answer: Answer::Got(Value::Int(0)),
        duty: 0,
        reads: Row::new(alloc),
    })
}

impl FakeSeat {
    /// Writes a step down, in the notes and here, or nowhere.
    fn make(
        &mut self,
        alloc: Global,
        notes: &mut Notes,
        entry: Shared<Entry>,
    ) -> Result<(), NoMemory>
        requires { is_spent notes.old ≡ false }
        ensures seat { OnOk result (self.new.made ≡ self.old.made ++ entry ∷ []) }
        ensures same { OnOk result (self.new.refused ≡ self.old.refused) }
        ensures entries { OnOk result (notes.new.entries ≡ notes.old.entries ++ entry ∷ []) }
        ensures worker { OnOk result (notes.new.worker ≡ notes.old.worker) }
        ensures seat_err { OnErr result (self.new ≡ self.old) }
        ensures notes_err { OnErr result (notes.new ≡ notes.old) }
    {
        let mut made = self.made.copy(alloc)?;
        made.push(entry.copy(alloc)?)?;
        notes.add(entry)?;
        self.made = made;
        Ok(())
    }
}

impl Desk for FakeDesk {
    type Seat = FakeSeat;

    ghost serves = { λ desk core classes. Unit {0} };

    ghost rests = { λ desk seat. Unit {0} };

    ghost made = { λ desk seat. seat.made };

    ghost declines = { λ desk seat me ask. Declines desk.limit seat.refused ask.request };

    fn act(
        &self,
        seat: &mut FakeSeat,
        notes: &mut Notes,
        _core: &Core,
        _classes: &Classes,
        me: Me,
        ask: &Ask,
    ) -> Result<Desked, NoMemory> {
        seat.asked = seat.asked.saturating_add(1);
        if is_closed(self.limit, &ask.request) {
            return Ok(Desked::Blocked);
        }
        if seat.busy > 0 {
            seat.busy -= 1;
            seat.refused = seat.refused.saturating_add(1);
            return Ok(Desked::Busy { holder: 0 });
        }
        let entry = Shared::new(self.alloc, entry_of(self.alloc, notes, me, ask)?)?;
        seat.make(self.alloc, notes, entry)?;
        Ok(Desked::Done(Answer::Got(Value::Int(0))))
    }
}
