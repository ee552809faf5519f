use crate::changes::{of_any_form, with_another_number};
use crate::kept::Kept;
use crate::picks::Picks;
use crate::replies::Reply;
use crate::values::some_arguments;
use sr_ask::{Answer, ReadKind, Request, SharedNumbers};
use sr_core::{Core, Site};
use sr_value::{NoMemory, Row, Text, Value};
use std::alloc::Global;

/// The first number that is given to what is made.
const FIRST: u32 = 100;

/// Whether all answers are those that a machine may give.
#[derive(Clone, Copy)]
pub enum Manner {
    Right,
    /// Some are of another form, or have another number.
    Mixed,
}

/// An invocation whose reply may be taken.
#[derive(Clone, Copy)]
struct Sent {
    id: u32,
    reply: Reply,
}

/// Makes the answers of a list.
#[derive(Drop)]
pub struct Answerer {
    alloc: Global,
    manner: Manner,
    picks: Picks,
    kept: Kept,
    sent: Row<Sent>,
    unused: u32,
}

impl Answerer {
    pub fn new(alloc: Global, seed: u32, manner: Manner) -> Answerer {
        Answerer {
            alloc,
            manner,
            picks: Picks::of(seed),
            kept: Kept::new(alloc),
            sent: Row::new(alloc),
            unused: FIRST,
        }
    }

    /// An answer to a request.
    pub fn answer(&mut self, core: &Core, request: &Request) -> Result<Answer, NoMemory> {
        let right = self.right(core, request)?;
        Ok(self.changed(right))
    }

    /// One answer of eight is of any form, and one has another number, where not all are right.
    fn changed(&mut self, right: Answer) -> Answer {
        match self.manner {
            Manner::Right => right,
            Manner::Mixed => match self.picks.below(8) {
                0 => of_any_form(self.alloc, &mut self.picks),
                1 => with_another_number(right, &mut self.picks),
                _ => right,
            },
        }
    }

    /// An answer that a machine may give.
    fn right(&mut self, core: &Core, request: &Request) -> Result<Answer, NoMemory> {
        match request {
            Request::Select { site, env: _ } => self.chosen(core.sites.get(*site as usize)),
            Request::Take { ids } => self.taken(core, ids),
            Request::Count { op: _ } => Ok(Answer::Number(self.picks.int_below(3))),
            Request::Read { kind } => self.read(*kind),
            Request::Age => Ok(Answer::Number(self.picks.int_below(100))),
            Request::EnsureGlobal { global: _, vm: _ } if self.picks.below(2) == 0 => {
                Ok(Answer::Ready)
            }
            _ => self.right_of_others(request),
        }
    }

    /// Of requests that make something or are about variables, this one.
    fn right_of_others(&mut self, request: &Request) -> Result<Answer, NoMemory> {
        match request {
            Request::Invoke {
                target,
                args: _,
                wants: _,
            } => self.made(Reply::of(*target)),
            Request::Create {
                resource: _,
                args: _,
                vm: _,
            } => self.made(Reply::Instance(self.unused)),
            Request::Forward {
                held: _,
                back: _,
                target: _,
                args: _,
            }
            | Request::EnsureGlobal { global: _, vm: _ }
            | Request::Destroy { target: _ }
            | Request::MakeVm => self.made(Reply::Empty),
            _ => self.right_of_variables(request),
        }
    }

    fn right_of_variables(&mut self, request: &Request) -> Result<Answer, NoMemory> {
        match request {
            Request::Declare { block, var, shape } => {
                self.kept.declare(self.alloc, *block, *var, shape)?
            }
            Request::Load { block, var, path } => {
                let value = self.kept.load(self.alloc, *block, *var, path.as_slice())?;
                return Ok(Answer::Got(value));
            }
            Request::Store {
                block,
                var,
                path,
                value,
            } => self
                .kept
                .store(self.alloc, *block, *var, path.as_slice(), value)?,
            _ => {}
        }
        Ok(Answer::Done)
    }

    /// The number of what is made, whose reply holds this.
    fn made(&mut self, reply: Reply) -> Result<Answer, NoMemory> {
        let id = self.unused;
        self.unused = id.saturating_add(1);
        self.sent.push(Sent { id, reply })?;
        Ok(Answer::Made(id))
    }

    /// An arm with its arguments, or now and then `else`.
    fn chosen(&mut self, site: Option<&Site>) -> Result<Answer, NoMemory> {
        let Some(site) = site else {
            return Ok(Answer::Else);
        };
        if site.has_else && self.picks.below(3) == 0 {
            return Ok(Answer::Else);
        }
        self.picked(site)
    }

    fn picked(&mut self, site: &Site) -> Result<Answer, NoMemory> {
        let count = u32::try_from(site.arms.len()).unwrap_or(0);
        let arm = self.picks.below(count);
        let args = match site.arms.get(arm as usize) {
            Some(chosen) => some_arguments(self.alloc, chosen.formals.as_slice(), &mut self.picks)?,
            None => Row::new(self.alloc),
        };
        let id = self.unused;
        self.unused = id.saturating_add(1);
        Ok(Answer::Picked {
            id,
            arm,
            args,
            back: self.picks.below(3),
        })
    }

    /// The reply to one of these invocations.
    fn taken(&mut self, core: &Core, ids: &SharedNumbers) -> Result<Answer, NoMemory> {
        let count = u32::try_from(ids.len()).unwrap_or(0);
        let at = self.picks.below(count);
        let id = ids.get(at as usize).unwrap_or(0);
        let reply = self.reply_to(id);
        let results = reply.results(self.alloc, core, &mut self.picks)?;
        Ok(Answer::Took { id, results })
    }

    fn reply_to(&self, id: u32) -> Reply {
        for sent in self.sent.as_slice() {
            if sent.id == id {
                return sent.reply;
            }
        }
        Reply::Nothing
    }

    /// An item of input, or now and then none.
    fn read(&mut self, kind: ReadKind) -> Result<Answer, NoMemory> {
        match self.picks.below(5) {
            0 => Ok(Answer::Bad),
            1 => Ok(Answer::End),
            _ => Ok(Answer::Got(self.item(kind)?)),
        }
    }

    fn item(&mut self, kind: ReadKind) -> Result<Value, NoMemory> {
        match kind {
            ReadKind::Int => Ok(Value::Int(self.picks.int_below(20))),
            ReadKind::Bool => Ok(Value::Bool(self.picks.below(2) == 1)),
            ReadKind::Char => Ok(Value::Char(b'c')),
            ReadKind::Str => Ok(Value::Str(Text::from_slice(self.alloc, b"word")?)),
        }
    }
}
