ghost use Rattle.std.specs.Prelude.{◌≡◌, IfOk, MatchBool, false};
ghost use Rattle.sr_worker.specs.Notes.{is_spent};

use crate::desk::{Desk, Desked};
use crate::notes::Notes;
use sr_actor::{Actor, Member};
use sr_ask::Asks;
use sr_core::{Classes, Me};
use sr_ports::{Gate, Point};
use sr_value::NoMemory;

/// A process that a worker runs.
#[derive(Drop)]
pub struct Player<A> {
    pub process: u32,
    pub member: Member<A>,
    /// Whether the desk was busy when it asked last.
    pub busy: bool,
}

impl<A: Actor> Player<A> {
    ghost use Rattle.sr_worker.specs.Players.{MakesStep, Waits, me_of};

    pub fn new(process: u32, member: Member<A>) -> Self
        ensures process { result.process ≡ process }
        ensures member { result.member ≡ member }
    {
        Player {
            process,
            member,
            busy: false,
        }
    }

    fn me(&self) -> Me
        ensures { result ≡ me_of self.now }
    {
        Me {
            process: self.process,
            instance: self.member.instance,
        }
    }

    /// Puts to the desk what the process asks, and hands it the answer. Says whether it made a step.
    pub(crate) fn ask<D: Desk, G: Gate>(
        &mut self,
        notes: &mut Notes,
        program: &A::Program,
        classes: &Classes,
        desk: &D,
        seat: &mut D::Seat,
        gate: &G,
    ) -> Result<bool, NoMemory>
        requires serves { D.serves desk.now (A.core_of program.now) classes.now }
        requires rests { D.rests desk.now seat.old }
        requires room { is_spent notes.old ≡ false }
        ensures rests { D.rests desk.now seat.new }
        ensures made { D.made desk.now seat.old ≡ notes.old.entries → D.made desk.now seat.new ≡ notes.new.entries }
        ensures turn { IfOk result (λ went. MatchBool went (MakesStep (A.asks_after program.now) self.old self.new notes.old notes.new) (Waits (A.asks_after program.now) (D.declines desk.now) self.old self.new notes.old notes.new seat.old seat.new)) }
    {
        self.busy = false;
        self.member.look(program)?;
        let me = self.me();
        match self.member.actor.asked() {
            Asks::OverTicks => Ok(false),
            Asks::Asked(ask) => {
                let worker = notes.worker.number;
                gate.pass(worker, Point::BeforeCommit(notes.count() + 1));
                match desk.act(seat, notes, A::core(program), classes, me, ask)? {
                    Desked::Done(answer) => {
                        gate.pass(worker, Point::AfterCommit(notes.count()));
                        self.member.answer(answer);
                        Ok(true)
                    }
                    Desked::Busy { .. } => {
                        self.busy = true;
                        Ok(false)
                    }
                    Desked::Blocked | Desked::Aside | Desked::Spent => Ok(false),
                }
            }
        }
    }
}
