ghost use Rattle.std.specs.Prelude.{◌≡◌, ◌+◌, ◌<◌, ◌⊎◌, ℕ, List, IfOk, MatchBool, OnOk, false, length, true};
ghost use Rattle.sr_ask.specs.declared.answer.Answer as answers;
ghost use Rattle.sr_ask.specs.declared.ask.Asks as asking;
ghost use Rattle.sr_worker.specs.Notes.{is_spent};

use crate::desk::Desk;
use crate::notes::Notes;
use crate::player::Player;
use sr_actor::Actor;
use sr_core::Classes;
use sr_ports::Gate;
use sr_value::{NoMemory, Row};
use std::thread;

/// How often those are asked again whose desk was busy.
const TRIES: u32 = 16;

/// A worker at work: its notes, and the processes that it runs.
#[derive(Drop)]
pub struct Hand<A> {
    pub notes: Notes,
    pub players: Row<Player<A>>,
}

impl<A: Actor> Hand<A> {
    ghost use Rattle.sr_worker.specs.Hands.{Adds, AreApart, ArePassedOver, IsNext, IsPlaying, PassesOver, Turns, Works, processes_of};

    /// Asks its processes in turn until each was declined, with no step between, or until it has no more room. A process that
    /// is over its ticks is passed over. One whose desk is busy is asked again after the others, and counts as declined only
    /// after 16 further tries. After an error the hand is of no use.
    pub fn run<D: Desk, G: Gate>(
        &mut self,
        program: &A::Program,
        classes: &Classes,
        desk: &D,
        seat: &mut D::Seat,
        gate: &G,
    ) -> Result<(), NoMemory>
        requires serves { D.serves desk.now (A.core_of program.now) classes.now }
        requires rests { D.rests desk.now seat.old }
        requires apart { AreApart (processes_of self.old.players) }
        ensures rests { D.rests desk.now seat.new }
        ensures made { D.made desk.now seat.old ≡ self.old.notes.entries → D.made desk.now seat.new ≡ self.new.notes.entries }
        ensures adds { OnOk result (Adds (processes_of self.old.players) self.old.notes self.new.notes) }
        ensures players { OnOk result (processes_of self.new.players ≡ processes_of self.old.players) }
        ensures playing { OnOk result ((plays : ℕ → List answers.Answer → asking.Asks) → IsPlaying plays (A.asks_after program.now) self.old → IsPlaying plays (A.asks_after program.now) self.new) }
        ensures idle { OnOk result ((is_spent self.new.notes ≡ true) ⊎ ArePassedOver (A.asks_after program.now) (D.declines desk.now) seat.new self.new.players) }
        ensures none { OnOk result (self.new.notes.entries ≡ self.old.notes.entries → is_spent self.old.notes ≡ false → ArePassedOver (A.asks_after program.now) (D.declines desk.now) seat.new self.old.players) }
    {
        self.work(program, classes, desk, seat, gate)
    }

    /// The same, as one fact on the whole hand.
    fn work<D: Desk, G: Gate>(
        &mut self,
        program: &A::Program,
        classes: &Classes,
        desk: &D,
        seat: &mut D::Seat,
        gate: &G,
    ) -> Result<(), NoMemory>
        requires serves { D.serves desk.now (A.core_of program.now) classes.now }
        requires rests { D.rests desk.now seat.old }
        ensures rests { D.rests desk.now seat.new }
        ensures made { D.made desk.now seat.old ≡ self.old.notes.entries → D.made desk.now seat.new ≡ self.new.notes.entries }
        ensures works { OnOk result (Works (A.asks_after program.now) self.old self.new) }
        ensures idle { OnOk result ((is_spent self.new.notes ≡ true) ⊎ ArePassedOver (A.asks_after program.now) (D.declines desk.now) seat.new self.new.players) }
    {
        loop {
            self.go_round(program, classes, desk, seat, gate)?;
            let went = self.retry(program, classes, desk, seat, gate)?;
            if !went {
                return Ok(());
            }
        }
    }

    /// Asks all in turn until each was declined, with no step between, or until there is no more room.
    fn go_round<D: Desk, G: Gate>(
        &mut self,
        program: &A::Program,
        classes: &Classes,
        desk: &D,
        seat: &mut D::Seat,
        gate: &G,
    ) -> Result<(), NoMemory>
        requires serves { D.serves desk.now (A.core_of program.now) classes.now }
        requires rests { D.rests desk.now seat.old }
        ensures rests { D.rests desk.now seat.new }
        ensures made { D.made desk.now seat.old ≡ self.old.notes.entries → D.made desk.now seat.new ≡ self.new.notes.entries }
        ensures works { OnOk result (Works (A.asks_after program.now) self.old self.new) }
        ensures idle { OnOk result ((is_spent self.new.notes ≡ true) ⊎ ArePassedOver (A.asks_after program.now) (D.declines desk.now) seat.new self.new.players) }
    {
        let mut place = 0;
        let mut idle = 0;
        while idle < self.players.len() && !self.notes.is_spent() {
            let waiting = self.turn(place, idle + 1, program, classes, desk, seat, gate)?;
            idle = waiting;
            place = self.after(place);
        }
        Ok(())
    }

    /// Asks the process at a place, and says how many made no step since the last one that did: `further` where this one makes
    /// none.
    fn turn<D: Desk, G: Gate>(
        &mut self,
        place: usize,
        further: usize,
        program: &A::Program,
        classes: &Classes,
        desk: &D,
        seat: &mut D::Seat,
        gate: &G,
    ) -> Result<usize, NoMemory>
        requires within { place < length self.old.players }
        requires serves { D.serves desk.now (A.core_of program.now) classes.now }
        requires rests { D.rests desk.now seat.old }
        requires room { is_spent self.old.notes ≡ false }
        ensures rests { D.rests desk.now seat.new }
        ensures made { D.made desk.now seat.old ≡ self.old.notes.entries → D.made desk.now seat.new ≡ self.new.notes.entries }
        ensures works { OnOk result (Works (A.asks_after program.now) self.old self.new) }
        ensures turn { IfOk result (λ waiting. Turns (A.asks_after program.now) (D.declines desk.now) place further waiting self.old self.new seat.old seat.new) }
    {
        let went = self.ask(place, program, classes, desk, seat, gate)?;
        if went {
            return Ok(0);
        }
        Ok(further)
    }

    /// The place after this one, or the first after the last.
    fn after(&self, place: usize) -> usize
        requires { place < length self.now.players }
        ensures within { result < length self.now.players }
        ensures next { IsNext (length self.now.players) place result }
    {
        if place < self.players.len() - 1 {
            place + 1
        } else {
            0
        }
    }

    /// Asks those again whose desk was busy, and lets other threads go on before each try. Says whether one made a step.
    fn retry<D: Desk, G: Gate>(
        &mut self,
        program: &A::Program,
        classes: &Classes,
        desk: &D,
        seat: &mut D::Seat,
        gate: &G,
    ) -> Result<bool, NoMemory>
        requires serves { D.serves desk.now (A.core_of program.now) classes.now }
        requires rests { D.rests desk.now seat.old }
        requires idle { (is_spent self.old.notes ≡ true) ⊎ ArePassedOver (A.asks_after program.now) (D.declines desk.now) seat.old self.old.players }
        ensures rests { D.rests desk.now seat.new }
        ensures made { D.made desk.now seat.old ≡ self.old.notes.entries → D.made desk.now seat.new ≡ self.new.notes.entries }
        ensures works { OnOk result (Works (A.asks_after program.now) self.old self.new) }
        ensures step { IfOk result (λ went. MatchBool went (length self.old.notes.entries < length self.new.notes.entries) ((is_spent self.new.notes ≡ true) ⊎ ArePassedOver (A.asks_after program.now) (D.declines desk.now) seat.new self.new.players)) }
    {
        for _ in 0..TRIES {
            if self.notes.is_spent() {
                return Ok(false);
            }
            if !self.is_any_busy() {
                return Ok(false);
            }
            thread::yield_now();
            let went = self.ask_busy(program, classes, desk, seat, gate)?;
            if went {
                return Ok(true);
            }
        }
        Ok(false)
    }

    fn is_any_busy(&self) -> bool {
        self.players.as_slice().iter().any(|player| player.busy)
    }

    fn is_busy(&self, place: usize) -> bool {
        match self.players.get(place) {
            Some(player) => player.busy,
            None => false,
        }
    }

    /// Asks those once whose desk was busy, up to the first that makes a step. Says whether one did.
    fn ask_busy<D: Desk, G: Gate>(
        &mut self,
        program: &A::Program,
        classes: &Classes,
        desk: &D,
        seat: &mut D::Seat,
        gate: &G,
    ) -> Result<bool, NoMemory>
        requires serves { D.serves desk.now (A.core_of program.now) classes.now }
        requires rests { D.rests desk.now seat.old }
        requires room { is_spent self.old.notes ≡ false }
        requires idle { ArePassedOver (A.asks_after program.now) (D.declines desk.now) seat.old self.old.players }
        ensures rests { D.rests desk.now seat.new }
        ensures made { D.made desk.now seat.old ≡ self.old.notes.entries → D.made desk.now seat.new ≡ self.new.notes.entries }
        ensures works { OnOk result (Works (A.asks_after program.now) self.old self.new) }
        ensures step { IfOk result (λ went. MatchBool went (length self.old.notes.entries < length self.new.notes.entries) (ArePassedOver (A.asks_after program.now) (D.declines desk.now) seat.new self.new.players)) }
    {
        for place in 0..self.players.len() {
            let went = self.ask_if_busy(place, program, classes, desk, seat, gate)?;
            if went {
                return Ok(true);
            }
        }
        Ok(false)
    }

    /// Asks the process at a place where its desk was busy. Says whether it made a step.
    fn ask_if_busy<D: Desk, G: Gate>(
        &mut self,
        place: usize,
        program: &A::Program,
        classes: &Classes,
        desk: &D,
        seat: &mut D::Seat,
        gate: &G,
    ) -> Result<bool, NoMemory>
        requires within { place < length self.old.players }
        requires serves { D.serves desk.now (A.core_of program.now) classes.now }
        requires rests { D.rests desk.now seat.old }
        requires room { is_spent self.old.notes ≡ false }
        requires idle { ArePassedOver (A.asks_after program.now) (D.declines desk.now) seat.old self.old.players }
        ensures rests { D.rests desk.now seat.new }
        ensures made { D.made desk.now seat.old ≡ self.old.notes.entries → D.made desk.now seat.new ≡ self.new.notes.entries }
        ensures works { OnOk result (Works (A.asks_after program.now) self.old self.new) }
        ensures turn { IfOk result (λ went. MatchBool went (length self.new.notes.entries ≡ length self.old.notes.entries + 1) (PassesOver (A.asks_after program.now) (D.declines desk.now) place self.old self.new seat.old seat.new)) }
    {
        if !self.is_busy(place) {
            return Ok(false);
        }
        self.ask(place, program, classes, desk, seat, gate)
    }

    /// Asks the process at a place. Says whether it made a step.
    fn ask<D: Desk, G: Gate>(
        &mut self,
        place: usize,
        program: &A::Program,
        classes: &Classes,
        desk: &D,
        seat: &mut D::Seat,
        gate: &G,
    ) -> Result<bool, NoMemory>
        requires within { place < length self.old.players }
        requires serves { D.serves desk.now (A.core_of program.now) classes.now }
        requires rests { D.rests desk.now seat.old }
        requires room { is_spent self.old.notes ≡ false }
        ensures rests { D.rests desk.now seat.new }
        ensures made { D.made desk.now seat.old ≡ self.old.notes.entries → D.made desk.now seat.new ≡ self.new.notes.entries }
        ensures works { OnOk result (Works (A.asks_after program.now) self.old self.new) }
        ensures turn { IfOk result (λ went. MatchBool went (length self.new.notes.entries ≡ length self.old.notes.entries + 1) (PassesOver (A.asks_after program.now) (D.declines desk.now) place self.old self.new seat.old seat.new)) }
    {
        let player = self.players.at_mut(place);
        player.ask(&mut self.notes, program, classes, desk, seat, gate)
    }
}
