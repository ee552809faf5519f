ghost use Rattle.std.specs.Prelude.{IfOk};
ghost use Rattle.sr_worker.specs.Jobs.{DoesJob};
ghost use Rattle.sr_worker.specs.Hands.{AreApart, processes_of};

use crate::desk::Desk;
use crate::hand::Hand;
use sr_actor::Actor;
use sr_core::Classes;
use sr_ports::Gate;
use sr_value::NoMemory;

/// A hand with its seat, as it goes into a thread.
#[derive(Drop)]
pub struct Job<A, S> {
    pub hand: Hand<A>,
    pub seat: S,
}

/// A hand does its work at its seat. This is the job of a thread: it takes what it works on and hands it back. Where memory runs
/// out, both are gone.
pub fn work<A: Actor, D: Desk, G: Gate>(
    job: Job<A, D::Seat>,
    program: &A::Program,
    classes: &Classes,
    desk: &D,
    gate: &G,
) -> Result<Job<A, D::Seat>, NoMemory>
    requires serves { D.serves desk.now (A.core_of program.now) classes.now }
    requires rests { D.rests desk.now job.seat }
    requires apart { AreApart (processes_of job.hand.players) }
    ensures { IfOk result (DoesJob (A.asks_after program.now) (D.rests desk.now) (D.made desk.now) (D.declines desk.now) job) }
{
    let mut job = job;
    job.hand.run(program, classes, desk, &mut job.seat, gate)?;
    Ok(job)
}
