ghost use Rattle.std.specs.Prelude.{◌≡◌, ◌<◌, ℕ, All, IfOk, slice_index_or, vec_len};
ghost use Rattle.sr_worker.specs.Hands.{AreApart, processes_of};
ghost use Rattle.sr_worker.specs.Jobs.{DoesJob};

use sr_actor::Actor;
use sr_core::Classes;
use sr_ports::Gate;
use sr_value::NoMemory;
use sr_worker::{Desk, Job, work};
use std::thread;
use std::thread::Threads;

/// All hands do their work at once, each in a thread of its own where one can be made. Each job is answered in its place. Where
/// memory runs out in one, that one is gone.
pub fn work_all<R: Threads + Sync, A: Actor + Send, D: Desk + Sync, G: Gate + Sync>(
    rt: &R,
    jobs: Vec<Job<A, D::Seat>>,
    program: &A::Program,
    classes: &Classes,
    desk: &D,
    gate: &G,
) -> Result<Vec<Result<Job<A, D::Seat>, NoMemory>>, NoMemory>
where
    A::Program: Sync,
    D::Seat: Send,
    requires serves { D.serves desk.now (A.core_of program.now) classes.now }
    requires rests { All (λ job. D.rests desk.now job.seat) jobs.items }
    requires apart { All (λ job. AreApart (processes_of job.hand.players)) jobs.items }
    ensures len { IfOk result (λ done. vec_len done ≡ vec_len jobs) }
    ensures each { IfOk result (λ done. (place : ℕ) (job : _) (other : _) → place < vec_len jobs → IfOk (slice_index_or done.items place other) (DoesJob (A.asks_after program.now) (D.rests desk.now) (D.made desk.now) (D.declines desk.now) (slice_index_or jobs.items place job))) }
{
    let done = thread::map_vec(
        rt,
        jobs,
        &|job: Job<A, D::Seat>| -> Result<Job<A, D::Seat>, NoMemory>
            requires { D.serves desk.now (A.core_of program.now) classes.now × D.rests desk.now job.seat × AreApart (processes_of job.hand.players) }
            ensures { IfOk result (DoesJob (A.asks_after program.entry.now) (D.rests desk.entry.now) (D.made desk.entry.now) (D.declines desk.entry.now) job) }
        { work::<A, D, G>(job, program, classes, desk, gate) },
    )?;
    Ok(done)
}
