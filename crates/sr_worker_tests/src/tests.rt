ghost use Rattle.std.specs.Prelude.{◌<◌, ◌≤◌, All, IfOk};
ghost use Rattle.sr_worker.specs.Hands.{AreApart, processes_of};

use crate::counting_gate::CountingGate;
use crate::fake_desk::{FakeDesk, FakeSeat};
use crate::script::Script;
use sr_actor::Member;
use sr_ask::{Answer, Ask, Entry, Request, Role};
use sr_core::{Classes, Core};
use sr_hands::work_all;
use sr_ports::FreeGate;
use sr_value::{Cap, Duplicate, NoMemory, Place, Row, Shared, Text, Value};
use sr_worker::{Hand, Job, Notes, Player, Worker, work};
use std::alloc::Global;
use std::thread::Threads;

fn no_core(alloc: Global) -> Core {
    Core {
        components: Row::new(alloc),
        operations: Row::new(alloc),
        procs: Row::new(alloc),
        sites: Row::new(alloc),
        names: Row::new(alloc),
    }
}

fn no_classes(alloc: Global) -> Classes {
    Classes {
        of: Row::new(alloc),
    }
}

/// One of four workers.
fn worker_of(number: u32, room: u32) -> Worker
    requires number { number < 4 }
    requires room { room ≤ 4096 }
{
    Worker {
        number,
        workers: 4,
        base: 0,
        room,
    }
}

/// Players with these scripts, numbered from `first` on.
fn players_of(
    alloc: Global,
    first: u32,
    scripts: &[(u32, u32)],
) -> Result<Row<Player<Script>>, NoMemory>
    ensures { IfOk result (λ players. AreApart (processes_of players)) }
{
    let mut players = Row::new(alloc);
    let mut process = first;
    for script in scripts {
        let member = Member {
            instance: 1,
            actor: Script::new(alloc, script.0, script.1),
        };
        players.push(Player::new(process, member))?;
        if process == u32::MAX {
            return Err(NoMemory);
        }
        process += 1;
    }
    Ok(players)
}

/// A script as many times over.
fn repeated(alloc: Global, script: (u32, u32), count: u32) -> Result<Vec<(u32, u32)>, NoMemory> {
    let mut scripts = Vec::new(alloc);
    for _ in 0..count {
        scripts.push(script)?;
    }
    Ok(scripts)
}

/// Whether these processes made the steps of a hand, in this order.
fn are_makers(hand: &Hand<Script>, makers: &[u32]) -> bool {
    let entries = hand.notes.entries.as_slice();
    entries.len() == makers.len()
        && entries
            .iter()
            .zip(makers)
            .all(|(entry, maker)| entry.get().actor == *maker)
}

/// What comes of a hand.
#[derive(Drop)]
struct Case {
    /// The first variable that each process loads, and the one before which it stops.
    scripts: &'static [(u32, u32)],
    /// The first variable that can't be loaded.
    limit: u32,
    /// How often the desk is busy.
    busy: u32,
    room: u32,
    /// Which processes made the steps.
    makers: &'static [u32],
    /// How often the desk was asked.
    asked: u32,
}

const CASES: [Case; 7] = [
    Case {
        scripts: &[(0, 2), (10, 12), (0, 3)],
        limit: 10,
        busy: 0,
        room: 100,
        makers: &[1, 3, 1, 3, 3],
        asked: 9,
    },
    Case {
        scripts: &[(0, 2), (10, 12), (0, 3)],
        limit: 10,
        busy: 0,
        room: 2,
        makers: &[1, 3],
        asked: 3,
    },
    Case {
        scripts: &[],
        limit: 10,
        busy: 0,
        room: 2,
        makers: &[],
        asked: 0,
    },
    Case {
        scripts: &[(5, 5), (0, 1)],
        limit: 10,
        busy: 5,
        room: 100,
        makers: &[2],
        asked: 6,
    },
    Case {
        scripts: &[(0, 1)],
        limit: 10,
        busy: 16,
        room: 100,
        makers: &[1],
        asked: 17,
    },
    Case {
        scripts: &[(0, 1)],
        limit: 10,
        busy: 17,
        room: 100,
        makers: &[],
        asked: 17,
    },
    Case {
        scripts: &[(0, 3), (0, 1)],
        limit: 10,
        busy: 1,
        room: 100,
        makers: &[2, 1, 1, 1],
        asked: 5,
    },
];

/// Whether a hand does what a case says.
fn holds(alloc: Global, case: &Case) -> Result<bool, NoMemory> {
    let desk = FakeDesk {
        alloc,
        limit: case.limit,
    };
    let mut seat = FakeSeat::new(alloc, case.busy);
    let mut hand = Hand {
        notes: Notes::new(alloc, worker_of(1, case.room.min(4096))),
        players: players_of(alloc, 1, case.scripts)?,
    };
    hand.run(
        &no_core(alloc),
        &no_classes(alloc),
        &desk,
        &mut seat,
        &FreeGate,
    )?;
    Ok(are_makers(&hand, case.makers) && seat.asked == case.asked)
}

/// How many cases hold.
fn count_holding(alloc: Global) -> usize {
    CASES
        .iter()
        .filter(|case| holds(alloc, case).unwrap_or(false))
        .count()
}

#[test]
fn turns_and_tries(rt: HostRuntime) {
    assert_eq!(rt; count_holding(rt.alloc()), CASES.len());
}

/// How many steps 1,000 processes make, two each, beside one that is always declined.
fn thousand(alloc: Global) -> Result<usize, NoMemory> {
    let desk = FakeDesk { alloc, limit: 10 };
    let mut seat = FakeSeat::new(alloc, 0);
    let mut scripts = repeated(alloc, (0, 2), 1000)?;
    scripts.push((10, 12))?;
    let mut hand = Hand {
        notes: Notes::new(alloc, worker_of(0, 4096)),
        players: players_of(alloc, 1, scripts.as_slice())?,
    };
    hand.run(
        &no_core(alloc),
        &no_classes(alloc),
        &desk,
        &mut seat,
        &FreeGate,
    )?;
    Ok(hand.notes.entries.len())
}

#[test]
fn one_declined_among_many(rt: HostRuntime) {
    assert_eq!(rt; thousand(rt.alloc()).unwrap_or(0), 2000);
}

/// The variable that a request loads.
fn loaded(request: &Request) -> Option<u32> {
    match request {
        Request::Load { var, .. } => Some(*var),
        _ => None,
    }
}

/// How many of its requests a process makes that never asks the same twice, each in its place.
fn count_in_place(alloc: Global) -> Result<usize, NoMemory> {
    let desk = FakeDesk { alloc, limit: 1000 };
    let mut seat = FakeSeat::new(alloc, 0);
    let mut hand = Hand {
        notes: Notes::new(alloc, worker_of(0, 4096)),
        players: players_of(alloc, 1, &[(0, 300)])?,
    };
    hand.run(
        &no_core(alloc),
        &no_classes(alloc),
        &desk,
        &mut seat,
        &FreeGate,
    )?;
    Ok(
        hand.notes
            .entries
            .as_slice()
            .iter()
            .zip(0..300)
            .filter(|(entry, var)| loaded(&entry.get().ask.request) == Some(*var))
            .count(),
    )
}

#[test]
fn never_the_same_twice(rt: HostRuntime) {
    assert_eq!(rt; count_in_place(rt.alloc()).unwrap_or(0), 300);
}

/// A worker's job: 50 processes that make four steps each.
fn job_of(alloc: Global, number: u32) -> Result<Job<Script, FakeSeat>, NoMemory>
    requires { number < 4 }
    ensures { IfOk result (λ job. AreApart (processes_of job.hand.players)) }
{
    let scripts = repeated(alloc, (0, 4), 50)?;
    let players = players_of(alloc, 1 + 100 * number, scripts.as_slice())?;
    Ok(Job {
        hand: Hand {
            notes: Notes::new(alloc, worker_of(number, 4096)),
            players,
        },
        seat: FakeSeat::new(alloc, number),
    })
}

/// How many entries of a worker have its number.
fn count_own(job: &Job<Script, FakeSeat>) -> usize {
    let number = job.hand.notes.worker.number;
    job.hand
        .notes
        .entries
        .as_slice()
        .iter()
        .filter(|entry| entry.get().worker == number)
        .count()
}

/// How many entries four workers make, one after another, and how many steps passed the gate.
fn by_four(alloc: Global) -> Result<(usize, u64), NoMemory> {
    let desk = FakeDesk { alloc, limit: 10 };
    let gate = CountingGate::new();
    let core = no_core(alloc);
    let classes = no_classes(alloc);
    let mut entries = 0usize;
    for number in 0..4 {
        let job = job_of(alloc, number)?;
        let done = work::<Script, FakeDesk, CountingGate>(job, &core, &classes, &desk, &gate)?;
        entries = entries.saturating_add(count_own(&done));
    }
    Ok((entries, gate.after()))
}

#[test]
fn four_workers(rt: HostRuntime) {
    assert_eq!(rt; by_four(rt.alloc()).unwrap_or((0, 0)), (800, 800));
}

/// The jobs of four workers.
fn jobs_of(alloc: Global) -> Result<Vec<Job<Script, FakeSeat>>, NoMemory>
    ensures { IfOk result (λ jobs. All (λ job. AreApart (processes_of job.hand.players)) jobs.items) }
{
    let mut jobs = Vec::new(alloc);
    for number in 0..4 {
        jobs.push(job_of(alloc, number)?)?;
    }
    Ok(jobs)
}

/// How many entries four workers make at once, in threads, and how many steps passed the gate.
fn by_four_threads<R: Threads + Sync>(rt: &R, alloc: Global) -> Result<(usize, u64), NoMemory> {
    let desk = FakeDesk { alloc, limit: 10 };
    let gate = CountingGate::new();
    let done = work_all::<R, Script, FakeDesk, CountingGate>(
        rt,
        jobs_of(alloc)?,
        &no_core(alloc),
        &no_classes(alloc),
        &desk,
        &gate,
    )?;
    let mut entries = 0usize;
    for answer in &done {
        if let Ok(job) = answer {
            entries = entries.saturating_add(count_own(job));
        }
    }
    Ok((entries, gate.after()))
}

#[test]
fn four_threads(rt: HostRuntime) {
    assert_eq!(rt;
        by_four_threads(&rt, rt.alloc()).unwrap_or((0, 0)),
        (800, 800)
    );
}

/// A text of 1 MB.
fn long_text(alloc: Global) -> Result<Text, NoMemory> {
    let mut text = Text::new(alloc);
    for _ in 0..1_048_576 {
        text.push(b'a')?;
    }
    Ok(text)
}

/// An entry that holds this text.
fn heavy(alloc: Global, text: &Text) -> Result<Entry, NoMemory> {
    let text = text.copy(alloc)?;
    let mut args = Row::new(alloc);
    args.push(Value::Str(text))?;
    Ok(Entry {
        worker: 0,
        stamp: 1,
        actor: 1,
        instance: 1,
        name: 0,
        ask: Ask {
            place: Place { file: 0, line: 1 },
            role: Role::Proc,
            request: Request::Invoke {
                target: Cap::Null,
                args,
                wants: false,
            },
        },
        answer: Answer::Done,
        duty: 0,
        reads: Row::new(alloc),
    })
}

/// How many entries of 1 MB a worker makes until it has no more room.
fn count_heavy(alloc: Global) -> Result<u32, NoMemory> {
    let text = long_text(alloc)?;
    let mut notes = Notes::new(alloc, worker_of(0, 4096));
    for _ in 0..100 {
        if notes.is_spent() {
            return Ok(notes.count());
        }
        let entry = Shared::new(alloc, heavy(alloc, &text)?)?;
        notes.add(entry)?;
    }
    Ok(notes.count())
}

#[test]
fn heavy_entries(rt: HostRuntime) {
    assert_eq!(rt; count_heavy(rt.alloc()).unwrap_or(0), 32);
}
