use crate::again::divide_and_join;
use crate::watch::Watch;
use sr_actor::{Actor, Member, begin_once};
use sr_ask::{Asks, Item};
use sr_classes::partition;
use sr_core::{Classes, Core, Me};
use sr_value::NoMemory;
use sr_world::{Acted, World};
use std::alloc::Global;
use std::collections::HashMap;

/// How many statements a process may begin between two answers.
const TICKS: u32 = u32::MAX;

/// The greatest moment.
const LATEST: u32 = 2_147_483_647;

/// A run that is made again from its items.
#[derive(Drop)]
struct Follower<A> {
    alloc: Global,
    classes: Classes,
    world: World,
    crew: HashMap<u32, Member<A>>,
    watch: Watch,
}

/// Whether a program can make these items in this order, and writes this, where its world is divided and joined after each
/// of them. Its first steps have to change no other parts than those that they touch.
pub fn is_same_run<A: Actor>(
    alloc: Global,
    program: &A::Program,
    input: &[u8],
    items: &[Item],
    output: &[u8],
) -> Result<bool, NoMemory> {
    let mut follower = Follower::<A>::begin(alloc, A::core(program))?;
    follower.is_same(program, input, items, output)
}

impl<A: Actor> Follower<A> {
    /// The beginning of a run.
    fn begin(alloc: Global, core: &Core) -> Result<Self, NoMemory> {
        let classes = partition(alloc, core)?;
        let world = World::begin(alloc)?;
        Ok(Follower {
            alloc,
            classes,
            world,
            crew: HashMap::new(alloc),
            watch: Watch::new(alloc),
        })
    }

    /// Whether it can make these items with this input, and writes this.
    fn is_same(
        &mut self,
        program: &A::Program,
        input: &[u8],
        items: &[Item],
        output: &[u8],
    ) -> Result<bool, NoMemory> {
        self.world.give(input)?;
        self.world.end_input();
        let follows = self.follow_all(program, items)?;
        Ok(follows && self.world.output().as_bytes() == output)
    }

    /// Makes items again, and says whether it could.
    fn follow_all(&mut self, program: &A::Program, items: &[Item]) -> Result<bool, NoMemory> {
        for item in items {
            if !self.follow(program, *item)? {
                return Ok(false);
            }
            divide_and_join(self.alloc, &self.classes, &mut self.world)?;
        }
        Ok(true)
    }

    /// Makes one item again, and says whether it could.
    fn follow(&mut self, program: &A::Program, item: Item) -> Result<bool, NoMemory> {
        match item {
            Item::Step { actor, name } => {
                Ok(self.is_begun(actor)? && self.is_made(program, actor, name)?)
            }
            Item::Quiesce { name } => {
                let acted = self.world.quiesce(A::core(program), name)?;
                Ok(is_done(&acted))
            }
            Item::Tick { to } => Ok(self.is_passed(to)),
        }
    }

    /// Has a process begin, where it lives, and says whether it does.
    fn is_begun(&mut self, process: u32) -> Result<bool, NoMemory> {
        match self.world.started(process) {
            Some(start) => {
                begin_once(&mut self.crew, self.alloc, start, TICKS)?;
                Ok(true)
            }
            None => Ok(false),
        }
    }

    /// Has the machine carry out what a process asks, and says whether it could and changed nothing elsewhere.
    fn is_made(&mut self, program: &A::Program, actor: u32, name: u32) -> Result<bool, NoMemory> {
        let Some(member) = self.crew.get_mut(&actor) else {
            return Ok(false);
        };
        member.look(program)?;
        let Asks::Asked(ask) = member.actor.asked() else {
            return Ok(false);
        };
        let me = Me {
            process: actor,
            instance: member.instance,
        };
        let core = A::core(program);
        self.watch
            .begin(core, &self.classes, me, ask, name, &mut self.world)?;
        if !self.world.is_new(name) {
            return Ok(false);
        }
        match self.world.act(core, actor, ask, name)? {
            Acted::Done(answer) => member.answer(answer),
            Acted::Ends(_) => {}
            Acted::Cannot | Acted::Undecided => return Ok(false),
        }
        self.watch.is_same(&self.classes, &mut self.world)
    }

    /// Lets time pass to a later moment.
    fn is_passed(&mut self, to: u32) -> bool {
        let later = self.world.moment() < to && to <= LATEST;
        if later {
            self.world.advance(to);
        }
        later
    }
}

/// Whether a request was carried out, or ended the run.
fn is_done(acted: &Acted) -> bool {
    matches!(acted, Acted::Done(_) | Acted::Ends(_))
}
