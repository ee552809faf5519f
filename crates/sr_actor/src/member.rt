ghost use Rattle.std.specs.Prelude.{OnOk};
ghost use Rattle.sr_actor.specs.Crew.{IsFed, IsSame};

use crate::actor::Actor;
use sr_ask::Answer;
use sr_value::NoMemory;

/// A process that has begun.
#[derive(Drop)]
pub struct Member<A> {
    /// The instance whose code it runs.
    pub instance: u32,
    pub actor: A,
}

impl<A: Actor> Member<A> {
    /// Has the process run to what it asks. After an error nothing is known of it.
    pub fn look(&mut self, program: &A::Program) -> Result<(), NoMemory>
        ensures same { OnOk result (IsSame (A.asks_after program.now) self.old self.new) }
        ensures asked { OnOk result (A.can_feed self.new.actor) }
    {
        self.actor.run(program)
    }

    /// Answers the process. It takes no memory.
    pub fn answer(&mut self, answer: Answer)
        ensures { (program : A.Program) → IsFed (A.asks_after program) A.can_feed answer self.old self.new }
    {
        self.actor.feed(answer);
    }
}
