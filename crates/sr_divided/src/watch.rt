//! Whether the first steps of a run change no other parts of its world than those that they touch.

use crate::elsewhere::{Elsewhere, Known};
use sr_ask::{Ask, Request};
use sr_core::{Classes, Core, Me};
use sr_touch::{Parts, touched};
use sr_value::{NoMemory, Row};
use sr_world::World;
use std::alloc::Global;

/// How many steps of a run are looked at.
const MOST_STEPS: u32 = 40;

/// At how many numbers of processes and invocations no more steps are looked at.
const MOST_NUMBERS: usize = 60;

/// A look at the steps of a run.
#[derive(Drop)]
pub struct Watch {
    known: Known,
    steps: u32,
    /// What stood elsewhere before the step that is looked at.
    before: Option<Elsewhere>,
}

impl Watch {
    pub fn new(alloc: Global) -> Self {
        Watch {
            known: Known {
                alloc,
                variables: Row::new(alloc),
                numbers: Row::new(alloc),
            },
            steps: 0,
            before: None,
        }
    }

    /// Looks at a world before a step of this number. A wide step isn't looked at.
    pub fn begin(
        &mut self,
        core: &Core,
        classes: &Classes,
        me: Me,
        ask: &Ask,
        name: u32,
        world: &mut World,
    ) -> Result<(), NoMemory> {
        self.before = None;
        if self.steps >= MOST_STEPS || self.known.numbers.len() >= MOST_NUMBERS {
            return Ok(());
        }
        self.note(me, ask, name)?;
        match touched(core, classes, me, ask, name) {
            Some(parts) => self.begin_narrow(classes, parts, world),
            None => Ok(()),
        }
    }

    /// Notes who makes a step, and what it makes.
    fn note(&mut self, me: Me, ask: &Ask, name: u32) -> Result<(), NoMemory> {
        if let Request::Declare { block, var, .. } = &ask.request {
            self.known.variables.push((*block, *var))?;
        }
        self.note_number(me.process)?;
        self.note_number(name)
    }

    /// Notes a number once; a step that makes nothing has 0.
    fn note_number(&mut self, number: u32) -> Result<(), NoMemory> {
        if number == 0 || self.known.numbers.as_slice().contains(&number) {
            Ok(())
        } else {
            self.known.numbers.push(number)
        }
    }

    fn begin_narrow(
        &mut self,
        classes: &Classes,
        parts: Parts,
        world: &mut World,
    ) -> Result<(), NoMemory> {
        self.steps = self.steps.saturating_add(1);
        let before = self.elsewhere(classes, parts, world)?;
        self.before = Some(before);
        Ok(())
    }

    fn elsewhere(
        &self,
        classes: &Classes,
        parts: Parts,
        world: &mut World,
    ) -> Result<Elsewhere, NoMemory> {
        let mut elsewhere = Elsewhere::new(self.known.alloc, parts);
        elsewhere.note(classes, &self.known, world)?;
        Ok(elsewhere)
    }

    /// Whether a world has the same elsewhere after the step.
    pub fn is_same(&self, classes: &Classes, world: &mut World) -> Result<bool, NoMemory> {
        match &self.before {
            Some(before) => {
                let after = self.elsewhere(classes, before.parts(), world)?;
                Ok(before.is_same(&after))
            }
            None => Ok(true),
        }
    }
}
