ghost use Rattle.std.specs.Prelude.{◌≡◌, IfOk, OnErr, OnOk, pos};
ghost use Rattle.sr_ask.specs.declared.answer.Answer.{Answer};
ghost use Rattle.sr_world.specs.Acting.{Acts};
ghost use Rattle.sr_world.specs.Does.{Did};
ghost use Rattle.sr_world.specs.Inputs.{char_read, is_decided as decided, item_read, some_are, token_in, token_read};
ghost use Rattle.sr_world.specs.Steps.{read as read_of, wake as wake_of};
ghost use Rattle.sr_world.specs.Updates.{write as write_of};

use crate::acted::Acted;
use crate::input::Input;
use crate::tokens::token_value;
use crate::world::World;
use sr_ask::{Answer, ReadKind};
use sr_value::{NoMemory, Text, Value};
use std::alloc::Global;

/// Whether the next item doesn't depend on bytes that may still come. It takes a time that doesn't depend on the input.
#[tactic(auto, using(crate::proofs::TokenLemmas::decided_token))]
pub fn is_decided(kind: ReadKind, input: &Input, ended: bool) -> bool
    ensures { result ≡ decided kind input.now ended }
{
    if ended {
        return true;
    }
    match kind {
        ReadKind::Char => has_some(input.rest()),
        _ => input.is_token_whole(),
    }
}

fn has_some(bytes: &[u8]) -> bool
    ensures { result ≡ some_are bytes.now }
{
    match bytes {
        [] => false,
        _ => true,
    }
}

/// Reads an item.
#[tactic(auto, using(crate::proofs::TokenLemmas::item_token))]
fn read_item(alloc: Global, input: &mut Input, kind: ReadKind) -> Result<Answer, NoMemory>
    ensures answer { IfOk result (λ answer. answer ≡ (item_read kind input.old).answer) }
    ensures rest { OnOk result (input.new ≡ (item_read kind input.old).rest) }
    ensures err { OnErr result (input.new ≡ input.old) }
{
    match kind {
        ReadKind::Char => Ok(read_char(input)),
        _ => read_token(alloc, input, kind),
    }
}

fn read_char(input: &mut Input) -> Answer
    ensures answer { result ≡ (char_read input.old).answer }
    ensures rest { input.new ≡ (char_read input.old).rest }
{
    match input.rest() {
        [] => Answer::End,
        [byte, ..] => {
            let byte = *byte;
            input.pass(1);
            Answer::Got(Value::Char(byte))
        }
    }
}

/// Reads a token. One that doesn't fit stays, without the blanks before it.
#[tactic(auto, using(crate::proofs::TokenLemmas::read_end, crate::proofs::TokenLemmas::read_fitting, crate::proofs::TokenLemmas::read_bad))]
fn read_token(alloc: Global, input: &mut Input, kind: ReadKind) -> Result<Answer, NoMemory>
    ensures answer { IfOk result (λ answer. answer ≡ (token_read kind input.old (token_in input.old)).answer) }
    ensures rest { OnOk result (input.new ≡ (token_read kind input.old (token_in input.old)).rest) }
    ensures err { OnErr result (input.new ≡ input.old) }
{
    let blanks = input.blanks();
    let token = input.token();
    let len = token.len();
    if len == 0 {
        input.pass(input.len());
        return Ok(Answer::End);
    }
    let value = token_value(alloc, kind, token)?;
    input.pass(blanks);
    match value {
        Some(value) => {
            input.pass(len);
            Ok(Answer::Got(value))
        }
        None => Ok(Answer::Bad),
    }
}

impl World {
    /// Reads the next item of the input.
    #[inline(never)]
    pub(crate) fn read(&mut self, kind: ReadKind) -> Result<Acted, NoMemory>
        ensures { Acts (read_of kind self.old) self.old self.new result }
    {
        if !is_decided(kind, &self.input, self.ended) {
            return Ok(Acted::Undecided);
        }
        let answer = read_item(self.alloc, &mut self.input, kind)?;
        Ok(Acted::Done(answer))
    }

    /// Writes bytes after all that was written.
    #[inline(never)]
    pub(crate) fn write(&mut self, bytes: &Text) -> Result<Acted, NoMemory>
        ensures { Acts (Did (write_of bytes.now self.old) Answer.Done) self.old self.new result }
    {
        self.output.push_all(bytes.as_bytes())?;
        Ok(Acted::Done(Answer::Done))
    }

    /// Tells the moment. One that doesn't fit an `int` is as if memory ran out.
    #[inline(never)]
    pub(crate) fn age(&mut self) -> Result<Acted, NoMemory>
        ensures { Acts (Did self.old (Answer.Number (pos self.old.moment))) self.old self.new result }
    {
        match i32::try_from(self.moment) {
            Ok(moment) => Ok(Acted::Done(Answer::Number(moment))),
            Err(_) => Err(NoMemory),
        }
    }

    /// Lets a process go on from a moment on.
    #[inline(never)]
    pub(crate) fn wake(&mut self, until: u32) -> Result<Acted, NoMemory>
        ensures { Acts (wake_of until self.old) self.old self.new result }
    {
        if self.moment < until {
            return Ok(Acted::Cannot);
        }
        Ok(Acted::Done(Answer::Done))
    }
}
