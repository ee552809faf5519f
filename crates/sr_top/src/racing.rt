ghost use Rattle.std.specs.Prelude.{◌≡◌, ◌≤◌, ◌++◌, IfErr, IfOk, OnOk, false, flat_map, length};
ghost use Rattle.std.specs.Fmt.{decimal};
ghost use Rattle.sr_races.specs.Races.{is_too_long};
ghost use Rattle.sr_top.specs.Programs.{core_in};
ghost use Rattle.sr_top.specs.Racing as racing;
ghost use Rattle.sr_top.specs.Replaying.{AreRacesOf};
ghost use Rattle.sr_top.specs.Stages.{EndsItems, run_of};
ghost use Rattle.sr_top.specs.declared.question.Question.TheVariants as question;
ghost use Rattle.sr_top.specs.declared.report.Ending.TheVariants as endings;

use crate::diag::{decimal_text, file_name};
use crate::program::{Process, Program};
use crate::recorded::Journal;
use crate::report::{Ending, LimitKind};
use sr_races::{Race, Raced, races};
use sr_value::{NoMemory, Place, Text};
use std::alloc::Global;

/// The lines of the races among the items of a journal that aren't too many.
pub fn text_of_races(
    alloc: Global,
    journal: &Journal,
    program: &Program,
    names: &[Text],
    input: &Text,
) -> Result<Text, Ending>
    requires fits { is_too_long journal.now.items ≡ false }
    ensures lines { IfOk result (AreRacesOf names.now journal.now.header.steps (run_of (core_in program.now) journal.now input.now)) }
    ensures ends { IfErr result (EndsItems question.Races journal.now.header.steps (run_of (core_in program.now) journal.now input.now)) }
{
    let header = &journal.header;
    match races::<Process>(
        alloc,
        program,
        header.steps,
        header.ticks,
        input,
        &journal.items,
    ) {
        Ok(Raced::Found(races)) => lines_of(alloc, names, races.as_slice()),
        Ok(Raced::Illegal { at }) => Err(Ending::Illegal(at)),
        Ok(Raced::TooMany) => Err(Ending::Limit(LimitKind::Races)),
        Ok(Raced::TooLong) => unreachable!(),
        Err(_) => Err(Ending::NoMemory),
    }
}

/// The lines of these races.
fn lines_of(alloc: Global, names: &[Text], races: &[Race]) -> Result<Text, Ending>
    requires few { length races.now ≤ 65536 }
    ensures lines { IfOk result (λ text. text ≡ racing.races_text names.now races.now) }
    ensures ends { IfErr result (λ ending. ending ≡ endings.NoMemory) }
{
    match races_text(alloc, names, races) {
        Ok(text) => Ok(text),
        Err(_) => Err(Ending::NoMemory),
    }
}

/// A line for each race, and at the end how many there are.
fn races_text(alloc: Global, names: &[Text], races: &[Race]) -> Result<Text, NoMemory>
    requires few { length races.now ≤ 65536 }
    ensures { IfOk result (λ text. text ≡ racing.races_text names.now races.now) }
{
    let mut text = Text::new(alloc);
    push_races(alloc, &mut text, names, races)?;
    text.push_all(b"races ")?;
    push_decimal(alloc, &mut text, races.len() as u32)?;
    text.push(b'\n')?;
    Ok(text)
}

/// Adds a line for each race.
fn push_races(
    alloc: Global,
    text: &mut Text,
    names: &[Text],
    races: &[Race],
) -> Result<(), NoMemory>
    ensures { OnOk result (text.new ≡ text.old ++ flat_map (racing.race_line names.now) races.now) }
{
    for race in races {
        push_race(alloc, text, names, race)?;
    }
    Ok(())
}

/// Adds the line of a race.
fn push_race(alloc: Global, text: &mut Text, names: &[Text], race: &Race) -> Result<(), NoMemory>
    ensures { OnOk result (text.new ≡ text.old ++ racing.race_line names.now race.now) }
{
    text.push_all(b"race ")?;
    push_decimal(alloc, text, race.first)?;
    text.push_all(b" ")?;
    push_decimal(alloc, text, race.second)?;
    text.push_all(b" ")?;
    push_place(alloc, text, names, race.one)?;
    text.push_all(b" ")?;
    push_place(alloc, text, names, race.other)?;
    text.push_all(b"\n")
}

/// Adds a file and a line of it.
fn push_place(alloc: Global, text: &mut Text, names: &[Text], place: Place) -> Result<(), NoMemory>
    ensures { OnOk result (text.new ≡ text.old ++ racing.at_place names.now place) }
{
    text.push_all(file_name(names, place.file))?;
    text.push_all(b":")?;
    push_decimal(alloc, text, place.line)
}

/// Adds a number in decimal.
fn push_decimal(alloc: Global, text: &mut Text, number: u32) -> Result<(), NoMemory>
    ensures { OnOk result (text.new ≡ text.old ++ decimal number) }
{
    let digits = decimal_text(alloc, number)?;
    text.push_all(digits.as_bytes())
}
