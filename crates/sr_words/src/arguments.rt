ghost use Rattle.std.specs.Prelude.{◌≡◌, false, [], IfOk};
ghost use Rattle.clap.specs.Walk.{rule_of};
ghost use Rattle.clap.specs.Simple.{app_of};
ghost use Rattle.sr_words.specs.Arguments as arguments;
ghost use Rattle.sr_words.specs.Options.{options_of};

use crate::options::{CommandOption, option_name, options_of};
use crate::verb::Verb;
use clap::{Arg, ArgAction};
use std::alloc::{AllocError, Global};

/// How the parser takes an option: one with a number has one value, a flag has none, and each stands at most once.
fn action_of(option: CommandOption) -> ArgAction
    ensures { result ≡ arguments.action_of option }
{
    match option {
        CommandOption::Number(_) => ArgAction::Set,
        CommandOption::Switch(_) => ArgAction::SetTrue,
    }
}

/// An option, as the parser is given it.
fn option_argument<'a>(alloc: Global, option: CommandOption) -> Arg<'a>
    ensures rule { rule_of result ≡ arguments.option_argument option }
    ensures local { result.global ≡ false }
{
    let name = option_name(option);
    Arg::new(alloc, name).long(name).action(action_of(option))
}

/// The words that are no options; options may stand between them.
fn word_argument<'a>(alloc: Global) -> Arg<'a>
    ensures rule { rule_of result ≡ arguments.word_argument }
    ensures local { result.global ≡ false }
{
    Arg::new(alloc, "word").action(ArgAction::Append)
}

/// A parser with no arguments. It answers no call for help.
fn bare_parser<'a>(alloc: Global) -> clap::Command<'a>
    ensures { app_of result ≡ arguments.parser_with [] }
{
    clap::Command::new(alloc, "sr")
        .no_binary_name(true)
        .disable_help_flag(true)
}

/// The parser of the words after the name of a command.
pub fn parser_for<'a>(alloc: Global, verb: Verb) -> Result<clap::Command<'a>, AllocError>
    ensures { IfOk result (λ parser. app_of parser ≡ arguments.parser_for (options_of verb)) }
{
    let mut parser = bare_parser(alloc);
    for option in options_of(verb) {
        parser = parser.arg(option_argument(alloc, *option))?;
    }
    parser.arg(word_argument(alloc))
}
