ghost use Rattle.std.specs.Prelude.{◌≡◌};
ghost use Rattle.sr_words.specs.Options as options;

use crate::verb::Verb;

/// An option that takes a number.
#[derive(Clone, Copy)]
pub enum Setting {
    Workers,
    Steps,
    Ticks,
    Upto,
}

/// An option that takes no value.
#[derive(Clone, Copy)]
pub enum Flag {
    Journal,
    Where,
    Picture,
}

/// An option of a command.
#[derive(Clone, Copy)]
pub enum CommandOption {
    /// One that takes a number.
    Number(Setting),
    /// One that takes no value.
    Switch(Flag),
}

/// The options of a command.
pub fn options_of(verb: Verb) -> &'static [CommandOption]
    ensures { result.now ≡ options.options_of verb }
{
    match verb {
        Verb::Run => &[
            CommandOption::Number(Setting::Workers),
            CommandOption::Number(Setting::Steps),
            CommandOption::Number(Setting::Ticks),
            CommandOption::Switch(Flag::Journal),
        ],
        Verb::Check => &[],
        Verb::Classes => &[],
        Verb::Fmt => &[],
        Verb::Gen => &[CommandOption::Number(Setting::Workers)],
        Verb::Replay => &[
            CommandOption::Number(Setting::Upto),
            CommandOption::Switch(Flag::Where),
        ],
        Verb::Races => &[],
        Verb::Trace => &[
            CommandOption::Number(Setting::Upto),
            CommandOption::Switch(Flag::Picture),
        ],
    }
}

/// What stands after the dashes of an option that takes a number.
pub fn setting_name<'a>(setting: Setting) -> &'a str
    ensures { result.now ≡ options.setting_name setting }
{
    match setting {
        Setting::Workers => "workers",
        Setting::Steps => "steps",
        Setting::Ticks => "ticks",
        Setting::Upto => "upto",
    }
}

/// What stands after the dashes of an option that takes no value.
pub fn flag_name<'a>(flag: Flag) -> &'a str
    ensures { result.now ≡ options.flag_name flag }
{
    match flag {
        Flag::Journal => "journal",
        Flag::Where => "where",
        Flag::Picture => "picture",
    }
}

/// What stands after the dashes of an option.
pub fn option_name<'a>(option: CommandOption) -> &'a str
    ensures { result.now ≡ options.option_name option }
{
    match option {
        CommandOption::Number(setting) => setting_name(setting),
        CommandOption::Switch(flag) => flag_name(flag),
    }
}
