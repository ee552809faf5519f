ghost use Rattle.sr_world.specs.Laws.{AnsweredOnce, ClassesAreSeparate, EachStandsOnce, EveryHistoryIsLegal, EveryStateIsSound, ItemsGiveTheRun, ItemsKeepSoundness, NumbersAreUsedOnce, OneClassDecides, OutputGrows, PrefixIsARun, RepliesGoToCallers, RestIsNeverRefused, RunGoesOn, RunsLeadToValidStates, ServicedOnce};

/// A run's prefix is a run, and the rest of a run goes on where the prefix led.
pub fn prefixes_are_runs()
    ensures prefix { PrefixIsARun }
    ensures rest { RunGoesOn }
{}

/// Output only grows.
pub fn output_only_grows()
    ensures { OutputGrows }
{}

/// Every state that a run leads to is valid.
pub fn runs_lead_to_valid_states()
    ensures { RunsLeadToValidStates }
{}

/// Each item keeps what every state keeps.
pub fn items_keep_soundness()
    ensures { ItemsKeepSoundness }
{}

/// What every valid state keeps.
pub fn every_state_is_sound()
    ensures { EveryStateIsSound }
{}

/// A number is given out once, and before anything is done under it.
pub fn numbers_are_used_once()
    ensures { NumbersAreUsedOnce }
{}

/// Each duty, each invocation and each service stands in at most one place.
pub fn each_stands_once()
    ensures { EachStandsOnce }
{}

/// An invocation is serviced at most once.
pub fn invocations_are_serviced_once()
    ensures { ServicedOnce }
{}

/// A call gets at most one reply, and it goes to the process that made the call.
pub fn calls_are_answered_once()
    ensures { AnsweredOnce }
{}

/// A reply goes to the process that made the call, under the number that the call got.
pub fn replies_go_to_callers()
    ensures { RepliesGoToCallers }
{}

/// Every class history of a run is legal.
pub fn histories_are_legal()
    ensures { EveryHistoryIsLegal }
{}

/// The items give the run, in whatever pieces the input came.
pub fn items_give_the_run()
    ensures { ItemsGiveTheRun }
{}

/// A choice doesn't depend on what waits in other classes.
pub fn classes_are_separate()
    ensures { ClassesAreSeparate }
{}

/// A choice doesn't depend on what a world holds of other classes.
pub fn one_class_decides()
    ensures { OneClassDecides }
{}

/// Where no process can step, main's final code begins or the run ends.
pub fn rest_is_never_refused()
    ensures { RestIsNeverRefused }
{}
