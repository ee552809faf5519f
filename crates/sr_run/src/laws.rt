ghost use Rattle.sr_run.specs.OneCause.{OneCause};

/// A law of runs whose input tells its bytes: a run ends for one cause, but for that of memory.
pub fn one_cause()
    ensures { OneCause }
{}
