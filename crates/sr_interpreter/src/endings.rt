ghost use Rattle.std.specs.Prelude.{◌≡◌};
ghost use Rattle.sr_meaning.specs.Statements.{after_turn, left, served};

use sr_meaning::Ending;

/// After a turn of a loop: `None` where another turn follows, or how the loop ends.
pub fn after_turn(ending: Ending) -> Option<Ending>
    ensures { result ≡ after_turn ending }
{
    match ending {
        Ending::Through => None,
        Ending::Turned => None,
        Ending::Left => Some(Ending::Left),
        Ending::Returned => Some(Ending::Returned),
    }
}

/// `exit` goes no further than the loop that it leaves.
pub fn left(ending: Ending) -> Ending
    ensures { result ≡ left ending }
{
    match ending {
        Ending::Left => Ending::Through,
        _ => ending,
    }
}

/// `return` goes no further than the service that it ends.
pub fn served(ending: Ending) -> Ending
    ensures { result ≡ served ending }
{
    match ending {
        Ending::Returned => Ending::Through,
        _ => ending,
    }
}
