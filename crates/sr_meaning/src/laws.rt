ghost use Rattle.sr_meaning.specs.Laws.{AsksForGood, CallsInOrder, LeftDecides, OneTurnThenTheLoop, RepliesOnce};
ghost use Rattle.sr_meaning.specs.WholeLaws.{DoIsATurnAndTheDo, LastAskForGood, MoreTicksAskTheSame, NoRoomGained, OverTicksForGood};

/// Whatever it is answered, a process asks the same again after `Finish`, after `Stop` and after `Fail`.
pub fn last_requests_stay()
    ensures { AsksForGood }
{}

/// `and` and `or` don't ask for the right side where the left decides.
pub fn left_side_decides()
    ensures { LeftDecides }
{}

/// Arguments are asked for from left to right, then the invocation, its reply, and the stores in the order of
/// the formals.
pub fn calls_go_in_order()
    ensures { CallsInOrder }
{}

/// A service that is left in any way replies once and no more; after `reply` or `forward` a later end gives
/// nothing.
pub fn services_reply_once()
    ensures { RepliesOnce }
{}

/// A loop is one turn and then the loop.
pub fn loop_is_a_turn_and_the_loop()
    ensures { OneTurnThenTheLoop }
{}

/// A `do` is one turn and then the `do`.
pub fn do_is_a_turn_and_the_do()
    ensures { DoIsATurnAndTheDo }
{}

/// No statement leaves more room for ticks than it had.
pub fn statements_gain_no_room()
    ensures { NoRoomGained }
{}

/// A process that is over its ticks asks nothing more.
pub fn over_ticks_stays()
    ensures { OverTicksForGood }
{}

/// More ticks never change an ask.
pub fn more_ticks_change_no_ask()
    ensures { MoreTicksAskTheSame }
{}

/// A whole process asks the same again after `Finish`, `Stop` and `Fail`.
pub fn last_asks_stay()
    ensures { LastAskForGood }
{}
