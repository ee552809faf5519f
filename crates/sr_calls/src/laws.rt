ghost use Rattle.std.specs.Prelude.{◌≡◌, ◌≢◌, ℕ, IsTrue, List, None, Some};
ghost use Rattle.sr_calls.specs.Calls.{ByProcess, answers_one, earliest_reply, items_of, with_item, with_items};
ghost use Rattle.sr_calls.specs.declared.held.Held.{Held};
ghost use Rattle.sr_calls.specs.declared.held.Reply.{Reply};

/// A law of calls: what a process holds is its own, and changes nothing for another.
pub fn each_holds_its_own()
    ensures itself { (all : ByProcess (List Held)) (process : ℕ) (items : List Held) → items_of (with_items all process items) process ≡ items }
    ensures others { (all : ByProcess (List Held)) (process other : ℕ) (items : List Held) → other ≢ process
        → items_of (with_items all process items) other ≡ items_of all other }
{}

/// A law of calls: the replies to a process are for it, and change nothing for another.
pub fn each_has_its_own_replies()
    ensures itself { (all : ByProcess (List Reply)) (process : ℕ) (items : List Reply) → items_of (with_items all process items) process ≡ items }
    ensures others { (all : ByProcess (List Reply)) (process other : ℕ) (items : List Reply) → other ≢ process
        → items_of (with_items all process items) other ≡ items_of all other }
{}

/// A law of calls: replies are taken in the order in which they were made.
pub fn earlier_reply_goes_first()
    ensures earlier { (all : ByProcess (List Reply)) (caller : ℕ) (ids : List ℕ) (first later : Reply) → earliest_reply all caller ids ≡ Some first
        → earliest_reply (with_item all caller later) caller ids ≡ Some first }
    ensures only { (all : ByProcess (List Reply)) (caller : ℕ) (ids : List ℕ) (reply : Reply) → earliest_reply all caller ids ≡ None → IsTrue (answers_one ids reply)
        → earliest_reply (with_item all caller reply) caller ids ≡ Some reply }
{}
