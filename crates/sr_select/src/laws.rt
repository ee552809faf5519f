ghost use Rattle.std.specs.Prelude.{◌≡◌, ℕ, Bool, true, false, List, ◌∷◌, ◌++◌, filter};
ghost use Rattle.std.specs.List.{list_all};
ghost use Rattle.sr_value.specs.declared.value.Value.{Value};
ghost use Rattle.sr_core.specs.declared.owner.Me.{Me};
ghost use Rattle.sr_core.specs.declared.site.Site.{Site};
ghost use Rattle.sr_queue.specs.declared.pending.Pending.{Pending};
ghost use Rattle.sr_select.specs.declared.choice.Choice.TheVariants.{Service};
ghost use Rattle.sr_select.specs.Choices.{choice, choice_seen, otherwise, owner_in};
ghost use Rattle.sr_select.specs.Laws.{Services, chosen_in, is_in_class, is_named, is_plain, oldest};
ghost use Rattle.sr_select.specs.Readings.{Reading};
ghost use Rattle.sr_select.specs.Shown.{EachSeen, IsMade, IsWatched, ShowsAll};
ghost use Rattle.sr_select.specs.Worlds.{SameWatched, Watched, reads_only};

/// A law of choices: where no arm has `and` or `by`, the oldest invocation is serviced.
pub fn oldest_goes_first()
    ensures { (reading : Reading) (site : Site) (me : Me) (env : List Value) (items : List Pending) → list_all is_plain site.arms ≡ true
        → choice reading site me env items ≡ otherwise site.has_else (oldest site me items) }
{}

/// A law of choices: what is serviced is a pending invocation of the statement's owner, of the operation of the arm that
/// services it.
pub fn the_serviced_is_pending()
    ensures { (reading : Reading) (site : Site) (me : Me) (env : List Value) (items : List Pending) (place number : ℕ)
        → choice reading site me env items ≡ Service place number → Services site me items place number }
{}

/// A law of choices: an invocation that no arm names changes nothing.
pub fn others_change_nothing()
    ensures { (reading : Reading) (site : Site) (me : Me) (env : List Value) (front later : List Pending) (p : Pending)
        → is_named (owner_in site.scope me) site.arms p ≡ false
        → chosen_in (front ++ p ∷ later) (choice reading site me env (front ++ p ∷ later)) ≡ chosen_in (front ++ later) (choice reading site me env (front ++ later)) }
{}

/// A law of choices: where two queues have the same invocations of the statement's class and owner, and two worlds hold the
/// same in what its guards name, the choice is the same but for the place in the queue.
pub fn one_class_decides()
    ensures { (reading reading' : Reading) (site : Site) (me : Me) (env : List Value) (items items' : List Pending) (class : ℕ → Bool)
        → list_all (λ arm. class arm.op) site.arms ≡ true
        → filter (is_in_class (owner_in site.scope me) class) items ≡ filter (is_in_class (owner_in site.scope me) class) items'
        → (watched : Watched) → reads_only watched site ≡ true → SameWatched watched site me env reading reading'
        → chosen_in items (choice reading site me env items) ≡ chosen_in items' (choice reading' site me env items') }
{}

/// A law of choices: where another world holds what the guards read in one, the choice is the same there, unless a fault
/// ended it.
pub fn what_was_read_decides()
    ensures { (reading reading' : Reading) (site : Site) (me : Me) (env : List Value) (items : List Pending) (watched : Watched) → reads_only watched site ≡ true
        → reading.names ≡ reading'.names → IsMade (choice reading site me env items) → ShowsAll reading' (choice_seen reading site me env items)
        → choice reading' site me env items ≡ choice reading site me env items }
{}

/// A law of choices: the world holds what the guards read, and it is among what is watched, where they name no more.
pub fn what_was_read_is_there()
    ensures there { (reading : Reading) (site : Site) (me : Me) (env : List Value) (items : List Pending) (watched : Watched) → reads_only watched site ≡ true
        → ShowsAll reading (choice_seen reading site me env items) }
    ensures watched { (reading : Reading) (site : Site) (me : Me) (env : List Value) (items : List Pending) (watched : Watched) → reads_only watched site ≡ true
        → EachSeen (IsWatched watched site me env) (choice_seen reading site me env items) }
{}
