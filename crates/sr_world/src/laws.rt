ghost use Rattle.std.specs.Prelude.{◌≡◌, ◌++◌, ℕ, List, IsTrue, false};
ghost use Rattle.sr_ask.specs.declared.ask.Ask.{Ask};
ghost use Rattle.sr_ask.specs.declared.request.ReadKind.{ReadKind};
ghost use Rattle.sr_core.specs.declared.component.Core.{Core};
ghost use Rattle.sr_world.specs.Does.{IsNot, comes_to};
ghost use Rattle.sr_world.specs.Inputs.{ItemRead, is_decided, item_read};
ghost use Rattle.sr_world.specs.Steps.{does};
ghost use Rattle.sr_world.specs.Waking.{SameFor};
ghost use Rattle.sr_world.specs.Worlds.{World};

/// Whether a request can be done, and whether its step makes something, doesn't depend on the step's number.
pub fn name_decides_nothing()
    ensures { (core : Core) (world : World) (actor : ℕ) (ask : Ask) (name other : ℕ) → comes_to (does core world actor ask name) ≡ comes_to (does core world actor ask other) }
{}

/// What is decided stays so: bytes that come later change neither the answer nor what is left before them.
pub fn later_input_changes_nothing()
    ensures decided { (kind : ReadKind) (rest more : List ℕ) → IsTrue (is_decided kind rest false) → IsTrue (is_decided kind (rest ++ more) false) }
    ensures answer { (kind : ReadKind) (rest more : List ℕ) → IsTrue (is_decided kind rest false) → (item_read kind (rest ++ more)).answer ≡ (item_read kind rest).answer }
    ensures rest { (kind : ReadKind) (rest more : List ℕ) → IsTrue (is_decided kind rest false) → (item_read kind (rest ++ more)).rest ≡ (item_read kind rest).rest ++ more }
{}

/// What lets a request go on that can't be done now: while the replies to its process stay, for a `Take`; the instances,
/// for `EnsureGlobal` and `Create`; the moment, for a `Wake`; and the invocations of its operations and what its guards
/// name, for a `Select`, it still can't, whatever else happens.
pub fn only_these_wake()
    ensures { (core : Core) (old new : World) (actor : ℕ) (ask : Ask) (name other : ℕ) → SameFor core actor ask.request old new
        → comes_to (does core old actor ask name) ≡ IsNot → comes_to (does core new actor ask other) ≡ IsNot }
{}
