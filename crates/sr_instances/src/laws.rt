ghost use Rattle.std.specs.Prelude.{◌≡◌, ◌≢◌, ℕ, Some};
ghost use Rattle.sr_instances.specs.Instances.{IsAdded, Placed, global_in, state_of, with_instance, with_state};
ghost use Rattle.sr_instances.specs.declared.state.State.{State};

/// A law of instances: one that is put into a state is in it, and every other stays in its own.
pub fn state_is_of_one()
    ensures itself { (places : Placed) (name : ℕ) (state : State) → IsAdded places name → state_of (with_state places name state) name ≡ Some state }
    ensures others { (places : Placed) (name other : ℕ) (state : State) → other ≢ name → state_of (with_state places name state) other ≡ state_of places other }
{}

/// A law of globals: once there is one on a machine, it stays the one, whatever is added or ends.
pub fn first_global_stays()
    ensures added { (places : Placed) (global machine first name component vm : ℕ) → global_in places global machine ≡ Some first
        → global_in (with_instance places name component vm) global machine ≡ Some first }
    ensures put { (places : Placed) (global machine name : ℕ) (state : State) → global_in (with_state places name state) global machine ≡ global_in places global machine }
{}
