ghost use Rattle.std.specs.Prelude.{◌≡◌, ◌≢◌, ℕ, List, ◌++◌, Ok, Some};
ghost use Rattle.std.specs.Option.{option_map};
ghost use Rattle.sr_value.specs.declared.shape.Sel.{Sel};
ghost use Rattle.sr_value.specs.declared.value.Value.{Value};
ghost use Rattle.sr_value.specs.Parts.{fitted_in, stored_at, with_ok};
ghost use Rattle.sr_in_place.specs.Places.{shape_at};
ghost use Rattle.sr_store.specs.declared.variable.Variable.{Variable};
ghost use Rattle.sr_store.specs.Variables.{Variables, loaded_in, stored_in, variable_at, with_variable};

/// A law of variables: a store changes one variable, which keeps its shape, and no other.
pub fn store_is_to_one_variable()
    ensures named { (all new : Variables) (block var : ℕ) (path : List Sel) (value : Value) → stored_in all block var path value ≡ Ok new
        → (variable : Variable) × (held : Value) × (variable_at all block var ≡ Some variable) × (stored_at variable.shape variable.value path value ≡ Ok held)
        × (new ≡ with_variable all block var (record variable { value = held })) }
    ensures shape { (all new : Variables) (block var : ℕ) (path : List Sel) (value : Value) → stored_in all block var path value ≡ Ok new
        → option_map (λ v. v.shape) (variable_at new block var) ≡ option_map (λ v. v.shape) (variable_at all block var) }
    ensures others { (all new : Variables) (block var other_block other : ℕ) (path : List Sel) (value : Value) → stored_in all block var path value ≡ Ok new
        → (other_block ≡ block → other ≢ var) → variable_at new other_block other ≡ variable_at all other_block other }
{}

/// Another: a load after a store of the same place gives the stored value, with the bounds of its place, and every
/// other place of the variable is as before, where neither of the two paths begins with the other.
pub fn load_after_store()
    ensures stored { (all new : Variables) (block var : ℕ) (variable : Variable) (path : List Sel) (value : Value) → variable_at all block var ≡ Some variable
        → stored_in all block var path value ≡ Ok new → loaded_in new block var path ≡ with_ok (shape_at variable.shape variable.value path) (λ place. fitted_in place value) }
    ensures others { (all new : Variables) (block var : ℕ) (path other : List Sel) (value : Value) → stored_in all block var path value ≡ Ok new
        → ((rest : List Sel) → other ≢ path ++ rest) → ((rest : List Sel) → path ≢ other ++ rest) → loaded_in new block var other ≡ loaded_in all block var other }
{}
