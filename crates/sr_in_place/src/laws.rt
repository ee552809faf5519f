ghost use Rattle.std.specs.Prelude.{◌≡◌, ◌≢◌, List, ◌++◌, Ok};
ghost use Rattle.sr_value.specs.declared.shape.Sel.{Sel};
ghost use Rattle.sr_value.specs.declared.shape.Shape.{Shape};
ghost use Rattle.sr_value.specs.declared.value.Value.{Value};
ghost use Rattle.sr_value.specs.Parts.{fitted_in, loaded_at, stored_at, with_ok};
ghost use Rattle.sr_in_place.specs.Places.{shape_at};

/// A law of places: a load after a store gives the stored value, with the bounds of its place, and every other place
/// is as before, where neither of the two paths begins with the other.
pub fn store_is_to_one_place()
    ensures stored { (shape : Shape) (old new value : Value) (path : List Sel) → stored_at shape old path value ≡ Ok new
        → loaded_at new path ≡ with_ok (shape_at shape old path) (λ place. fitted_in place value) }
    ensures others { (shape : Shape) (old new value : Value) (path other : List Sel) → stored_at shape old path value ≡ Ok new
        → ((rest : List Sel) → other ≢ path ++ rest) → ((rest : List Sel) → path ≢ other ++ rest) → loaded_at new other ≡ loaded_at old other }
{}
