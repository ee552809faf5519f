ghost use Rattle.std.specs.List.{IsDistinct};
ghost use Rattle.std.specs.Prelude.{◌≡◌, ◌⊎◌, ℕ, List, map, flat_map};
ghost use Rattle.sr_front.specs.Program.{IsAccepted, IsRefused, phase_of};
ghost use Rattle.sr_front.specs.Reading.{AreRead};
ghost use Rattle.sr_names.specs.Spots.{spot_of, same_spot};
ghost use Rattle.sr_order.specs.Names.{file_names};
ghost use Rattle.sr_order.specs.Spans.{statement_spans, operation_spans, component_spans};
ghost use Rattle.sr_front.specs.declared.program.Checked.{Checked};
ghost use Rattle.sr_text.specs.declared.refusal.Refusal.{Refusal};
ghost use Rattle.sr_tree.specs.declared.component.File.{File};

/// A law of the verdict on files: they are accepted or refused, one of them always and never both, whatever they hold.
/// What they are accepted as is one, and they are refused in one phase.
pub fn one_verdict()
    ensures some { (contents : List (List ℕ)) → ((accepted : Checked) × IsAccepted contents accepted) ⊎ ((refusal : Refusal) × IsRefused contents refusal) }
    ensures apart { (contents : List (List ℕ)) (accepted : Checked) (refusal : Refusal)
        → IsAccepted contents accepted → IsRefused contents refusal → ⊥ }
    ensures accepted { (contents : List (List ℕ)) (a b : Checked) → IsAccepted contents a → IsAccepted contents b → a ≡ b }
    ensures phase { (contents : List (List ℕ)) (r s : Refusal) (one : IsRefused contents r) (other : IsRefused contents s)
        → phase_of one ≡ phase_of other }
{}

/// A law of the files of a program that are read: over all of them, no two statements stand at one spot, no two
/// operations are declared at one, and no two components; and no two names stand at one, declared or used.
pub fn spots_apart()
    ensures statements { (contents : List (List ℕ)) (trees : List File) → AreRead contents trees
        → IsDistinct same_spot (map spot_of (flat_map statement_spans trees)) }
    ensures operations { (contents : List (List ℕ)) (trees : List File) → AreRead contents trees
        → IsDistinct same_spot (map spot_of (flat_map operation_spans trees)) }
    ensures components { (contents : List (List ℕ)) (trees : List File) → AreRead contents trees
        → IsDistinct same_spot (map spot_of (flat_map component_spans trees)) }
    ensures names { (contents : List (List ℕ)) (trees : List File) → AreRead contents trees
        → IsDistinct same_spot (map spot_of (flat_map file_names trees)) }
{}
