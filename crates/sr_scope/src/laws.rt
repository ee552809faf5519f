ghost use Rattle.std.specs.Prelude.{◌≡◌, List, Ok, Some, map, flat_map};
ghost use Rattle.std.specs.List.{IsDistinct};
ghost use Rattle.sr_names.specs.declared.meaning.Decl.{Decl};
ghost use Rattle.sr_names.specs.declared.meaning.Meaning.TheVariants.{Declared};
ghost use Rattle.sr_names.specs.declared.meaning.Sort.TheVariants.{Operation};
ghost use Rattle.sr_names.specs.declared.spot.Spot.{Spot};
ghost use Rattle.sr_names.specs.Spots.{same_spot, spot_of};
ghost use Rattle.sr_names.specs.Uses.{meaning_at};
ghost use Rattle.sr_order.specs.Names.{file_names};
ghost use Rattle.sr_order.specs.Spans.{operation_spans};
ghost use Rattle.sr_scope.specs.declared.program.Names.{Names};
ghost use Rattle.sr_scope.specs.Resolved.{findings, resolved};
ghost use Rattle.sr_scope.specs.Served.{item_serves, locals_in, AllMeanOperations};
ghost use Rattle.sr_scope.specs.Uses.{IsIn, OneMeaning};
ghost use Rattle.sr_tree.specs.declared.component.Component.{Component};
ghost use Rattle.sr_tree.specs.declared.component.File.{File};
ghost use Rattle.sr_tree.specs.declared.component.Item.TheVariants as item;
ghost use Rattle.sr_tree.specs.declared.component.Proc.{Proc};
ghost use Rattle.sr_tree.specs.declared.name.Name.{Name};
ghost use Rattle.sr_tree.specs.Parts.{body_of};

/// A law of names: where no two names of the files stand at one spot, the uses that are found at a spot have one
/// meaning.
pub fn one_meaning()
    ensures { (files : List File) → IsDistinct same_spot (map spot_of (flat_map file_names files)) → OneMeaning (findings files) }
{}

/// A law of procs: where no rule of names is broken and no two names of the files stand at one spot, the operations
/// that the procs, procedures and processes of a component serve are different, if each name of a proc means an
/// operation.
pub fn served_once()
    ensures { (files : List File) (names : Names) (meant : Name → Spot) (component : Component) → resolved files ≡ Ok names
        → IsDistinct same_spot (map spot_of (flat_map file_names files)) → IsIn component (flat_map (λ file. file.components) files)
        → AllMeanOperations names.uses meant (body_of component)
        → IsDistinct same_spot (flat_map (item_serves meant) (body_of component)) }
{}

/// A law of procs: where no rule of names is broken and no two names of the files stand at one spot, the name of a proc
/// means nothing that is declared in a block, and it means an operation if an operation is declared at that spot.
pub fn procs_mean_shared()
    ensures operation { (files : List File) (names : Names) → resolved files ≡ Ok names → IsDistinct same_spot (map spot_of (flat_map file_names files))
        → (component : Component) → IsIn component (flat_map (λ file. file.components) files) → (proc : Proc) → IsIn (item.Proc proc) (body_of component)
        → (decl : Decl) → meaning_at names.uses (spot_of proc.name.span) ≡ Some (Declared decl)
        → IsIn decl.spot (map spot_of (flat_map operation_spans files)) → decl.sort ≡ Operation }
    ensures shared { (files : List File) (names : Names) → resolved files ≡ Ok names → IsDistinct same_spot (map spot_of (flat_map file_names files))
        → (component : Component) → IsIn component (flat_map (λ file. file.components) files) → (proc : Proc) → IsIn (item.Proc proc) (body_of component)
        → (decl : Decl) → meaning_at names.uses (spot_of proc.name.span) ≡ Some (Declared decl)
        → IsIn decl.spot (map spot_of (locals_in files)) → ⊥ }
{}
