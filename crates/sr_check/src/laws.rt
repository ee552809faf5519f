ghost use Rattle.std.specs.Prelude.{Contains, ◌≡◌, List, None, Option};
ghost use Rattle.sr_names.specs.declared.meaning.Decl.{Decl};
ghost use Rattle.sr_names.specs.Noted.{Meanings};
ghost use Rattle.sr_names.specs.Specs.{Specs};
ghost use Rattle.sr_tree.specs.declared.component.Component.{Component};
ghost use Rattle.sr_tree.specs.declared.component.File.{File};
ghost use Rattle.sr_tree.specs.declared.name.Name.{Name};
ghost use Rattle.sr_tree.specs.declared.statement.Arm.{Arm};
ghost use Rattle.sr_tree.specs.declared.statement.BlockItem.{BlockItem};
ghost use Rattle.sr_tree.specs.declared.statement.Quantifier.{Quantifier};
ghost use Rattle.sr_tree.specs.declared.statement.Statement.{Statement};
ghost use Rattle.sr_types.specs.declared.ty.Ty.{Ty};
ghost use Rattle.sr_value.specs.declared.place.Span.{Span};
ghost use Rattle.sr_check_expr.specs.declared.facts.Facts.{Facts};
ghost use Rattle.sr_check_decl.specs.Inferring.{program_known};
ghost use Rattle.sr_check.specs.Checked.{checked, first_refused};
ghost use Rattle.sr_check.specs.Contexts.{Context};
ghost use Rattle.sr_check.specs.Owners.{Known, KnowsShared, component_at};
ghost use Rattle.sr_check.specs.Quantifying.{quantifiers_known};
ghost use Rattle.sr_check.specs.Services.{service_bound};
ghost use Rattle.sr_check.specs.Servicing.{AllServiceOwn, IsServed, IsWaited, OneOwner, ServesShared, ServicesOwn, component_procedures};
ghost use Rattle.sr_check.specs.Statements.{arm_read, block_item_read, statement_read};

/// A law of the facts of a program. Each operation among them is declared in the program, both before its statements
/// are checked and after. The operations of components are there before. What names mean doesn't change.
pub fn known_are_declared()
    ensures before { (uses : Meanings) (specs : Specs) (files : List File) → Known files (program_known uses specs files) }
    ensures after { (uses : Meanings) (specs : Specs) (files : List File) → Known files (checked uses specs files).facts }
    ensures shared { (uses : Meanings) (specs : Specs) (files : List File) → KnowsShared (program_known uses specs files) (checked uses specs files).facts }
    ensures uses { (uses : Meanings) (specs : Specs) (files : List File) → (checked uses specs files).facts.uses ≡ uses }
{}

/// A law of statements: after what stands in a block, and within a service and a quantification, each operation that
/// is known is declared where that holds before.
pub fn declared_stay_known()
    ensures statement { (files : List File) (tree : Statement) (context : Context) → Known files context.facts → Known files (statement_read tree context).facts }
    ensures item { (files : List File) (tree : BlockItem) (context : Context) → Known files context.facts → Known files (block_item_read tree context).facts }
    ensures arm { (files : List File) (tree : Arm) (span : Span) (context : Context) → Known files context.facts → Known files ((arm_read tree).steps span context).facts }
    ensures service { (files : List File) (formals : List Name) (returned : Option Name) (ty : Ty) (facts : Facts) → Known files facts → Known files (service_bound formals returned ty facts) }
    ensures quantifiers { (files : List File) (quantifiers : List Quantifier) (facts : Facts) → Known files facts → Known files (quantifiers_known facts quantifiers) }
{}

/// A law of programs that break no rule of kinds: what a component services by `in`, `receive`, `P` and procs are
/// operations that are declared in it; what it services by statements has no proc, and is all of the component or all
/// of procs at each statement.
pub fn services_its_own()
    ensures { (uses : Meanings) (specs : Specs) (files : List File) → first_refused uses specs files ≡ None → AllServiceOwn uses files (program_known uses specs files) }
{}

/// A law of programs in which each operation is declared once: two components that service one operation are at one
/// spot, and what a component services by statements is no procedure or process of it, and none of its procs serves it
/// unless a proc serves what is declared in a block.
pub fn waited_have_no_proc()
    ensures one_component { (uses : Meanings) (files : List File) (known : Facts) (a b : Component) → OneOwner files
        → ServicesOwn uses files known a → ServicesOwn uses files known b → (decl other : Decl) → IsWaited uses a decl → IsServed uses b other → decl.spot ≡ other.spot
        → component_at a ≡ component_at b }
    ensures no_procedure { (uses : Meanings) (files : List File) (known : Facts) (component : Component)
        → ServicesOwn uses files known component → (decl : Decl) → IsWaited uses component decl → Contains (component_procedures component) decl.spot → ⊥ }
    ensures no_proc { (uses : Meanings) (files : List File) (known : Facts) (component : Component) → ServesShared uses files component
        → ServicesOwn uses files known component → (decl other : Decl) → IsWaited uses component decl → IsServed uses component other → decl.spot ≡ other.spot → ⊥ }
{}
