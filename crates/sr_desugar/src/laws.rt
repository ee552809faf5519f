ghost use Rattle.std.specs.List.{list_all};
ghost use Rattle.std.specs.Prelude.{List, IsTrue};
ghost use Rattle.sr_check_expr.specs.declared.facts.Facts.{Facts};
ghost use Rattle.sr_core.specs.Blocks.{all_waits_ok};
ghost use Rattle.sr_desugar.specs.Core.{core_of, wholes_of};
ghost use Rattle.sr_desugar.specs.Laws.{WaitApart};
ghost use Rattle.sr_desugar.specs.Numbered.{codes_numbered, procs_numbered};
ghost use Rattle.sr_outline.specs.Outline.{tables_of};
ghost use Rattle.sr_tables.specs.Parts.{components_in};
ghost use Rattle.sr_tree.specs.declared.component.File.{File};

/// A law of the core: whatever trees and facts it is written from, each number in it names something. It is so in
/// the initial and the final code of each component, and in each proc.
pub fn numbers_exist()
    ensures codes { (files : List File) (facts : Facts) → IsTrue (codes_numbered (core_of files facts)) }
    ensures procs { (files : List File) (facts : Facts)
        → IsTrue (list_all (procs_numbered (core_of files facts)) (wholes_of facts (components_in files) (tables_of facts (components_in files)))) }
{}

/// A law of the core: where statements that wait stand at different spots, each `in` has a block for each arm of its
/// site.
pub fn each_wait_has_its_site()
    ensures { (files : List File) (facts : Facts) → WaitApart files facts → IsTrue (all_waits_ok (core_of files facts)) }
{}
