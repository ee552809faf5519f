//! The parts that the choice of an `in` statement touches.
ghost use Rattle.std.specs.List.{list_all};
ghost use Rattle.std.specs.Prelude.{◌≡◌, ◌==◌, ◌∷◌, IfSome, Some, filter_map, length, nat_le, option_map, slice_get};
ghost use Rattle.sr_classes.specs.Classes.{class_of};
ghost use Rattle.sr_select.specs.Choices.{owner_in};
ghost use Rattle.sr_buckets.specs.Parts.{home};
ghost use Rattle.sr_touch.specs.Orders.{IsAscending, all_added, in_order, parts_in};
ghost use Rattle.sr_touch.specs.Touched.{count_part, has_one_class, is_narrow, is_wide_site, line_parts, read_part, select_parts, site_parts};

use crate::homes::{class_in, line_home};
use crate::parts::{Parts, adding};
use sr_buckets::home;
use sr_core::{Arm, Classes, Core, Me, Named, Scope, SharedRead, Site};
use sr_select::{block_of, names_listed, owner_in};
use sr_value::{Owner, Value};

fn with_line(parts: Parts, classes: &Classes, owner: Owner, arms: &[Arm]) -> Option<Parts>
    requires { IsAscending parts }
    ensures value { option_map parts_in result ≡ all_added (Some (parts_in parts)) (line_parts (class_of classes.now.of) owner arms.now) }
    ensures ascending { IfSome result IsAscending }
{
    match arms {
        [] => Some(parts),
        [arm, ..] => parts.with(line_home(classes, owner, arm.op)),
    }
}

fn read_part(me: Me, names: &[Named], env: &[Value], read: SharedRead) -> Option<usize>
    ensures { result ≡ read_part me names.now env.now read }
{
    match block_of(me, names, env, read.home) {
        Ok(block) => Some(home(block)),
        Err(_) => None,
    }
}

fn with_reads(
    parts: Option<Parts>,
    me: Me,
    names: &[Named],
    env: &[Value],
    reads: &[SharedRead],
) -> Option<Parts>
    requires { IfSome parts IsAscending }
    ensures value { option_map parts_in result ≡ all_added (option_map parts_in parts) (filter_map (read_part me names.now env.now) reads.now) }
    ensures ascending { IfSome result IsAscending }
{
    let mut parts = parts;
    for read in reads {
        if let Some(part) = read_part(me, names, env, *read) {
            parts = adding(parts, part);
        }
    }
    parts
}

/// The line of an operation, as a process means it.
pub fn count_part(core: &Core, classes: &Classes, me: Me, op: u32) -> Option<usize>
    ensures { result ≡ count_part core.now (class_of classes.now.of) me op }
{
    match core.operations.get(op as usize) {
        Some(operation) => Some(line_home(classes, owner_in(operation.scope, me), op)),
        None => None,
    }
}

fn with_counts(
    parts: Option<Parts>,
    core: &Core,
    classes: &Classes,
    me: Me,
    counts: &[u32],
) -> Option<Parts>
    requires { IfSome parts IsAscending }
    ensures value { option_map parts_in result ≡ all_added (option_map parts_in parts) (filter_map (count_part core.now (class_of classes.now.of) me) counts.now) }
    ensures ascending { IfSome result IsAscending }
{
    let mut parts = parts;
    for op in counts {
        if let Some(part) = count_part(core, classes, me, *op) {
            parts = adding(parts, part);
        }
    }
    parts
}

/// With the line of a statement, the blocks that its guards read, and the lines that they count.
fn with_site(
    parts: Parts,
    core: &Core,
    classes: &Classes,
    me: Me,
    env: &[Value],
    site: &Site,
) -> Option<Parts>
    requires { IsAscending parts }
    ensures value { option_map parts_in result ≡ all_added (Some (parts_in parts)) (site_parts core.now (class_of classes.now.of) me env.now site.now) }
    ensures ascending { IfSome result IsAscending }
{
    let parts = with_line(
        parts,
        classes,
        owner_in(site.scope, me),
        site.arms.as_slice(),
    );
    let parts = with_reads(parts, me, site.names.as_slice(), env, site.reads.as_slice());
    with_counts(parts, core, classes, me, site.counts.as_slice())
}

/// Whether the operations of all these arms are of one class.
fn are_of_class(classes: &Classes, class: u32, arms: &[Arm]) -> bool
    ensures { result ≡ list_all (λ arm. class_of classes.now.of arm.op == class) arms.now }
{
    for arm in arms {
        if class_in(classes, arm.op) != class {
            return false;
        }
    }
    true
}

fn has_one_class(classes: &Classes, arms: &[Arm]) -> bool
    ensures { result ≡ has_one_class (class_of classes.now.of) arms.now }
{
    match arms {
        [] => true,
        [arm, others @ ..] => are_of_class(classes, class_in(classes, arm.op), others),
    }
}

/// Whether a statement and its process touch at most three parts.
#[tactic(auto, using(crate::proofs::OrderLemmas::some_added))]
fn touches_few(core: &Core, classes: &Classes, me: Me, env: &[Value], site: &Site) -> bool
    ensures { result ≡ nat_le (length (in_order (home me.process ∷ site_parts core.now (class_of classes.now.of) me env.now site.now))) 3 }
{
    with_site(Parts::One(home(me.process)), core, classes, me, env, site).is_some()
}

/// Whether the guards of a statement read no more than it lists, and it has one line and touches at most three parts.
fn is_narrow(core: &Core, classes: &Classes, me: Me, env: &[Value], site: &Site) -> bool
    ensures { result ≡ is_narrow core.now (class_of classes.now.of) me env.now site.now }
{
    has_one_class(classes, site.arms.as_slice())
        && names_listed(site)
        && touches_few(core, classes, me, env, site)
}

/// Whether the choice of a statement is wide; one that isn't in the program can't be made.
pub fn is_wide_site(core: &Core, classes: &Classes, me: Me, env: &[Value], site: u32) -> bool
    ensures { result ≡ is_wide_site core.now (class_of classes.now.of) me env.now (slice_get core.now.sites site) }
{
    match core.sites.get(site as usize) {
        Some(site) => !is_narrow(core, classes, me, env, site),
        None => false,
    }
}

/// With the parts that the choice of a statement touches.
pub fn with_select(
    parts: Parts,
    core: &Core,
    classes: &Classes,
    me: Me,
    env: &[Value],
    site: u32,
) -> Option<Parts>
    requires { IsAscending parts }
    ensures value { option_map parts_in result ≡ all_added (Some (parts_in parts)) (select_parts core.now (class_of classes.now.of) me env.now (slice_get core.now.sites site)) }
    ensures ascending { IfSome result IsAscending }
{
    match core.sites.get(site as usize) {
        Some(site) => with_site(parts, core, classes, me, env, site),
        None => Some(parts),
    }
}
