//! What the guards of statements that wait name of the process, and what they read of the world.
ghost use Rattle.std.specs.Prelude.{◌≡◌, ◌==◌, ◌++◌, [], IfOk, OnOk, filter, flat_map, map, fold};
ghost use Rattle.std.specs.List.{list_any, filter_map};
ghost use Rattle.sr_tables.specs.Sites as sites;
ghost use Rattle.sr_tables.specs.Lists.{maybe, lists};

use sr_core::{
    Argument, Arm, Expr, Formal, Home, Leaf, Named, OperationOwner, Part, PlaceExpr, Reading,
    Returned, Root, Scope, SharedRead, Site, Step,
};
use sr_value::{NoMemory, Row};
use std::alloc::Global;

/// What an expression mentions that stands outside it.
#[derive(Clone, Copy)]
pub enum Mention {
    Variable(Root),
    Operation(OperationOwner),
    /// The machine of the process.
    Machine,
    /// An operation whose pending invocations are counted.
    Count(u32),
}

fn note_leaf(leaf: &Leaf, all: &mut Row<Mention>) -> Result<(), NoMemory>
    ensures { OnOk result (all.new ≡ all.old ++ sites.leaf_mentions leaf.now) }
{
    match leaf {
        Leaf::Operation { whose, .. } => all.push(Mention::Operation(*whose)),
        Leaf::MyMachine => all.push(Mention::Machine),
        Leaf::Count { op } => all.push(Mention::Count(*op)),
        _ => Ok(()),
    }
}

/// Appends what an expression mentions to other mentions.
#[cycle(mentions)]
fn note_expr(expr: &Expr, all: &mut Row<Mention>) -> Result<(), NoMemory>
    ensures { OnOk result (all.new ≡ all.old ++ sites.mentions_in expr.now) }
{
    match expr {
        Expr::Leaf(leaf) => note_leaf(leaf, all),
        Expr::Load(place) => note_place(place, all),
        Expr::Unary { operand, .. } => note_expr(operand.get(), all),
        Expr::Binary { left, right, .. } | Expr::And { left, right } | Expr::Or { left, right } => {
            note_expr(left.get(), all)?;
            note_expr(right.get(), all)
        }
        Expr::Apply { args, .. } => note_exprs(args.as_slice(), all),
        Expr::Array(parts) => note_parts(parts.as_slice(), all),
        Expr::Of { whole, step } => {
            note_expr(whole.get(), all)?;
            note_step(step.get(), all)
        }
        Expr::Member { of, .. } => note_expr(of.get(), all),
        Expr::Call { target, args, .. } => {
            note_expr(target.get(), all)?;
            note_arguments(args.as_slice(), all)
        }
        Expr::Create { args, machine, .. } => {
            note_exprs(args.as_slice(), all)?;
            note_expr(machine.get(), all)
        }
        Expr::Read(readings) => note_readings(readings.as_slice(), all),
    }
}

#[cycle(mentions)]
fn note_exprs(exprs: &[Expr], all: &mut Row<Mention>) -> Result<(), NoMemory>
    ensures { OnOk result (all.new ≡ all.old ++ lists (map sites.mentions_in exprs.now)) }
{
    for expr in exprs {
        note_expr(expr, all)?;
    }
    Ok(())
}

#[cycle(mentions)]
fn note_place(place: &PlaceExpr, all: &mut Row<Mention>) -> Result<(), NoMemory>
    ensures { OnOk result (all.new ≡ all.old ++ sites.mentions_at place.now) }
{
    all.push(Mention::Variable(place.root))?;
    note_steps(place.path.as_slice(), all)
}

#[cycle(mentions)]
fn note_steps(steps: &[Step], all: &mut Row<Mention>) -> Result<(), NoMemory>
    ensures { OnOk result (all.new ≡ all.old ++ lists (map sites.mentions_in_step steps.now)) }
{
    for step in steps {
        note_step(step, all)?;
    }
    Ok(())
}

#[cycle(mentions)]
fn note_step(step: &Step, all: &mut Row<Mention>) -> Result<(), NoMemory>
    ensures { OnOk result (all.new ≡ all.old ++ sites.mentions_in_step step.now) }
{
    match step {
        Step::At(index) => note_expr(index, all),
        Step::At2(row, column) => {
            note_expr(row, all)?;
            note_expr(column, all)
        }
        Step::Field(_) => Ok(()),
    }
}

#[cycle(mentions)]
fn note_part(part: &Part, all: &mut Row<Mention>) -> Result<(), NoMemory>
    ensures { OnOk result (all.new ≡ all.old ++ sites.mentions_in_part part.now) }
{
    match part {
        Part::One(value) => note_expr(value, all),
        Part::Repeated { count, value } => {
            note_expr(count, all)?;
            note_expr(value, all)
        }
    }
}

#[cycle(mentions)]
fn note_parts(parts: &[Part], all: &mut Row<Mention>) -> Result<(), NoMemory>
    ensures { OnOk result (all.new ≡ all.old ++ lists (map sites.mentions_in_part parts.now)) }
{
    for part in parts {
        note_part(part, all)?;
    }
    Ok(())
}

#[cycle(mentions)]
fn note_argument(arg: &Argument, all: &mut Row<Mention>) -> Result<(), NoMemory>
    ensures { OnOk result (all.new ≡ all.old ++ sites.mentions_in_argument arg.now) }
{
    match arg {
        Argument::Val(value) => note_expr(value, all),
        Argument::Var(place) | Argument::Res(place) => note_place(place, all),
    }
}

#[cycle(mentions)]
fn note_arguments(args: &[Argument], all: &mut Row<Mention>) -> Result<(), NoMemory>
    ensures { OnOk result (all.new ≡ all.old ++ lists (map sites.mentions_in_argument args.now)) }
{
    for arg in args {
        note_argument(arg, all)?;
    }
    Ok(())
}

#[cycle(mentions)]
fn note_readings(readings: &[Reading], all: &mut Row<Mention>) -> Result<(), NoMemory>
    ensures { OnOk result (all.new ≡ all.old ++ lists (map sites.mentions_in_reading readings.now)) }
{
    for reading in readings {
        note_place(&reading.place, all)?;
    }
    Ok(())
}

fn note_optional(expr: &Option<Expr>, all: &mut Row<Mention>) -> Result<(), NoMemory>
    ensures { OnOk result (all.new ≡ all.old ++ maybe sites.mentions_in expr.now) }
{
    match expr {
        None => Ok(()),
        Some(expr) => note_expr(expr, all),
    }
}

fn home_named(home: Home) -> Option<Named>
    ensures { result ≡ sites.home_named home }
{
    match home {
        Home::Mine => None,
        Home::Imported(import) => Some(Named::Home(import)),
    }
}

fn root_named(root: Root) -> Option<Named>
    ensures { result ≡ sites.root_named root }
{
    match root {
        Root::Own(var) => Some(Named::Own(var)),
        Root::Shared { home, .. } => home_named(home),
    }
}

fn whose_named(whose: OperationOwner) -> Option<Named>
    ensures { result ≡ sites.whose_named whose }
{
    match whose {
        OperationOwner::Imported(import) => Some(Named::Home(import)),
        OperationOwner::Mine | OperationOwner::Process => None,
    }
}

/// What is named of the process by what is mentioned.
fn named_by(mention: Mention) -> Option<Named>
    ensures { result ≡ sites.named_by mention }
{
    match mention {
        Mention::Variable(root) => root_named(root),
        Mention::Operation(whose) => whose_named(whose),
        Mention::Machine => Some(Named::Machine),
        Mention::Count(_) => None,
    }
}

/// The shared variable that is read.
fn read_by(mention: Mention) -> Option<SharedRead>
    ensures { result ≡ sites.read_by mention }
{
    match mention {
        Mention::Variable(Root::Shared { home, var }) => Some(SharedRead { home, var }),
        _ => None,
    }
}

/// The operation whose pending invocations are counted.
fn counted_by(mention: Mention) -> Option<u32>
    ensures { result ≡ sites.counted_by mention }
{
    match mention {
        Mention::Count(op) => Some(op),
        _ => None,
    }
}

fn is_named(formals: &[Formal], var: u32) -> bool
    ensures { result ≡ list_any (λ formal. formal.var == var) formals.now }
{
    for formal in formals {
        if formal.var == var {
            return true;
        }
    }
    false
}

/// Whether a variable is a formal of an arm, or the name of what it returns.
fn is_formal(formals: &[Formal], returned: &Option<Returned>, var: u32) -> bool
    ensures { result ≡ sites.is_formal formals.now returned.now var }
{
    match returned {
        None => is_named(formals, var),
        Some(returned) => is_named(formals, var) || returned.var == var,
    }
}

fn is_outer(arm: &Arm, name: Named) -> bool
    ensures { result ≡ sites.is_outer arm.now name }
{
    match name {
        Named::Own(var) => !is_formal(arm.formals.as_slice(), &arm.returned, var),
        Named::Home(_) | Named::Machine => true,
    }
}

fn same_named(name: Named, other: Named) -> bool
    ensures { result ≡ sites.same_named name other }
{
    match name {
        Named::Own(var) => match other {
            Named::Own(other) => var == other,
            Named::Home(_) | Named::Machine => false,
        },
        Named::Home(import) => match other {
            Named::Home(other) => import == other,
            Named::Own(_) | Named::Machine => false,
        },
        Named::Machine => match other {
            Named::Machine => true,
            Named::Own(_) | Named::Home(_) => false,
        },
    }
}

fn is_among(names: &[Named], name: Named) -> bool
    ensures { result ≡ list_any (sites.same_named name) names.now }
{
    for other in names {
        if same_named(name, *other) {
            return true;
        }
    }
    false
}

/// Appends a name to others, unless it is there.
fn insert(names: &mut Row<Named>, name: Named) -> Result<(), NoMemory>
    ensures { OnOk result (names.new ≡ sites.with_named names.old name) }
{
    if is_among(names.as_slice(), name) {
        return Ok(());
    }
    names.push(name)
}

/// Appends those names that are no formals of an arm to others.
fn insert_outer(arm: &Arm, all: &[Mention], names: &mut Row<Named>) -> Result<(), NoMemory>
    ensures { OnOk result (names.new ≡ fold sites.with_named names.old (filter (sites.is_outer arm.now) (filter_map sites.named_by all.now))) }
{
    for mention in all {
        match named_by(*mention) {
            Some(name) if is_outer(arm, name) => insert(names, name)?,
            _ => {}
        }
    }
    Ok(())
}

/// Appends what the guard and the order of an arm mention to other mentions.
fn note_arm(arm: &Arm, all: &mut Row<Mention>) -> Result<(), NoMemory>
    ensures { OnOk result (all.new ≡ all.old ++ sites.arm_mentions arm.now) }
{
    note_optional(&arm.guard, all)?;
    note_optional(&arm.by, all)
}

/// Appends what the guard and the order of an arm name besides its formals to other names.
fn insert_arm(alloc: Global, arm: &Arm, names: &mut Row<Named>) -> Result<(), NoMemory>
    ensures { OnOk result (names.new ≡ fold sites.with_named names.old (sites.arm_outer arm.now)) }
{
    let mut all = Row::new(alloc);
    note_arm(arm, &mut all)?;
    insert_outer(arm, all.as_slice(), names)
}

/// What the guards of all arms name, each once.
#[tactic(auto, using(crate::proofs::Appends::named_append))]
fn names_of(alloc: Global, arms: &[Arm]) -> Result<Row<Named>, NoMemory>
    ensures { IfOk result (λ names. names ≡ sites.names_of arms.now) }
{
    let mut names = Row::new(alloc);
    for arm in arms {
        insert_arm(alloc, arm, &mut names)?;
    }
    Ok(names)
}

/// What the guards of all arms mention.
fn mentions_of(alloc: Global, arms: &[Arm]) -> Result<Row<Mention>, NoMemory>
    ensures { IfOk result (λ all. all ≡ flat_map sites.arm_mentions arms.now) }
{
    let mut all = Row::new(alloc);
    for arm in arms {
        note_arm(arm, &mut all)?;
    }
    Ok(all)
}

fn same_home(home: Home, other: Home) -> bool
    ensures { result ≡ sites.same_home home other }
{
    match home {
        Home::Mine => match other {
            Home::Mine => true,
            Home::Imported(_) => false,
        },
        Home::Imported(import) => match other {
            Home::Mine => false,
            Home::Imported(other) => import == other,
        },
    }
}

fn same_read(read: SharedRead, other: SharedRead) -> bool
    ensures { result ≡ sites.same_read read other }
{
    same_home(read.home, other.home) && read.var == other.var
}

fn is_read(reads: &[SharedRead], read: SharedRead) -> bool
    ensures { result ≡ list_any (sites.same_read read) reads.now }
{
    for other in reads {
        if same_read(read, *other) {
            return true;
        }
    }
    false
}

/// Appends a shared variable to others, unless it is there.
fn insert_read(reads: &mut Row<SharedRead>, read: SharedRead) -> Result<(), NoMemory>
    ensures { OnOk result (reads.new ≡ sites.with_read reads.old read) }
{
    if is_read(reads.as_slice(), read) {
        return Ok(());
    }
    reads.push(read)
}

/// The shared variables among what is mentioned, each once.
fn reads_among(alloc: Global, all: &[Mention]) -> Result<Row<SharedRead>, NoMemory>
    ensures { IfOk result (λ reads. reads ≡ fold sites.with_read [] (filter_map sites.read_by all.now)) }
{
    let mut reads = Row::new(alloc);
    for mention in all {
        if let Some(read) = read_by(*mention) {
            insert_read(&mut reads, read)?;
        }
    }
    Ok(reads)
}

fn is_counted(counts: &[u32], op: u32) -> bool
    ensures { result ≡ list_any (λ other. op == other) counts.now }
{
    for other in counts {
        if op == *other {
            return true;
        }
    }
    false
}

/// Appends an operation to others, unless it is there.
fn insert_count(counts: &mut Row<u32>, op: u32) -> Result<(), NoMemory>
    ensures { OnOk result (counts.new ≡ sites.with_count counts.old op) }
{
    if is_counted(counts.as_slice(), op) {
        return Ok(());
    }
    counts.push(op)
}

/// The operations that are counted among what is mentioned, each once.
fn counts_among(alloc: Global, all: &[Mention]) -> Result<Row<u32>, NoMemory>
    ensures { IfOk result (λ counts. counts ≡ fold sites.with_count [] (filter_map sites.counted_by all.now)) }
{
    let mut counts = Row::new(alloc);
    for mention in all {
        if let Some(op) = counted_by(*mention) {
            insert_count(&mut counts, op)?;
        }
    }
    Ok(counts)
}

/// The site of a statement with these arms, whose operations are of this scope.
pub fn site_of(
    alloc: Global,
    scope: Scope,
    arms: Row<Arm>,
    has_else: bool,
) -> Result<Site, NoMemory>
    ensures { IfOk result (λ site. site ≡ sites.site_of scope arms has_else) }
{
    let names = names_of(alloc, arms.as_slice())?;
    let all = mentions_of(alloc, arms.as_slice())?;
    let reads = reads_among(alloc, all.as_slice())?;
    let counts = counts_among(alloc, all.as_slice())?;
    Ok(Site {
        scope,
        arms,
        has_else,
        names,
        reads,
        counts,
    })
}
