ghost use Rattle.std.specs.Prelude.{◌≡◌, Bool, map};
ghost use Rattle.sr_core.specs.declared.expression.Leaf.{Leaf};
ghost use Rattle.sr_core.specs.declared.owner.Root.{Root};
ghost use Rattle.sr_select.specs.Tests.{all_pass, expr_all, maybe_all, part_all, place_all, step_all};

use sr_core::{Expr, Leaf, Part, PlaceExpr, Root, Step};

/// The leaves that expressions may have, and the variables at which their places may begin.
pub trait Allowed {
    ghost leaves: { Self → Leaf → Bool };

    ghost roots: { Self → Root → Bool };

    /// Whether an expression may have this leaf.
    fn has_leaf(&self, leaf: &Leaf) -> bool
        ensures { result ≡ leaves self.now leaf.now };

    /// Whether a place may begin here.
    fn has_root(&self, root: Root) -> bool
        ensures { result ≡ roots self.now root };
}

/// Whether an expression has only what is allowed.
#[cycle(allowing)]
fn expr_allowed<A: Allowed>(allowed: &A, expr: &Expr) -> bool
    ensures { result ≡ expr_all (A.leaves allowed.now) (A.roots allowed.now) expr.now }
{
    match expr {
        Expr::Leaf(leaf) => allowed.has_leaf(leaf),
        Expr::Load(place) => place_allowed(allowed, place),
        Expr::Unary { operand, .. } => expr_allowed(allowed, operand.get()),
        Expr::Binary { left, right, .. } => {
            expr_allowed(allowed, left.get()) && expr_allowed(allowed, right.get())
        }
        Expr::And { left, right } => {
            expr_allowed(allowed, left.get()) && expr_allowed(allowed, right.get())
        }
        Expr::Or { left, right } => {
            expr_allowed(allowed, left.get()) && expr_allowed(allowed, right.get())
        }
        Expr::Apply { args, .. } => exprs_allowed(allowed, args.as_slice()),
        Expr::Array(parts) => parts_allowed(allowed, parts.as_slice()),
        Expr::Of { whole, step } => {
            expr_allowed(allowed, whole.get()) && step_allowed(allowed, step.get())
        }
        Expr::Member { of, .. } => expr_allowed(allowed, of.get()),
        Expr::Call { .. } => true,
        Expr::Create { .. } => true,
        Expr::Read(_) => true,
    }
}

#[cycle(allowing)]
fn exprs_allowed<A: Allowed>(allowed: &A, exprs: &[Expr]) -> bool
    ensures { result ≡ all_pass (map (expr_all (A.leaves allowed.now) (A.roots allowed.now)) exprs.now) }
{
    for expr in exprs {
        if !expr_allowed(allowed, expr) {
            return false;
        }
    }
    true
}

#[cycle(allowing)]
fn place_allowed<A: Allowed>(allowed: &A, place: &PlaceExpr) -> bool
    ensures { result ≡ place_all (A.leaves allowed.now) (A.roots allowed.now) place.now }
{
    allowed.has_root(place.root) && steps_allowed(allowed, place.path.as_slice())
}

#[cycle(allowing)]
fn steps_allowed<A: Allowed>(allowed: &A, steps: &[Step]) -> bool
    ensures { result ≡ all_pass (map (step_all (A.leaves allowed.now) (A.roots allowed.now)) steps.now) }
{
    for step in steps {
        if !step_allowed(allowed, step) {
            return false;
        }
    }
    true
}

#[cycle(allowing)]
fn step_allowed<A: Allowed>(allowed: &A, step: &Step) -> bool
    ensures { result ≡ step_all (A.leaves allowed.now) (A.roots allowed.now) step.now }
{
    match step {
        Step::At(index) => expr_allowed(allowed, index),
        Step::At2(row, column) => expr_allowed(allowed, row) && expr_allowed(allowed, column),
        Step::Field(_) => true,
    }
}

#[cycle(allowing)]
fn parts_allowed<A: Allowed>(allowed: &A, parts: &[Part]) -> bool
    ensures { result ≡ all_pass (map (part_all (A.leaves allowed.now) (A.roots allowed.now)) parts.now) }
{
    for part in parts {
        if !part_allowed(allowed, part) {
            return false;
        }
    }
    true
}

#[cycle(allowing)]
fn part_allowed<A: Allowed>(allowed: &A, part: &Part) -> bool
    ensures { result ≡ part_all (A.leaves allowed.now) (A.roots allowed.now) part.now }
{
    match part {
        Part::One(value) => expr_allowed(allowed, value),
        Part::Repeated { count, value } => {
            expr_allowed(allowed, count) && expr_allowed(allowed, value)
        }
    }
}

/// The same of a guard or an order that may be absent.
pub fn maybe_allowed<A: Allowed>(allowed: &A, expr: &Option<Expr>) -> bool
    ensures { result ≡ maybe_all (A.leaves allowed.now) (A.roots allowed.now) expr.now }
{
    match expr {
        None => true,
        Some(expr) => expr_allowed(allowed, expr),
    }
}
