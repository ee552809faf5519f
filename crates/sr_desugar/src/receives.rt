//! `receive`, which `P` stands for too.
ghost use Rattle.std.specs.Prelude.{◌≡◌, ◌++◌, IfOk, OnOk, map};
ghost use Rattle.sr_desugar.specs.Statements as statements;

use crate::simple::act;
use sr_core::{Action, Arm, Expr, Site, Statement};
use sr_lower_expr::{
    Scene, core_place, operation_number, own_formals, own_place, own_returned, scope_of_operation,
};
use sr_names::Spot;
use sr_outline::{receive_returned, receive_spots};
use sr_tables::{line_of, site_of};
use sr_value::{NoMemory, Row, Span};
use std::alloc::Global;

/// The assignments of formals to places, in order.
fn assigns(
    alloc: Global,
    span: Span,
    places: &[sr_tree::Expr],
    scene: &Scene,
) -> Result<Row<Statement>, NoMemory>
    ensures { IfOk result (λ code. code ≡ map (statements.receive_assign scene.now span) places.now) }
{
    let mut code = Row::new(alloc);
    for tree in places {
        let own = own_place(alloc, scene, Spot::of(tree.span()))?;
        let place = core_place(alloc, tree, scene)?;
        let value = Expr::Load(own);
        code.push(act(span, Action::Assign { place, value }))?;
    }
    Ok(code)
}

fn receive_arm(
    alloc: Global,
    span: Span,
    operation: Spot,
    places: &[sr_tree::Expr],
    scene: &Scene,
) -> Result<Arm, NoMemory>
    ensures { IfOk result (λ arm. arm ≡ statements.receive_arm scene.now span operation places.now) }
{
    let spots = receive_spots(alloc, places)?;
    let op = operation_number(scene, operation)?;
    let formals = own_formals(alloc, scene, spots.as_slice(), operation)?;
    let returned = receive_returned(span, operation, &scene.facts);
    let returned = own_returned(alloc, scene, returned, operation)?;
    Ok(Arm {
        place: line_of(span),
        op,
        formals,
        returned,
        guard: None,
        by: None,
    })
}

/// `receive f(v, w)` is an `in` with one arm that assigns its formals to `v` and then `w`.
pub fn receive(
    alloc: Global,
    span: Span,
    operation: Spot,
    places: &[sr_tree::Expr],
    scene: &Scene,
    sites: &mut Row<Site>,
) -> Result<Statement, NoMemory>
    ensures value { IfOk result (λ statement. statement ≡ (statements.receive_made scene.now span operation places.now).made) }
    ensures sites { OnOk result (sites.new ≡ sites.old ++ (statements.receive_made scene.now span operation places.now).sites) }
{
    let site = scene.tables.sites.number(Spot::of(span))?;
    let mut arms = Row::new(alloc);
    arms.push(receive_arm(alloc, span, operation, places, scene)?)?;
    let scope = scope_of_operation(&scene.tables.operations, operation);
    sites.push(site_of(alloc, scope, arms, false)?)?;
    let mut blocks = Row::new(alloc);
    blocks.push(assigns(alloc, span, places, scene)?)?;
    Ok(Statement::In {
        place: line_of(span),
        site,
        arms: blocks,
        otherwise: Row::new(alloc),
    })
}
