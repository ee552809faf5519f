ghost use Rattle.std.specs.Prelude.{◌≡◌, IfOk};

use sr_ask::{Gives, Located, Out, Own, Pick, Service};
use sr_core::Piece;
use sr_value::{Duplicate, NoMemory, Row};
use std::alloc::Global;

fn copied_variable(alloc: Global, own: &Option<Own>) -> Result<Option<Own>, NoMemory>
    ensures { IfOk result (λ copy. copy ≡ own.now) }
{
    match own {
        Some(held) => Ok(Some(copied_own(alloc, held)?)),
        None => Ok(None),
    }
}

fn copied_own(alloc: Global, own: &Own) -> Result<Own, NoMemory>
    ensures { IfOk result (λ copy. copy ≡ own.now) }
{
    let shape = own.shape.copy(alloc)?;
    let value = own.value.copy(alloc)?;
    Ok(Own { shape, value })
}

/// A copy of own variables.
pub fn copied_variables(alloc: Global, own: &Row<Option<Own>>) -> Result<Row<Option<Own>>, NoMemory>
    ensures { IfOk result (λ copy. copy ≡ own.now) }
{
    let mut copies = Row::new(alloc);
    for held in own.as_slice() {
        copies.push(copied_variable(alloc, held)?)?;
    }
    Ok(copies)
}

/// A copy of what a reply gives.
pub fn copied_gives(alloc: Global, gives: &Gives) -> Result<Gives, NoMemory>
    ensures { IfOk result (λ copy. copy ≡ gives.now) }
{
    match gives {
        Gives::Values(vars) => Ok(Gives::Values(vars.copy(alloc)?)),
        Gives::Instance => Ok(Gives::Instance),
    }
}

/// A copy of a service.
pub fn copied_service(alloc: Global, service: &Service) -> Result<Service, NoMemory>
    ensures { IfOk result (λ copy. copy ≡ service.now) }
{
    Ok(Service {
        held: service.held,
        back: service.back,
        answered: service.answered,
        gives: copied_gives(alloc, &service.gives)?,
    })
}

fn copied_place(alloc: Global, place: &Option<Located>) -> Result<Option<Located>, NoMemory>
    ensures { IfOk result (λ copy. copy ≡ place.now) }
{
    match place {
        Some(place) => Ok(Some(place.copy(alloc)?)),
        None => Ok(None),
    }
}

/// A copy of an invocation that is out.
pub fn copied_out(alloc: Global, out: &Out) -> Result<Out, NoMemory>
    ensures { IfOk result (λ copy. copy ≡ out.now) }
{
    let turn = out.turn.copy(alloc)?;
    let backs = out.backs.copy(alloc)?;
    Ok(Out {
        id: out.id,
        arm: out.arm,
        place: copied_place(alloc, &out.place)?,
        backs,
        turn,
    })
}

/// A copy of an invocation that was chosen.
pub fn copied_pick(alloc: Global, pick: &Pick) -> Result<Pick, NoMemory>
    ensures { IfOk result (λ copy. copy ≡ pick.now) }
{
    Ok(Pick {
        id: pick.id,
        arm: pick.arm,
        args: pick.args.copy(alloc)?,
        back: pick.back,
    })
}

fn copied_piece(alloc: Global, piece: &Piece) -> Result<Piece, NoMemory>
    ensures { IfOk result (λ copy. copy ≡ piece.now) }
{
    Ok(Piece {
        count: piece.count,
        value: piece.value.copy(alloc)?,
    })
}

/// A copy of a bracketed list.
pub fn copied_pieces(alloc: Global, pieces: &Row<Piece>) -> Result<Row<Piece>, NoMemory>
    ensures { IfOk result (λ copy. copy ≡ pieces.now) }
{
    let mut copies = Row::new(alloc);
    for piece in pieces.as_slice() {
        copies.push(copied_piece(alloc, piece)?)?;
    }
    Ok(copies)
}
