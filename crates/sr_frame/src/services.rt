ghost use Rattle.std.specs.Prelude.{◌≡◌, IfOk};
ghost use Rattle.sr_ask.specs.Places.{whole};
ghost use Rattle.sr_ask.specs.Replies.{gives_now};
ghost use Rattle.sr_frame.specs.Scenes.{here_of};
ghost use Rattle.sr_frame.specs.Services.{service_with};

use crate::scene::Scene;
use crate::variables::own_copies;
use sr_ask::{Gives, Located, Own, Service, Spot, Start};
use sr_value::{Cap, NoMemory, Row, Value};
use std::alloc::Global;

/// A whole variable.
pub fn whole(alloc: Global, spot: Spot) -> Located
    ensures { result ≡ whole spot }
{
    Located {
        spot,
        path: Row::new(alloc),
    }
}

/// The service of the invocation that a process was made for.
pub fn service_with(start: &Start, gives: Gives) -> Service
    ensures { result ≡ service_with start.now gives }
{
    Service {
        held: start.process,
        back: start.back,
        answered: false,
        gives,
    }
}

/// What a reply gives now.
pub fn results_now(
    scene: &Scene,
    gives: &Gives,
    own: &Row<Option<Own>>,
) -> Result<Row<Value>, NoMemory>
    ensures { IfOk result (λ values. values ≡ gives_now gives.now own.now (here_of scene.now)) }
{
    match gives {
        Gives::Values(vars) => own_copies(scene.alloc, own, vars.as_slice()),
        Gives::Instance => {
            let mut values = Row::new(scene.alloc);
            values.push(Value::Capa(Cap::Res(scene.start.instance)))?;
            Ok(values)
        }
    }
}
