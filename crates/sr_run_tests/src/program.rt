use sr_core::{Action, Body, Component, Core, Expr, Kind, Leaf, Statement};
use sr_value::{NoMemory, Place, Row, Text, Value};
use std::alloc::Global;

/// The place of all that the program has.
pub const PLACE: Place = Place { file: 0, line: 1 };

/// A program without components.
pub fn no_program(alloc: Global) -> Core {
    Core {
        components: Row::new(alloc),
        operations: Row::new(alloc),
        procs: Row::new(alloc),
        sites: Row::new(alloc),
        names: Row::new(alloc),
    }
}

/// Adds a `write` of a value.
fn add_write(alloc: Global, leaf: Leaf, block: &mut Row<Statement>) -> Result<(), NoMemory> {
    let mut args = Row::new(alloc);
    args.push(Expr::Leaf(leaf))?;
    block.push(Statement::Act {
        place: PLACE,
        action: Action::Write { args, line: true },
    })
}

/// Adds a resource whose initial code writes a number.
pub fn add_main(alloc: Global, components: &mut Row<Component>) -> Result<(), NoMemory> {
    let mut block = Row::new(alloc);
    add_write(alloc, Leaf::Constant(Value::Int(7)), &mut block)?;
    add_resource(alloc, block, components)
}

/// Adds a resource whose initial code writes the moment and waits until so many milliseconds have gone by.
pub fn add_nap(alloc: Global, time: i32, components: &mut Row<Component>) -> Result<(), NoMemory> {
    let mut block = Row::new(alloc);
    add_write(alloc, Leaf::Moment, &mut block)?;
    block.push(Statement::Act {
        place: PLACE,
        action: Action::Until {
            time: Expr::Leaf(Leaf::Constant(Value::Int(time))),
        },
    })?;
    add_resource(alloc, block, components)
}

/// Adds a resource with this initial code.
fn add_resource(
    alloc: Global,
    block: Row<Statement>,
    components: &mut Row<Component>,
) -> Result<(), NoMemory> {
    components.push(Component {
        name: Text::new(alloc),
        place: PLACE,
        kind: Kind::Resource,
        formals: Row::new(alloc),
        imports: Row::new(alloc),
        needs: Row::new(alloc),
        initial: Body { owns: 0, block },
        final_code: None,
    })
}
