ghost use Rattle.std.specs.Prelude.{◌≡◌};
ghost use Rattle.sr_value.specs.Shapes.{default_value};
ghost use Rattle.sr_meaning.specs.Here.{settle};
ghost use Rattle.sr_meaning.specs.Places.{store_place};
ghost use Rattle.sr_meaning.specs.Statements.{declaration_meaning, dims_shape, first_value, item_shape, make, setup_meaning, shape_meaning, spot_in};
ghost use Rattle.sr_interpreter_expr.specs.Interpreters.{Agrees, here_of, stage_of};
ghost use Rattle.sr_ask.specs.Places.{string_of_length, whole};

use sr_ask::{Located, Own, Request, Spot};
use sr_core::{Declaration, DimsExpr, Expr, ItemShape, Range, Scope, Setup, ShapeExpr};
use sr_frame::bounded_by;
use sr_interpreter_expr::{
    HasCore, Interpreter, IsDone, Scene, Stop, ask, evaluate, failed, number_of, put_own, store,
};
use sr_value::{Dims, Duplicate, Fault, Row, Shape, Shared, Value, ValueFail, default_of};

/// A string of at most so many bytes; E6 below 0.
fn string_shape<C: HasCore>(
    scene: &Scene<C>,
    interpreter: &Interpreter,
    most: i32,
) -> Result<Shape, Stop>
    ensures { Agrees (settle (string_of_length most) (here_of C.core_of scene.now) (stage_of interpreter.now)) result (stage_of interpreter.now) }
{
    match u32::try_from(most) {
        Ok(most) => Ok(Shape::Str { most }),
        Err(_) => failed(scene, interpreter, Fault::Range),
    }
}

/// The type after the dimensions.
fn item_shape<C: HasCore>(
    scene: &Scene<C>,
    interpreter: &mut Interpreter,
    item: &ItemShape,
) -> Result<Shape, Stop>
    ensures { Agrees (item_shape item.now (here_of C.core_of scene.now) (stage_of interpreter.old)) result (stage_of interpreter.new) }
{
    match item {
        ItemShape::Fixed(shape) => Ok(shape.copy(scene.alloc)?),
        ItemShape::Str { most } => {
            let most = number_of(scene, interpreter, most)?;
            string_shape(scene, interpreter, most)
        }
    }
}

/// An array of one dimension.
fn row_shape<C: HasCore>(
    scene: &Scene<C>,
    interpreter: &mut Interpreter,
    range: &Range,
    item: &ItemShape,
) -> Result<Shape, Stop>
    ensures { Agrees (dims_shape (DimsExpr.One range.now) item.now (here_of C.core_of scene.now) (stage_of interpreter.old)) result (stage_of interpreter.new) }
{
    let lo = number_of(scene, interpreter, &range.lo)?;
    let hi = number_of(scene, interpreter, &range.hi)?;
    let item = item_shape(scene, interpreter, item)?;
    Ok(Shape::Arr {
        dims: Dims::One { lo, hi },
        item: Shared::new(scene.alloc, item)?,
    })
}

/// An array of two dimensions.
fn table_shape<C: HasCore>(
    scene: &Scene<C>,
    interpreter: &mut Interpreter,
    rows: &Range,
    columns: &Range,
    item: &ItemShape,
) -> Result<Shape, Stop>
    ensures { Agrees (dims_shape (DimsExpr.Two rows.now columns.now) item.now (here_of C.core_of scene.now) (stage_of interpreter.old)) result (stage_of interpreter.new) }
{
    let lo = number_of(scene, interpreter, &rows.lo)?;
    let hi = number_of(scene, interpreter, &rows.hi)?;
    let lo2 = number_of(scene, interpreter, &columns.lo)?;
    let hi2 = number_of(scene, interpreter, &columns.hi)?;
    let item = item_shape(scene, interpreter, item)?;
    Ok(Shape::Arr {
        dims: Dims::Two { lo, hi, lo2, hi2 },
        item: Shared::new(scene.alloc, item)?,
    })
}

/// The type that a declaration writes: the bounds from left to right, and then the length of a string.
fn shape_of<C: HasCore>(
    scene: &Scene<C>,
    interpreter: &mut Interpreter,
    shape: &ShapeExpr,
) -> Result<Shape, Stop>
    ensures { Agrees (shape_meaning shape.now (here_of C.core_of scene.now) (stage_of interpreter.old)) result (stage_of interpreter.new) }
{
    match &shape.dims {
        DimsExpr::None => item_shape(scene, interpreter, &shape.item),
        DimsExpr::One(range) => row_shape(scene, interpreter, range, &shape.item),
        DimsExpr::Two(rows, columns) => table_shape(scene, interpreter, rows, columns, &shape.item),
    }
}

/// The default of a type, or its fault.
fn default_for<C: HasCore>(
    scene: &Scene<C>,
    interpreter: &Interpreter,
    shape: &Shape,
) -> Result<Value, Stop>
    ensures { Agrees (settle (default_value shape.now) (here_of C.core_of scene.now) (stage_of interpreter.now)) result (stage_of interpreter.now) }
{
    match default_of(scene.alloc, shape) {
        Ok(value) => Ok(value),
        Err(ValueFail::Fault(fault)) => failed(scene, interpreter, fault),
        Err(ValueFail::NoMemory) => Err(Stop::NoMemory),
    }
}

/// Makes an own variable with its default.
fn make_own<C: HasCore>(
    scene: &Scene<C>,
    interpreter: &mut Interpreter,
    var: u32,
    shape: Shape,
) -> Result<(), Stop>
    ensures { Agrees (make (Spot.Own var) shape (here_of C.core_of scene.now) (stage_of interpreter.old)) result (stage_of interpreter.new) }
{
    let value = default_for(scene, interpreter, &shape)?;
    put_own(interpreter, var, Own { shape, value });
    Ok(())
}

/// Makes a variable: an own one with its default, a shared one by a request.
pub fn make<C: HasCore>(
    scene: &Scene<C>,
    interpreter: &mut Interpreter,
    spot: Spot,
    shape: Shape,
) -> Result<(), Stop>
    ensures { Agrees (make spot shape (here_of C.core_of scene.now) (stage_of interpreter.old)) result (stage_of interpreter.new) }
{
    match spot {
        Spot::Own(var) => make_own(scene, interpreter, var, shape),
        Spot::Shared { block, var } => {
            ask(
                scene,
                interpreter,
                &IsDone,
                Request::Declare { block, var, shape },
            )
        }
    }
}

/// The variable of a number, by who owns it.
pub fn spot_in<C: HasCore>(scene: &Scene<C>, scope: Scope, var: u32) -> Spot
    ensures { result ≡ spot_in scope var (here_of C.core_of scene.now) }
{
    match scope {
        Scope::Own => Spot::Own(var),
        Scope::Shared => Spot::Shared {
            block: scene.start.instance,
            var,
        },
    }
}

/// Stores in the whole of a variable.
pub fn store_whole<C: HasCore>(
    scene: &Scene<C>,
    interpreter: &mut Interpreter,
    spot: Spot,
    value: Value,
) -> Result<(), Stop>
    ensures { Agrees (store_place (whole spot) value (here_of C.core_of scene.now) (stage_of interpreter.old)) result (stage_of interpreter.new) }
{
    let place = Located {
        spot,
        path: Row::new(scene.alloc),
    };
    store(scene, interpreter, &place, value)
}

/// Stores the value that a declaration writes, where it writes one.
fn store_first<C: HasCore>(
    scene: &Scene<C>,
    interpreter: &mut Interpreter,
    value: &Option<Expr>,
    spot: Spot,
) -> Result<(), Stop>
    ensures { Agrees (first_value value.now spot (here_of C.core_of scene.now) (stage_of interpreter.old)) result (stage_of interpreter.new) }
{
    match value {
        None => Ok(()),
        Some(expr) => {
            let value = evaluate(scene, interpreter, expr)?;
            store_whole(scene, interpreter, spot, value)
        }
    }
}

/// The bounds, the variable, and then its value.
fn set_up_typed<C: HasCore>(
    scene: &Scene<C>,
    interpreter: &mut Interpreter,
    shape: &ShapeExpr,
    value: &Option<Expr>,
    spot: Spot,
) -> Result<(), Stop>
    ensures { Agrees (setup_meaning (Setup.Typed shape.now value.now) spot (here_of C.core_of scene.now) (stage_of interpreter.old)) result (stage_of interpreter.new) }
{
    let found = shape_of(scene, interpreter, shape)?;
    make(scene, interpreter, spot, found)?;
    store_first(scene, interpreter, value, spot)
}

/// The value, the variable with the value's bounds, and the store.
fn set_up_untyped<C: HasCore>(
    scene: &Scene<C>,
    interpreter: &mut Interpreter,
    shape: &Shape,
    expr: &Expr,
    spot: Spot,
) -> Result<(), Stop>
    ensures { Agrees (setup_meaning (Setup.Untyped shape.now expr.now) spot (here_of C.core_of scene.now) (stage_of interpreter.old)) result (stage_of interpreter.new) }
{
    let value = evaluate(scene, interpreter, expr)?;
    let found = bounded_by(scene.alloc, shape, &value)?;
    make(scene, interpreter, spot, found)?;
    store_whole(scene, interpreter, spot, value)
}

/// What a declaration asks.
pub fn declare<C: HasCore>(
    scene: &Scene<C>,
    interpreter: &mut Interpreter,
    declaration: &Declaration,
) -> Result<(), Stop>
    ensures { Agrees (declaration_meaning declaration.now (here_of C.core_of scene.now) (stage_of interpreter.old)) result (stage_of interpreter.new) }
{
    let spot = spot_in(scene, declaration.scope, declaration.var);
    match &declaration.setup {
        Setup::Typed { shape, value } => set_up_typed(scene, interpreter, shape, value, spot),
        Setup::Untyped { shape, value } => set_up_untyped(scene, interpreter, shape, value, spot),
    }
}
