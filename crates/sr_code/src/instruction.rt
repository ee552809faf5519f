use sr_core::{
    Direction, FormalShape, Function, Mode, Named, OperationOwner, Readable, Root, Scope,
};
use sr_value::{Operator, Row, Shape, Value};

/// An instruction of the flat code. `to` and the like are addresses. An instruction that neither ticks nor asks
/// never goes to a higher address than the next one's.
#[derive(Drop)]
pub enum Instruction {
    /// Puts a value.
    Constant(Value),
    /// Puts the capability of an operation.
    Operation {
        whose: OperationOwner,
        op: u32,
    },
    /// Puts the capability of the instance.
    MyResource,
    /// Puts the capability of the machine.
    MyMachine,
    /// Asks how many invocations of an operation are pending.
    Count {
        op: u32,
    },
    /// Asks for a new machine.
    MakeMachine,
    /// Asks for the moment of the machine.
    Moment,
    /// A value becomes a number.
    ToNumber,
    /// A value becomes a capability.
    ToCap,
    /// A value becomes the result of an operator.
    OperateOne(Operator),
    /// Two values become the result of an operator.
    Operate(Operator),
    /// Goes to `to` with false where the value is false. A true value stays.
    AndSkip {
        to: usize,
    },
    /// Goes to `to` with true where the value is true. A false value stays.
    OrSkip {
        to: usize,
    },
    /// Puts an empty list.
    NoValues,
    /// A value joins the list.
    Collect,
    /// A list becomes the result of a predefined function.
    Apply(Function),
    /// Puts an empty bracketed list.
    NoPieces,
    /// A value joins the bracketed list.
    AddPiece,
    /// A value joins the bracketed list, as often as a number says.
    AddRepeated,
    /// A bracketed list becomes an array.
    MakeArray,
    /// A value becomes its part at a number.
    PartAt,
    /// A value becomes its part at two numbers.
    PartAt2,
    /// A value becomes one of its fields.
    PartField(u32),
    /// A capability becomes that of an operation of its instance.
    Member {
        op: u32,
    },
    /// Puts a place: a whole variable.
    Spot(Root),
    /// A place becomes its part at a number.
    At,
    /// A place becomes its part at two numbers.
    At2,
    /// A place becomes one of its fields.
    Field(u32),
    /// A place becomes what it holds; asks where it is shared.
    Load,
    /// A value becomes a call of that capability, without arguments.
    ToCall,
    /// A value joins the call as an argument.
    PassValue,
    /// A place joins the call for the result, and what it holds as an argument; asks where it is shared.
    PassVar,
    /// A place joins the call for the result.
    PassRes,
    /// Asks for the invocation of a call; its number and the places for its results stay.
    Invoke,
    /// Asks for the reply. Its results become a list; where it has none, the places go, and it goes to `none`.
    Take {
        none: usize,
    },
    /// Stores the results in their places. It stores at once in own variables. After a store that asks it begins
    /// again with the rest. At last the value is put, and it goes to `to`.
    StoreResults {
        to: usize,
    },
    /// Puts the default of what a call of `noop` returns.
    Default(Option<Shape>),
    /// Asks for a global until it is ready; the machine's capability stays.
    EnsureGlobal {
        global: u32,
    },
    /// Asks for a new instance, with a list and on a machine; its number stays.
    Create {
        resource: u32,
    },
    /// Asks for the answer of a new instance: its capability.
    TakeInstance,
    /// Begins a `read`.
    NoReadings,
    /// A place joins the `read`.
    AddReading(Readable),
    /// Asks for the next item, where a place is left. With the item it goes to `store`, at the end of the input to
    /// `end`.
    ReadNext {
        store: usize,
        end: usize,
    },
    /// Stores an item in the next place of the `read`; asks where it is shared.
    StoreRead,
    /// A `read` becomes the number of its items.
    NumberRead,
    /// A `read` at the end of the input becomes the number of its items, or -1 where it has none.
    EndRead,
    /// Goes to `to`.
    Jump {
        to: usize,
    },
    /// Puts a shape.
    FixedShape(Shape),
    /// A number becomes the shape of strings of that length.
    StringShape,
    /// A shape becomes that of arrays of one dimension, between two numbers.
    OneDimension,
    /// A shape becomes that of arrays of two dimensions, between two numbers each.
    TwoDimensions,
    /// Makes a variable of a shape; asks where it is shared.
    Make {
        scope: Scope,
        var: u32,
    },
    /// Makes a variable of this shape with the bounds of a value, which stays; asks where it is shared.
    MakeLike {
        scope: Scope,
        var: u32,
        shape: Shape,
    },
    /// Stores a value in a whole variable; asks where it is shared.
    StoreIn {
        scope: Scope,
        var: u32,
    },
    /// Puts the arguments that the process was made with.
    Arguments,
    /// Makes a formal, whose argument is the next of the list; asks where it is shared.
    MakeFormal {
        scope: Scope,
        var: u32,
        mode: Mode,
        shape: FormalShape,
    },
    /// Stores the next argument of the list in its formal; asks where it is shared.
    StoreFormal {
        scope: Scope,
        var: u32,
        mode: Mode,
    },
    /// Drops a list.
    DropList,
    /// Drops a value.
    DropValue,
    /// Asks for the invocation of a call, for whose reply nobody waits.
    Send,
    /// Hands the duty to answer to a call, or only sends it where the service has answered.
    Forward,
    /// Stores a value in a place; asks where it is shared.
    Store,
    /// Puts what the place holds, which stays; asks where it is shared.
    LoadAgain,
    /// Puts what the second place holds; both stay. It asks where that is shared.
    LoadSecond,
    /// Stores a value in the second place, which goes; asks where it is shared.
    StoreSecond,
    /// Asks to write a list, at the end with a newline where it is a `line`.
    Write {
        line: bool,
    },
    /// Puts a number.
    Number(i32),
    /// Asks to stop the run, for good.
    Stop,
    /// Asks to end an instance; the number of its last invocation stays.
    Destroy,
    /// Asks for a reply, and drops it.
    TakeDone,
    /// A number becomes a time to wait.
    ToWait,
    /// Asks for the moment of the machine, as a number.
    Age,
    /// Asks to go on at a moment: a time to wait, and a moment after which.
    Wake,
    /// Gives the present results, where none were given.
    Reply,
    /// One statement begun.
    Tick,
    /// Goes to `to` where a value is false.
    JumpUnless {
        to: usize,
    },
    /// One tick; goes to `to`, which may be higher.
    Again {
        to: usize,
    },
    /// Three numbers become the values of a quantifier.
    Quantify(Direction),
    /// Where a value is left, one tick; the variable gets it, and it goes to `head`, which may be higher.
    Each {
        var: u32,
        head: usize,
    },
    /// Drops the values of a quantifier.
    DropNumbers,
    /// A number becomes a count.
    ToCount,
    /// Where the count isn't 0, one tick; it gets less, and it goes to `head`, which may be higher.
    Repeat {
        head: usize,
    },
    /// What a guard names of the process joins the list.
    AddNamed(Named),
    /// Asks for an invocation of one of `count` arms, or for `else`, with a list. It goes to the arm that was chosen,
    /// to `otherwise`, or, where no address of the arm is there, to `end`.
    Select {
        site: u32,
        count: usize,
        has_else: bool,
        arms: Row<usize>,
        otherwise: usize,
        end: usize,
    },
    /// Begins to service the invocation that was chosen; its arguments become a list.
    OpenService {
        gives: Row<u32>,
    },
    /// Goes back to the service around.
    EndService,
    /// Begins a `co`: what is out of the one around waits.
    OpenCo,
    /// Asks for the invocation of a call of a `co`, and notes it with the variables of its quantifiers.
    StartCall {
        arm: u32,
        vars: Row<u32>,
        has_place: bool,
    },
    /// Puts how many invocations are out.
    CountOuts,
    /// Where the count isn't 0, it gets less: asks for the next reply, and goes to its arm.
    TakeReply {
        arms: Row<usize>,
    },
    /// The quantifiers' variables get their values of the invocation that was answered.
    SetTurn {
        vars: Row<u32>,
    },
    /// The results of the reply become a list; where it has none, it goes to `none`.
    GiveBack {
        none: usize,
    },
    /// Stores a value in the place of the invocation that was answered, where it has one; asks where it is shared.
    StoreValue,
    /// Ends a `co`: its count goes.
    CloseCo,
}
