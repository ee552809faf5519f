ghost use Rattle.sr_frame.specs.Scenes.{here_of};
ghost use Rattle.sr_execute.specs.Executes.{Does, begun};

use crate::calls::{
    create, destroy, ensure_global, invoke, pass_res, pass_value, pass_var, put_default, send,
    take_reply_to, to_call,
};
use crate::co::{close_co, count_outs, give_back, open_co, set_turn, store_value, take_reply};
use crate::frame::Frame;
use crate::operators::{
    and_skip, apply_to_list, jump_unless, member_of, operate, operate_one, or_skip, to_cap,
    to_count, to_number, to_wait,
};
use crate::parts::{add_piece, add_repeated, make_array, part_at, part_at2, part_field};
use crate::places::{place_at, place_at2};
use crate::putting::put_number;
use crate::reading::{add_reading, begin_reading, end_read, number_read, read_next, store_read};
use crate::results::store_results;
use crate::services::{add_named, collect, end_service, forward, open_service, reply, select};
use crate::shapes::{
    make, make_formal, make_like, one_dimension, store_formal, store_in, string_shape,
    two_dimensions,
};
use crate::simple::{
    count, drop_list, drop_numbers, drop_value, make_machine, moment, place_field, put_arguments,
    put_constant, put_fixed, put_machine, put_no_pieces, put_no_values, put_operation,
    put_resource, put_spot, stop,
};
use crate::step::Step;
use crate::ticks::{each, quantify, repeat, tick, wake};
use crate::variables::{load, load_again, load_second, store, store_second};
use crate::writing::write;
use sr_code::Instruction;
use sr_frame::Scene;
use sr_value::NoMemory;

/// Carries out an instruction, up to a request.
// Each arm is one call: the function fills the temporaries of all its arms when it begins.
pub fn execute(
    scene: &Scene,
    frame: &mut Frame,
    instruction: &Instruction,
    next: usize,
) -> Result<Step, NoMemory>
    ensures { Does result frame.new (begun scene.now.names.now instruction.now (here_of scene.now) next frame.old.operands frame.old) }
{
    match instruction {
        Instruction::Constant(value) => put_constant(scene, frame, value, next),
        Instruction::Operation { whose, op } => put_operation(scene, frame, *whose, *op, next),
        Instruction::MyResource => put_resource(scene, frame, next),
        Instruction::MyMachine => put_machine(scene, frame, next),
        Instruction::Count { op } => count(*op),
        Instruction::MakeMachine => make_machine(),
        Instruction::Moment => moment(),
        Instruction::ToNumber => to_number(scene, frame, next),
        Instruction::ToCap => to_cap(scene, frame, next),
        Instruction::OperateOne(op) => operate_one(scene, frame, *op, next),
        Instruction::Operate(op) => operate(scene, frame, *op, next),
        Instruction::AndSkip { to } => and_skip(scene, frame, *to, next),
        Instruction::OrSkip { to } => or_skip(scene, frame, *to, next),
        Instruction::NoValues => put_no_values(scene, frame, next),
        Instruction::Collect => collect(scene, frame, next),
        Instruction::Apply(function) => apply_to_list(scene, frame, *function, next),
        Instruction::NoPieces => put_no_pieces(scene, frame, next),
        Instruction::AddPiece => add_piece(scene, frame, next),
        Instruction::AddRepeated => add_repeated(scene, frame, next),
        Instruction::MakeArray => make_array(scene, frame, next),
        Instruction::PartAt => part_at(scene, frame, next),
        Instruction::PartAt2 => part_at2(scene, frame, next),
        Instruction::PartField(field) => part_field(scene, frame, *field, next),
        Instruction::Member { op } => member_of(scene, frame, *op, next),
        Instruction::Spot(root) => put_spot(scene, frame, *root, next),
        Instruction::At => place_at(scene, frame, next),
        Instruction::At2 => place_at2(scene, frame, next),
        Instruction::Field(field) => place_field(scene, frame, *field, next),
        Instruction::Load => load(scene, frame, next),
        Instruction::ToCall => to_call(scene, frame, next),
        Instruction::PassValue => pass_value(scene, frame, next),
        Instruction::PassVar => pass_var(scene, frame, next),
        Instruction::PassRes => pass_res(scene, frame, next),
        Instruction::Invoke => invoke(scene.alloc, frame),
        Instruction::Take { .. } => take_reply_to(scene.alloc, frame),
        Instruction::StoreResults { to } => store_results(scene, frame, *to, next),
        Instruction::Default(returns) => put_default(scene, frame, returns, next),
        Instruction::EnsureGlobal { global } => ensure_global(scene, frame, *global, next),
        Instruction::Create { resource } => create(scene, frame, *resource, next),
        Instruction::TakeInstance => take_reply_to(scene.alloc, frame),
        Instruction::NoReadings => begin_reading(scene, frame, next),
        Instruction::AddReading(kind) => add_reading(scene, frame, *kind, next),
        Instruction::ReadNext { store, end } => read_next(scene, frame, *store, *end, next),
        Instruction::StoreRead => store_read(scene, frame, next),
        Instruction::NumberRead => number_read(scene, frame, next),
        Instruction::EndRead => end_read(scene, frame, next),
        Instruction::Jump { to } => Ok(Step::Goes((*to).min(next))),
        Instruction::FixedShape(shape) => put_fixed(scene, frame, shape, next),
        Instruction::StringShape => string_shape(scene, frame, next),
        Instruction::OneDimension => one_dimension(scene, frame, next),
        Instruction::TwoDimensions => two_dimensions(scene, frame, next),
        Instruction::Make { scope, var } => make(scene, frame, *scope, *var, next),
        Instruction::MakeLike { scope, var, shape } => make_like(
            scene, frame, *scope, *var, shape, next,
        ),
        Instruction::StoreIn { scope, var } => store_in(scene, frame, *scope, *var, next),
        Instruction::Arguments => put_arguments(scene, frame, next),
        Instruction::MakeFormal {
            scope,
            var,
            mode,
            shape,
        } => make_formal(scene, frame, *scope, *var, *mode, shape, next),
        Instruction::StoreFormal { scope, var, mode } => store_formal(
            scene, frame, *scope, *var, *mode, next,
        ),
        Instruction::DropList => drop_list(frame, next),
        Instruction::DropValue => drop_value(frame, next),
        Instruction::Send => send(scene, frame, next),
        Instruction::Forward => forward(scene, frame, next),
        Instruction::Store => store(scene, frame, next),
        Instruction::LoadAgain => load_again(scene, frame, next),
        Instruction::LoadSecond => load_second(scene, frame, next),
        Instruction::StoreSecond => store_second(scene, frame, next),
        Instruction::Write { line } => write(scene, frame, *line, next),
        Instruction::Number(number) => put_number(frame, *number, next),
        Instruction::Stop => stop(frame),
        Instruction::Destroy => destroy(scene, frame, next),
        Instruction::TakeDone => take_reply_to(scene.alloc, frame),
        Instruction::ToWait => to_wait(scene, frame, next),
        Instruction::Age => moment(),
        Instruction::Wake => wake(scene, frame, next),
        Instruction::Reply => reply(scene, frame, next),
        Instruction::Tick => tick(frame, next),
        Instruction::JumpUnless { to } => jump_unless(scene, frame, *to, next),
        Instruction::Again { to } => tick(frame, *to),
        Instruction::Quantify(direction) => quantify(scene, frame, *direction, next),
        Instruction::Each { var, head } => each(scene, frame, *var, *head, next),
        Instruction::DropNumbers => drop_numbers(frame, next),
        Instruction::ToCount => to_count(scene, frame, next),
        Instruction::Repeat { head } => repeat(scene, frame, *head, next),
        Instruction::AddNamed(named) => add_named(scene, frame, *named, next),
        Instruction::Select { site, .. } => select(scene.alloc, frame, *site),
        Instruction::OpenService { gives } => open_service(scene, frame, gives, next),
        Instruction::EndService => end_service(scene, frame, next),
        Instruction::OpenCo => open_co(scene, frame, next),
        Instruction::StartCall { .. } => invoke(scene.alloc, frame),
        Instruction::CountOuts => count_outs(scene, frame, next),
        Instruction::TakeReply { arms } => take_reply(scene, frame, arms, next),
        Instruction::SetTurn { vars } => set_turn(scene, frame, vars, next),
        Instruction::GiveBack { none } => give_back(scene, frame, *none, next),
        Instruction::StoreValue => store_value(scene, frame, next),
        Instruction::CloseCo => close_co(scene, frame, next),
    }
}
