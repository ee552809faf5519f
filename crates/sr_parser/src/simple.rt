ghost use Rattle.std.specs.Prelude.{◌≡◌, ◌<◌, length, IfOk};
ghost use Rattle.sr_parse_tokens.specs.Gives.{Gives};
ghost use Rattle.sr_parse_expr.specs.Reads.{ReadsUpTo};
ghost use Rattle.sr_program_reader.specs.StatementReaders.{assign_at, call_statement_at, create_statement_at, destroy_at, exchange_at, forward_at, named_statement_at, plain_call_at, receive_at, send_at, stop_at};

use crate::after::{expression_after, primary_after};
use crate::parts::{invocation, invoked, places, status};
use sr_parse_expr::expression::{create, primary};
use sr_parse_tokens::{ReadFail, name, next_is_sign, sign_after, word};
use sr_tree::{Expr, Sign, Statement, Token, Word};
use std::alloc::Global;

/// Reads `stop` and the status that it gives, where one stands.
#[tactic(auto, unfolding(sr_program_reader::specs::StatementReaders::stop_at))]
pub fn stop_statement(alloc: Global, tokens: &[Token]) -> Result<(Statement, &[Token]), ReadFail>
    ensures reads { ReadsUpTo (λ x. (x.0, x.1.now)) tokens.now result (λ r. stop_at r) }
    ensures shorter { IfOk result (λ x. length x.1.now < length tokens.now) }
{
    let (span, rest) = word(tokens, Word::Stop)?;
    let (status, rest) = status(alloc, rest)?;
    Ok((Statement::Stop { span, status }, rest))
}

/// Reads `call` and an invocation.
#[tactic(auto, unfolding(sr_program_reader::specs::StatementReaders::call_statement_at))]
pub fn call_statement(alloc: Global, tokens: &[Token]) -> Result<(Statement, &[Token]), ReadFail>
    ensures reads { ReadsUpTo (λ x. (x.0, x.1.now)) tokens.now result (λ r. call_statement_at r) }
    ensures shorter { IfOk result (λ x. length x.1.now < length tokens.now) }
{
    let (span, rest) = word(tokens, Word::Call)?;
    let (invocation, rest) = invocation(alloc, rest)?;
    let with_call = true;
    Ok((
        Statement::Call {
            span,
            with_call,
            invocation,
        },
        rest,
    ))
}

/// Reads `send` and an invocation.
#[tactic(auto, unfolding(sr_program_reader::specs::StatementReaders::send_at))]
pub fn send_statement(alloc: Global, tokens: &[Token]) -> Result<(Statement, &[Token]), ReadFail>
    ensures reads { ReadsUpTo (λ x. (x.0, x.1.now)) tokens.now result (λ r. send_at r) }
    ensures shorter { IfOk result (λ x. length x.1.now < length tokens.now) }
{
    let (span, rest) = word(tokens, Word::Send)?;
    let (invocation, rest) = invocation(alloc, rest)?;
    Ok((Statement::Send { span, invocation }, rest))
}

/// Reads `forward` and an invocation.
#[tactic(auto, unfolding(sr_program_reader::specs::StatementReaders::forward_at))]
pub fn forward_statement(alloc: Global, tokens: &[Token]) -> Result<(Statement, &[Token]), ReadFail>
    ensures reads { ReadsUpTo (λ x. (x.0, x.1.now)) tokens.now result (λ r. forward_at r) }
    ensures shorter { IfOk result (λ x. length x.1.now < length tokens.now) }
{
    let (span, rest) = word(tokens, Word::Forward)?;
    let (invocation, rest) = invocation(alloc, rest)?;
    Ok((Statement::Forward { span, invocation }, rest))
}

/// Reads `receive`, an operation and the places for its arguments.
#[tactic(auto, unfolding(sr_program_reader::specs::StatementReaders::receive_at))]
pub fn receive_statement(alloc: Global, tokens: &[Token]) -> Result<(Statement, &[Token]), ReadFail>
    ensures reads { ReadsUpTo (λ x. (x.0, x.1.now)) tokens.now result (λ r. receive_at r) }
    ensures shorter { IfOk result (λ x. length x.1.now < length tokens.now) }
{
    let (span, rest) = word(tokens, Word::Receive)?;
    let (operation, rest) = name(alloc, rest)?;
    let (places, rest) = places(alloc, rest)?;
    Ok((
        Statement::Receive {
            span,
            operation,
            places,
        },
        rest,
    ))
}

/// Reads `destroy` and what it destroys.
#[tactic(auto, unfolding(sr_program_reader::specs::StatementReaders::destroy_at))]
pub fn destroy_statement(alloc: Global, tokens: &[Token]) -> Result<(Statement, &[Token]), ReadFail>
    ensures reads { ReadsUpTo (λ x. (x.0, x.1.now)) tokens.now result (λ r. destroy_at r) }
    ensures shorter { IfOk result (λ x. length x.1.now < length tokens.now) }
{
    let (span, rest) = word(tokens, Word::Destroy)?;
    let (target, rest) = primary(alloc, rest)?;
    Ok((Statement::Destroy { span, target }, rest))
}

/// Reads the making of an instance or of a machine.
#[tactic(auto, unfolding(sr_program_reader::specs::StatementReaders::create_statement_at))]
pub fn create_statement(alloc: Global, tokens: &[Token]) -> Result<(Statement, &[Token]), ReadFail>
    ensures reads { ReadsUpTo (λ x. (x.0, x.1.now)) tokens.now result (λ r. create_statement_at r) }
    ensures shorter { IfOk result (λ x. length x.1.now < length tokens.now) }
{
    let (create, rest) = create(alloc, tokens)?;
    let span = create.span();
    Ok((Statement::Create { span, create }, rest))
}

/// Reads `:=` and a value after a place.
#[tactic(auto, unfolding(sr_program_reader::specs::StatementReaders::assign_at))]
fn assign(alloc: Global, place: Expr, tokens: &[Token]) -> Result<(Statement, &[Token]), ReadFail>
    ensures reads { ReadsUpTo (λ x. (x.0, x.1.now)) tokens.now result (λ r. assign_at r place) }
    ensures shorter { IfOk result (λ x. length x.1.now < length tokens.now) }
{
    let span = place.span();
    let (_, place, rest) = sign_after(place, tokens, Sign::Assign)?;
    let (place, value, rest) = expression_after(alloc, place, rest)?;
    Ok((Statement::Assign { span, place, value }, rest))
}

/// Reads `:=:` and a place after another.
#[tactic(auto, unfolding(sr_program_reader::specs::StatementReaders::exchange_at))]
fn exchange(alloc: Global, left: Expr, tokens: &[Token]) -> Result<(Statement, &[Token]), ReadFail>
    ensures reads { ReadsUpTo (λ x. (x.0, x.1.now)) tokens.now result (λ r. exchange_at r left) }
    ensures shorter { IfOk result (λ x. length x.1.now < length tokens.now) }
{
    let span = left.span();
    let (_, left, rest) = sign_after(left, tokens, Sign::Exchange)?;
    let (left, right, rest) = primary_after(alloc, left, rest)?;
    Ok((Statement::Exchange { span, left, right }, rest))
}

/// The statement that an invocation is.
#[tactic(auto, unfolding(sr_program_reader::specs::StatementReaders::plain_call_at))]
fn plain_call(primary: Expr, tokens: &[Token]) -> Result<(Statement, &[Token]), ReadFail>
    ensures reads { Gives (λ x. (x.0, x.1.now)) result (plain_call_at primary tokens.now) }
    ensures rest { IfOk result (λ x. x.1.now ≡ tokens.now) }
{
    let span = primary.span();
    let (invocation, rest) = invoked(primary, tokens)?;
    let with_call = false;
    Ok((
        Statement::Call {
            span,
            with_call,
            invocation,
        },
        rest,
    ))
}

/// Reads a statement that begins with a name.
#[tactic(auto, unfolding(sr_program_reader::specs::StatementReaders::named_statement_at, sr_program_reader::specs::StatementReaders::after_primary_at, sr_program_reader::specs::StatementReaders::increment_at, sr_program_reader::specs::StatementReaders::decrement_at))]
pub fn named_statement(alloc: Global, tokens: &[Token]) -> Result<(Statement, &[Token]), ReadFail>
    ensures reads { ReadsUpTo (λ x. (x.0, x.1.now)) tokens.now result (λ r. named_statement_at r) }
    ensures shorter { IfOk result (λ x. length x.1.now < length tokens.now) }
{
    let (primary, rest) = primary(alloc, tokens)?;
    if next_is_sign(rest, Sign::Assign) {
        assign(alloc, primary, rest)
    } else if next_is_sign(rest, Sign::Exchange) {
        exchange(alloc, primary, rest)
    } else if next_is_sign(rest, Sign::Increment) {
        let span = primary.span();
        let (_, place, rest) = sign_after(primary, rest, Sign::Increment)?;
        Ok((Statement::Increment { span, place }, rest))
    } else if next_is_sign(rest, Sign::Decrement) {
        let span = primary.span();
        let (_, place, rest) = sign_after(primary, rest, Sign::Decrement)?;
        Ok((Statement::Decrement { span, place }, rest))
    } else {
        plain_call(primary, rest)
    }
}
