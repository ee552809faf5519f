ghost use Rattle.std.specs.Prelude.{◌≡◌, ◌<◌, ◌≤◌, length, IfOk};
ghost use Rattle.sr_reader.specs.Reader.{next_is};
ghost use Rattle.sr_parser.specs.Reads.{ReadsStatementUpTo};
ghost use Rattle.sr_program_reader.specs.ComponentReaders.{begins_component, component_at, file_at, global_at, global_body_at, resource_at, split_resource_at, whole_resource_at};

use crate::after::{let_go, word_after};
use crate::by_value::{optional_value_formals_after, value_formals};
use crate::ends::{end_after, nothing_more, this_name, this_name_after};
use crate::items::{PlainItems, resource_items_after};
use crate::lists::{Listed, list};
use crate::spec::{GlobalSpec, ResourceSpec};
use sr_parse_tokens::{ReadFail, name, next_is_sign, next_is_word, word};
use sr_tree::{Component, File, Item, Name, Sign, SpecItem, Token, Word};
use sr_value::{Row, Span};
use std::alloc::Global;

/// Reads what stands after the name of a resource that isn't split.
#[tactic(auto, unfolding(sr_program_reader::specs::ComponentReaders::whole_resource_at))]
fn whole_resource(
    alloc: Global,
    span: Span,
    name: Name,
    tokens: &[Token],
) -> Result<(Component, &[Token]), ReadFail>
    ensures reads { ReadsStatementUpTo (λ x. (x.0, x.1.now)) tokens.now result (λ r. whole_resource_at r span name) }
    ensures shorter { IfOk result (λ x. length x.1.now < length tokens.now) }
{
    let (formals, rest) = value_formals(alloc, tokens)?;
    let (formals, items, rest) = resource_items_after(alloc, formals, rest)?;
    let (_, (formals, items), rest) = end_after((formals, items), &name, rest)?;
    Ok((
        Component::Resource {
            span,
            name,
            formals,
            items,
        },
        rest,
    ))
}

/// Reads what stands after the name of a resource that is split.
#[tactic(auto, unfolding(sr_program_reader::specs::ComponentReaders::split_resource_at, sr_program_reader::specs::ComponentReaders::resource_spec_at))]
fn split_resource(
    alloc: Global,
    span: Span,
    name: Name,
    tokens: &[Token],
) -> Result<(Component, &[Token]), ReadFail>
    ensures reads { ReadsStatementUpTo (λ x. (x.0, x.1.now)) tokens.now result (λ r. split_resource_at r span name) }
    ensures shorter { IfOk result (λ x. length x.1.now < length tokens.now) }
{
    let (spec, rest) = list::<SpecItem, ResourceSpec>(alloc, tokens)?;
    let (_, spec, rest) = word_after(spec, rest, Word::Body)?;
    let (_, spec, rest) = this_name_after(spec, &name, rest)?;
    let (spec, formals, rest) = optional_value_formals_after(alloc, spec, rest)?;
    let (before, items, rest) = resource_items_after(alloc, (spec, formals), rest)?;
    let (_, (before, items), rest) = end_after((before, items), &name, rest)?;
    let (spec, formals) = before;
    Ok((
        Component::SplitResource {
            span,
            name,
            spec,
            formals,
            items,
        },
        rest,
    ))
}

/// Reads the body of a global after a tree, where one stands.
#[tactic(auto, unfolding(sr_program_reader::specs::ComponentReaders::global_body_at, sr_program_reader::specs::ComponentReaders::global_items_at))]
fn global_body_after<'a, T: Drop>(
    alloc: Global,
    tree: T,
    name: &Name,
    tokens: &'a [Token],
) -> Result<(T, Option<Row<Item>>, &'a [Token]), ReadFail>
    ensures reads { ReadsStatementUpTo (λ x. (x.1, x.2.now)) tokens.now result (λ r. global_body_at r name.now) }
    ensures kept { IfOk result (λ x. x.0 ≡ tree) }
    ensures shorter { IfOk result (λ x. length x.2.now ≤ length tokens.now) }
{
    if next_is_word(tokens, Word::Body) {
        let (_, rest) = word(tokens, Word::Body)?;
        let (_, rest) = this_name(name, rest)?;
        let (items, rest) = list::<Item, PlainItems>(alloc, rest)?;
        Ok((tree, Some(items), rest))
    } else {
        Ok((tree, None, tokens))
    }
}

/// Reads a global.
#[tactic(auto, unfolding(sr_program_reader::specs::ComponentReaders::global_at, sr_program_reader::specs::ComponentReaders::global_spec_at))]
fn global(alloc: Global, tokens: &[Token]) -> Result<(Component, &[Token]), ReadFail>
    ensures reads { ReadsStatementUpTo (λ x. (x.0, x.1.now)) tokens.now result (λ r. global_at r) }
    ensures shorter { IfOk result (λ x. length x.1.now < length tokens.now) }
{
    let (span, rest) = word(tokens, Word::Global)?;
    let (name, rest) = name(alloc, rest)?;
    let (spec, rest) = list::<SpecItem, GlobalSpec>(alloc, rest)?;
    let (spec, body, rest) = global_body_after(alloc, spec, &name, rest)?;
    let (_, (spec, body), rest) = end_after((spec, body), &name, rest)?;
    Ok((
        Component::Global {
            span,
            name,
            spec,
            body,
        },
        rest,
    ))
}

/// Whether the next token begins a component.
fn next_is_component(tokens: &[Token]) -> bool
    ensures { result ≡ next_is (λ t. begins_component t.kind) tokens.now }
{
    next_is_word(tokens, Word::Resource) || next_is_word(tokens, Word::Global)
}

/// What may stand in a file.
struct Components;

impl Listed<Component> for Components {
    ghost use Rattle.sr_expr_reader.proofs.Yields.{steps-readers};
    ghost use Rattle.sr_program_reader.specs.StatementReaders.{statement_readers};

    ghost begins = { λ t. begins_component t.kind };

    ghost reader = { λ k. component_at (statement_readers k) };

    ghost steps = { λ k. (statement_readers k).types.expressions.steps };

    ghost bounded = { steps-readers };

    fn next_begins(tokens: &[Token]) -> bool {
        next_is_component(tokens)
    }

    #[tactic(auto, unfolding(sr_program_reader::specs::ComponentReaders::component_at, sr_program_reader::specs::ComponentReaders::resource_at))]
    fn item(alloc: Global, tokens: &[Token]) -> Result<(Component, &[Token]), ReadFail> {
        if next_is_word(tokens, Word::Global) {
            global(alloc, tokens)
        } else {
            let (span, rest) = word(tokens, Word::Resource)?;
            let (name, rest) = name(alloc, rest)?;
            if next_is_sign(rest, Sign::OpenParen) {
                whole_resource(alloc, span, name, rest)
            } else {
                split_resource(alloc, span, name, rest)
            }
        }
    }
}

/// Reads a file, up to the end of the tokens.
#[tactic(auto, unfolding(sr_program_reader::specs::ComponentReaders::file_at))]
pub fn file(alloc: Global, tokens: &[Token]) -> Result<(File, &[Token]), ReadFail>
    ensures reads { ReadsStatementUpTo (λ x. (x.0, x.1.now)) tokens.now result (λ r. file_at r) }
{
    let (components, rest) = list::<Component, Components>(alloc, tokens)?;
    match nothing_more(rest) {
        Ok((_, rest)) => Ok((File { components }, rest)),
        Err(fail) => {
            let_go(components);
            Err(fail)
        }
    }
}
