ghost use Rattle.std.specs.Prelude.{ℕ, List};
ghost use Rattle.std.specs.List.{IsDistinct};
ghost use Rattle.sr_value.specs.declared.place.Span.{Span};
ghost use Rattle.sr_tree.specs.Components.{Spells};
ghost use Rattle.sr_tree.specs.declared.component.File.{File};
ghost use Rattle.sr_tree.specs.declared.token.Token.{Token};
ghost use Rattle.sr_order.specs.Order.{Picks, Ascend, token_spans, same_place};
ghost use Rattle.sr_order.specs.Spans.{statement_spans, operation_spans, component_spans};
ghost use Rattle.sr_order.specs.Names.{file_names};

/// A law of the grammar: each statement of a file has the span of one of the file's tokens, and the statements have
/// them in the order of the tokens. The same holds of operations and of components.
pub fn spans_are_picked()
    ensures statements { (tokens : List Token) (file : File) → Spells tokens file → Picks (statement_spans file) tokens }
    ensures operations { (tokens : List Token) (file : File) → Spells tokens file → Picks (operation_spans file) tokens }
    ensures components { (tokens : List Token) (file : File) → Spells tokens file → Picks (component_spans file) tokens }
{}

/// A law of spans: where each token of a file begins after the beginning of the one before, so do spans of some of
/// them in their order, and no two of these are at one place.
pub fn picked_in_order()
    ensures ordered { (file from : ℕ) (spans : List Span) (tokens : List Token)
        → Ascend file from (token_spans tokens) → Picks spans tokens → Ascend file from spans }
    ensures distinct { (file from : ℕ) (spans : List Span) → Ascend file from spans → IsDistinct same_place spans }
{}

/// A law of the grammar: each name in the tree of a file, declared or used, has the span of one of the file's tokens,
/// and the names have them in the order of the tokens. The words `enum` and `rec` are among the names.
pub fn names_are_picked()
    ensures { (tokens : List Token) (file : File) → Spells tokens file → Picks (file_names file) tokens }
{}
