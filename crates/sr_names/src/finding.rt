ghost use Rattle.std.specs.Prelude.{◌≡◌};
ghost use Rattle.sr_names.specs.Order.{goes_before, rule_number};

use crate::meaning::Meaning;
use crate::spot::Spot;
use sr_value::Span;

/// The rules of names, types and kinds that a program can break.
#[derive(Clone, Copy, PartialEq, Eq)]
pub enum Rule {
    /// S4: a name that is unknown, ambiguous or not yet usable.
    Name,
    /// S5: two declarations of one name in one scope, or two procs for one operation.
    Twice,
    /// S6: a type rule.
    BadType,
    /// S7: the wrong kind of use.
    BadUse,
    /// S8: an invocation, `read` or `create` in a guard.
    Guard,
    /// S9: the last component can't be main.
    Main,
    /// S12: globals that import each other in a cycle.
    Cycle,
}

impl Rule {
    /// The number of the rule: of several that are broken at one token the least counts.
    pub fn number(self) -> u32
        ensures { result ≡ rule_number self }
    {
        match self {
            Rule::Name => 4,
            Rule::Twice => 5,
            Rule::BadType => 6,
            Rule::BadUse => 7,
            Rule::Guard => 8,
            Rule::Main => 9,
            Rule::Cycle => 12,
        }
    }
}

/// A rule that is broken, and the first token of the construct that breaks it.
#[derive(Clone, Copy, PartialEq, Eq)]
pub struct Diagnostic {
    pub rule: Rule,
    pub span: Span,
}

impl Diagnostic {
    /// Whether this goes before another: it stands before it, or at the same token with the lesser number.
    pub fn is_before(self, other: Diagnostic) -> bool
        ensures { result ≡ goes_before self other }
    {
        let here = Spot::of(self.span);
        let there = Spot::of(other.span);
        here.is_before(there) || here == there && self.rule.number() < other.rule.number()
    }
}

/// What is found out about a name.
#[derive(Clone, Copy, PartialEq, Eq)]
pub enum Finding {
    /// The name at a spot means this.
    Use { spot: Spot, meaning: Meaning },
    /// A rule is broken.
    Broken(Diagnostic),
}
