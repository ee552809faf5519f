ghost use Rattle.sr_types.specs.Laws.{WholesAreTyped, ValuesOfParts, RefusesOnce};

/// That the whole of an operator has a type, whatever its operands have.
pub fn wholes_are_typed()
    ensures { WholesAreTyped }
{}

/// That the static value of an expression is the result of its operator on the static values of its operands.
pub fn values_of_parts()
    ensures { ValuesOfParts }
{}

/// That an operand of no type breaks only the rules that it would break whatever its type.
pub fn refuses_once()
    ensures { RefusesOnce }
{}
