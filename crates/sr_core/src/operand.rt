ghost use Rattle.std.specs.Prelude.{◌≡◌};
ghost use Rattle.sr_value.specs.Operators.{Answers};
ghost use Rattle.sr_core.specs.Values.{truth_of, number_of, cap_of, member_of, count_of};

use sr_value::{Cap, Fault, Owner, Value, ValueFail};

/// The truth of a condition; E6 where the value is of another type.
pub fn truth(value: &Value) -> Result<bool, ValueFail>
    ensures { Answers result (truth_of value.now) }
{
    value.as_bool().ok_or(ValueFail::Fault(Fault::Range))
}

/// The number of a bound, a step or an index; E6 where the value is of another type.
pub fn number(value: &Value) -> Result<i32, ValueFail>
    ensures { Answers result (number_of value.now) }
{
    value.as_int().ok_or(ValueFail::Fault(Fault::Range))
}

/// The capability of an operation, an instance or a machine; E6 where the value is of another type.
pub fn capability(value: &Value) -> Result<Cap, ValueFail>
    ensures { Answers result (cap_of value.now) }
{
    value.as_cap().ok_or(ValueFail::Fault(Fault::Range))
}

/// `r.f`: the operation of the instance. `null` and `noop` stay themselves, and another capability is E6.
pub fn member(op: u32, cap: Cap) -> Result<Value, ValueFail>
    ensures { Answers result (member_of op cap) }
{
    match cap {
        Cap::Null => Ok(Value::Capa(Cap::Null)),
        Cap::Noop => Ok(Value::Capa(Cap::Noop)),
        Cap::Res(instance) => Ok(Value::Capa(Cap::Op {
            owner: Owner::Inst(instance),
            op,
        })),
        Cap::Op { .. } => Err(ValueFail::Fault(Fault::Range)),
        Cap::Vm(_) => Err(ValueFail::Fault(Fault::Range)),
    }
}

/// How often a part of a bracketed list is repeated, or a semaphore is sent to; E6 below 0.
pub fn count(number: i32) -> Result<u32, ValueFail>
    ensures { Answers result (count_of number) }
{
    match u32::try_from(number) {
        Ok(count) => Ok(count),
        Err(_) => Err(ValueFail::Fault(Fault::Range)),
    }
}
