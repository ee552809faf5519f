ghost use Rattle.std.specs.Prelude.{◌≡◌};
ghost use Rattle.sr_value.specs.Operators.{Answers};
ghost use Rattle.sr_select.specs.Readings.{Reading};

use sr_value::{EnumNames, Sel, Value, ValueFail};

/// What guards read of the world, as one process sees it.
pub trait Reads {
    ghost reading: { Self → Reading };

    /// A copy of the value at the end of a path in a shared variable of a block, or the fault of the load.
    fn load(&self, block: u32, var: u32, path: &[Sel]) -> Result<Value, ValueFail>
        ensures { Answers result ((reading self.now).load block var path.now) };

    /// How many invocations of an operation are pending: of the instance, or of the process where it is local.
    fn count(&self, op: u32) -> u32
        ensures { result ≡ (reading self.now).count op };

    /// The names of the literals of each enumeration.
    fn names(&self) -> &EnumNames
        ensures { result.now ≡ (reading self.now).names };
}
