use sr_names::Spot;
use sr_types::{Ty, Typed};
use sr_value::{Row, Text};

/// A field of a record type.
#[derive(Drop)]
pub struct FieldInfo {
    pub name: Text,
    pub ty: Ty,
}

/// What a name is declared as. What was refused has no type, so that its uses refuse nothing more.
#[derive(Drop)]
pub enum Info {
    /// A constant, a literal of an enumeration, a variable, a formal or the variable of a quantifier: what an
    /// expression is that names it.
    Value(Typed),
    /// A name for a type.
    Type(Ty),
    /// The enumeration that is declared there, which has a number and so many literals.
    Enumeration {
        number: u32,
        literals: u32,
    },
    /// The record type that is declared there.
    Record(Row<FieldInfo>),
    /// A name for the type of an operation.
    OpType(Ty),
    /// An operation: the type of its capability, the component that declares it, and whether a proc does.
    Operation {
        ty: Ty,
        component: Spot,
        is_local: bool,
    },
    /// A component: what is made of it takes arguments like an operation of this type.
    Component(Ty),
}
