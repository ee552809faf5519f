use sr_ask::Start;
use sr_value::{EnumNames, Place};
use std::alloc::Global;

/// What stays the same while an instruction is carried out.
#[derive(Clone, Copy)]
pub struct Scene<'a> {
    pub alloc: Global,
    /// The names of the literals of each enumeration.
    pub names: &'a EnumNames,
    pub start: &'a Start,
    /// How many statements the process may begin between two answers.
    pub limit: u32,
    /// The line of the instruction.
    pub place: Place,
}
