use std::collections::LinkedList;

/// A part that a seat has in hand, and its journal. No value of it is made.
pub struct Held<E> {
    pub part: u32,
    pub journal: LinkedList<E>,
}

/// A turn that a seat asked for and that another had. No value of it is made.
pub struct Refusal {
    pub part: u32,
    pub holder: u32,
}

/// What a seat has done and has in hand. No value of it is made.
pub struct View<E> {
    /// The seat's number: 1 is the first seat's.
    pub number: u32,
    /// The number of the seat that is split off next, or 0 where none may be.
    pub next: u32,
    /// The greatest stamp of its entries, or 0.
    pub clock: u64,
    /// Whether the seat is still there.
    pub live: bool,
    /// Its entries, in the order in which it committed them.
    pub made: LinkedList<E>,
    /// The parts in hand, the last taken first.
    pub held: LinkedList<Held<E>>,
    /// The entries of the seats that joined it, by their numbers from 2 on.
    pub joined: LinkedList<LinkedList<E>>,
    /// The turns that it was refused, in order.
    pub refused: LinkedList<Refusal>,
}
