//! The hall's table, as plain data.
//! Word 0 is the length of the log, word 1 the next ticket and word 2 the ticket that is served, both modulo 2^64. The one slot has the state.
use crate::logged::Logged;
use atomic_table::{Seat, Shared, Table, TableRule};
use std::alloc::Global;
use std::collections::LinkedList;
use std::marker::PhantomData;
use std::snapshot::Snapshot;

/// What lies in the slot: the state, and after a turn also what was said in it.
#[derive(Drop)]
pub enum Place<T, C, P> {
    Empty,
    Rest(T),
    Done(T, Snapshot<C>, Snapshot<P>),
}

/// A change, and the number of the seat whose turn added it. No value of it is made.
pub struct Entry<X> {
    pub by: u64,
    pub change: X,
}

/// A turn as its seat knows it. No value of it is made.
pub struct Turn<X, C, P> {
    pub command: C,
    pub reply: P,
    pub start: u64,
    pub front: u64,
    pub piece: LinkedList<X>,
}

/// What a seat knows: its number, what no turn changes, the log with which the hall opened, the entries behind it that it has seen, and its turns. No value of it is made.
pub struct Known<B, X, C, P> {
    pub number: u64,
    pub basis: Option<B>,
    pub opening: LinkedList<X>,
    pub seen: LinkedList<Entry<X>>,
    pub turns: LinkedList<Turn<X, C, P>>,
}

/// Tickets are counted on and on here, and not modulo 2^64.
pub enum Stage {
    /// It has no number yet.
    Fresh,
    Idle,
    Waits(u64),
    Turns(u64),
    /// It is no seat of the hall: a note, or a seat that was spent.
    Away,
}

/// What the rule knows of a seat. No value of it is made.
pub struct View<B, X, C, P> {
    pub number: u64,
    /// How many seats it stands for.
    pub parts: u64,
    pub stage: Stage,
    pub basis: Option<B>,
    pub opening: LinkedList<X>,
    pub seen: LinkedList<Entry<X>>,
    pub told: LinkedList<Entry<X>>,
    pub turns: LinkedList<Turn<X, C, P>>,
    /// The seats that it took in.
    pub gone: LinkedList<Known<B, X, C, P>>,
}

/// What a hall is made of.
#[derive(Drop)]
pub struct Start<T> {
    pub state: Snapshot<T>,
    pub seats: u32,
}

/// The rule of the hall's table.
pub struct Law<T> {
    of: PhantomData<T>,
}

impl<T: Logged> TableRule<
    Place<T, T::Command, T::Reply>,
    View<T::Basis, T::Change, T::Command, T::Reply>,
    Start<T>,
> for Law<T> {
    ghost use Rattle.soc_hall.specs.inner.Rule.{Kept, starting};

    ghost holds = { λ key. Kept T.log_of T.basis_of T.answers (T.basis_of key.state.value)
        (T.log_of key.state.value) key.seats };

    ghost first = { λ key. starting (T.basis_of key.state.value)
        (T.log_of key.state.value) key.seats };
}
