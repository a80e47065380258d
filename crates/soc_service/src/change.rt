//! What the log of a shared desk is a list of.
use soc_ledger::Event;
use std::collections::LinkedList;

/// A change of the log: what was done, and the body of its journal entry, where it has one and the disk tells it. No value of
/// it is made.
pub struct Change {
    pub event: Event,
    pub text: Option<LinkedList<u8>>,
}
