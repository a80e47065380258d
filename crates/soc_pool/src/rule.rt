//! The rule of the ring: what was taken is a front of what was put, and each job bears the number of the pass that put or took it.
ghost use Rattle.soc_pool.specs.inner.Rule.{IsRing, maker, next_maker, newcomer, gathering, spent, puts_in, takes_in, takes_from_full, has_nothing, has_closed};

use crate::jobs::Job;
use crossbeam_queue::protocol::{Join, Lesson, Outcome, Protocol, Split};
use std::collections::LinkedList;

/// A job, and the number of the pass that put it or took it. No value of it is made.
pub struct Entry {
    pub by: u64,
    pub job: Job,
}

/// What a pass knows: its number, the jobs put into the ring and taken from it that it has seen, and its own puts and takes. No value of it is made.
pub struct Seen {
    pub number: u64,
    pub put: LinkedList<Entry>,
    pub taken: LinkedList<Entry>,
    pub puts: LinkedList<Job>,
    pub takes: LinkedList<Job>,
}

/// What a pass of the ring is for.
pub enum Role {
    /// New passes are made of it, and it has the number of the next one. In the end it takes them back.
    Makes,
    /// It puts and takes.
    Works,
    /// It was taken back.
    Spent,
}

/// What the rule knows of a pass. No value of it is made.
pub struct View {
    pub seen: Seen,
    pub role: Role,
    /// What the passes knew that it has taken back.
    pub gone: LinkedList<Seen>,
}

/// The rule of the ring.
pub struct OneRing;

impl Protocol<Job, View> for OneRing {
    ghost holds = { IsRing };

    ghost first = { maker };
}

/// A new pass has the next number.
pub(crate) struct Another;

impl Split<View> for Another {
    ghost left = { next_maker };

    ghost right = { newcomer };
}

/// A pass is taken back.
pub(crate) struct Gather;

impl Join<View> for Gather {
    ghost both = { gathering };

    ghost spent = { spent };
}

/// All passes were taken back.
pub(crate) struct Close;

impl Lesson<Job, View> for Close {
    ghost fact = { has_closed };
}

pub(crate) struct Put;

impl Outcome<Job, View> for Put {
    ghost then = { puts_in };
}

impl Lesson<Job, View> for Put {
    ghost fact = { has_nothing };
}

pub(crate) struct Take;

impl Outcome<Job, View> for Take {
    ghost then = { takes_in };
}

impl Lesson<Job, View> for Take {
    ghost fact = { has_nothing };
}

/// A job is taken from a ring that is full.
pub(crate) struct MakeRoom;

impl Outcome<Job, View> for MakeRoom {
    ghost then = { takes_from_full };
}
