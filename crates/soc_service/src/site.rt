//! Where the users of a hall work.
use crate::sharing::SharedDesk;
use soc_hall::Hall;
use soc_pool::Jobs;
use std::alloc::Global;

/// Where a user of a hall works: the hall, the ring of jobs, and the gate that its turns pass.
#[derive(Drop)]
pub struct Site<'h, T: SharedDesk, G, W> {
    pub rt: &'h W,
    pub alloc: Global,
    pub hall: &'h Hall<T>,
    pub jobs: &'h Jobs,
    pub gate: &'h G,
}
