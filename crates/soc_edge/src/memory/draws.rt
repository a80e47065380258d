//! Draws in memory.
ghost use Rattle.std.specs.Prelude.{◌≡◌, ◌<◌, length};
ghost use Rattle.soc_edge.specs.Memory.{draws_told};

use super::lists::{Ids16, Numbers};
use crate::Draws;
use std::marker::Model;

/// Hands out its numbers and its ids in order, each list by itself, and then its last item again and again.
/// Contracts see those that are still to come.
#[derive(Drop)]
pub struct MemDraws {
    throttles: Numbers,
    throttle_at: usize,
    ids: Ids16,
    id_at: usize,
}

impl Model for MemDraws {
    ghost use Rattle.std.specs.Prelude.{◌<◌, length, drop};
    ghost use Rattle.soc_edge.specs.Memory.{DrawsState};

    ghost Value = { DrawsState };

    ghost view = { λ d. record {
      throttles = drop d.throttle_at d.throttles;
      ids = drop d.id_at d.ids;
    } };

    ghost invariant = { λ d. (d.throttle_at < length d.throttles) × (d.id_at < length d.ids) };
}

impl MemDraws {
    /// Draws of these numbers and these ids.
    pub fn new(throttles: Numbers, ids: Ids16) -> MemDraws
        requires some_throttle { 0 < length throttles }
        requires some_id { 0 < length ids }
        ensures { result ≡ record { throttles = throttles; ids = ids } }
    {
        MemDraws {
            throttles,
            throttle_at: 0,
            ids,
            id_at: 0,
        }
    }
}

impl Draws for MemDraws {
    ghost told = { draws_told };

    fn throttle(&mut self) -> u64 {
        let throttles = self.throttles.as_slice();
        let throttle = throttles[self.throttle_at];
        if self.throttle_at + 1 < throttles.len() {
            self.throttle_at += 1;
        }
        throttle
    }

    fn id(&mut self) -> [u8; 16] {
        let ids = self.ids.as_slice();
        let id = ids[self.id_at];
        if self.id_at + 1 < ids.len() {
            self.id_at += 1;
        }
        id
    }
}
