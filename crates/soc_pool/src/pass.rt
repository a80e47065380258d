//! Passes of a ring.
ghost use Rattle.std.specs.Prelude.{◌≡◌, ◌<◌, [], ◌∷◌, ◌++◌, length, MatchOption};
ghost use Rattle.crossbeam_queue.specs.Passes.{view};
ghost use Rattle.soc_pool.specs.declared.rule.Role.TheVariants.{Makes, Works};
ghost use Rattle.soc_pool.specs.Ring.{Closes};

use crate::jobs::Job;
use crate::rule::View;

/// A thread's right to put and to take, and what it has seen.
#[derive(Drop)]
pub struct Pass {
    pub(crate) ring: crossbeam_queue::Pass<Job, View>,
    pub(crate) fulls: u64,
    pub(crate) empties: u64,
    ghost works: { (view ring).role ≡ Works },
}

/// Passes that nobody has now.
#[derive(Drop)]
pub struct Passes {
    pub(crate) list: Vec<Pass>,
    // All passes were made of it.
    pub(crate) roll: crossbeam_queue::Pass<Job, View>,
    ghost makes: { ((view roll).role ≡ Makes) × ((view roll).gone ≡ []) },
}

/// What a ring leaves: it knows what each of the passes put and took. It has no bytes.
#[derive(Drop)]
pub struct RingEnd {
    pub(crate) roll: crossbeam_queue::Pass<Job, View>,
    ghost closes: { ∥ Closes (view roll).gone ∥₁ },
}

impl Pass {
    ghost use Rattle.soc_pool.specs.Passes.{fulls_of, empties_of};

    /// How often a put was refused since the ring was full, at most 2^64 - 1.
    pub fn fulls(&self) -> u64
        ensures { result ≡ fulls_of self.now }
    {
        self.fulls
    }

    /// How often no job was there to take, at most 2^64 - 1.
    pub fn empties(&self) -> u64
        ensures { result ≡ empties_of self.now }
    {
        self.empties
    }
}

impl Passes {
    ghost use Rattle.soc_pool.specs.Passes.{passes_in, roll_of, room_of};

    /// The last of them.
    pub fn pop(&mut self) -> Option<Pass>
        ensures popped { MatchOption result
            ((passes_in self.old ≡ []) × (passes_in self.new ≡ []))
            (λ pass. passes_in self.old ≡ passes_in self.new ++ pass ∷ []) }
        ensures same { (roll_of self.new ≡ roll_of self.old)
            × (room_of self.new ≡ room_of self.old) }
    {
        self.list.pop()
    }

    /// Takes no memory: there is room for all passes of the ring.
    pub fn push(&mut self, pass: Pass)
        requires { length (passes_in self.old) < room_of self.old }
        ensures pushed { passes_in self.new ≡ passes_in self.old ++ pass ∷ [] }
        ensures same { (roll_of self.new ≡ roll_of self.old)
            × (room_of self.new ≡ room_of self.old) }
    {
        self.list.push_reserved(pass);
    }
}
