//! The stacks that a kit makes.
use soc_base::{Bytes, NoMemory};
use soc_raw::RawCrash;
use soc_report::{Kit, stack_text};
use soc_schema::{Caller, Permissions, Products};
use soc_session::Stacks;
use std::alloc::Global;

/// The stacks that a kit makes.
#[derive(Drop)]
pub struct KitStacks<'k, 't> {
    pub kit: &'k Kit<'t>,
}

impl<'k, 't> Stacks for KitStacks<'k, 't> {
    ghost use Rattle.soc_replay.specs.Stacks.{stacks_by};

    ghost stack_of = { λ stacks. stacks_by stacks.kit.now };

    fn stack(
        &self,
        alloc: Global,
        shown: Permissions,
        raw: &RawCrash,
    ) -> Result<Option<Bytes>, NoMemory> {
        let caller = Caller {
            permissions: shown,
            products: Products::All,
        };
        stack_text(alloc, self.kit, &caller, raw)
    }
}
