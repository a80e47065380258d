//! A tree in memory.
ghost use Rattle.std.specs.Prelude.{◌≡◌, ◌↔◌, IfOk, IsErrOf, IsTrue, if◌then◌else◌};
ghost use Rattle.soc_edge.specs.Calls.{no_calls, is_due, passed, failed};
ghost use Rattle.soc_edge.specs.Memory.{tree_told};
ghost use Rattle.soc_edge.specs.Tree.{OnlyLooks};
ghost use Rattle.soc_base.specs.Names.{value_of};

use super::calls::CallCount;
use super::lists::Numbers;
use crate::{Tree, TreeError};
use soc_base::{Blobs, Bytes};
use std::alloc::Global;
use std::marker::Model;

/// Files in memory. It tells them, and fails at the numbers that it was given.
#[derive(Drop)]
pub struct MemTree {
    files: Blobs,
    calls: CallCount,
}

impl Model for MemTree {
    ghost use Rattle.soc_edge.specs.Memory.{TreeState};

    ghost Value = { TreeState };

    ghost view = { λ t. record { files = t.files; calls = t.calls } };
}

impl MemTree {
    /// A tree of these files, whose calls with these numbers fail, counted from 0.
    pub fn new(files: Blobs, fails: Numbers) -> MemTree
        ensures { result ≡ record { files = files; calls = no_calls fails } }
    {
        MemTree {
            files,
            calls: CallCount::new(fails),
        }
    }
}

impl Tree for MemTree {
    ghost told = { tree_told };

    fn file(&mut self, alloc: Global, name: &str) -> Result<Option<Bytes>, TreeError>
        ensures fails { IsErrOf result TreeError.Failed ↔ IsTrue (is_due self.old.calls) }
        ensures gives { IfOk result (λ file. file ≡ value_of self.old.files name.now) }
        ensures after { self.new ≡ record self.old {
          calls = (if is_due self.old.calls then failed self.old.calls else passed self.old.calls);
        } }
        ensures looks { OnlyLooks (tree_told self.old) (tree_told self.new) }
    {
        if self.calls.is_due() {
            self.calls.fail();
            return Err(TreeError::Failed);
        }
        self.calls.pass();
        match self.files.get(name) {
            Some(bytes) => Ok(Some(Bytes::of(alloc, bytes)?)),
            None => Ok(None),
        }
    }
}
