//! A folder of files that are read whole.
ghost use Rattle.std.specs.Prelude.{◌≡◌, IfSome, IfOk, IsErrOf};
ghost use Rattle.soc_edge.specs.Tree.{TreeTold, OnlyLooks, TreeFailed};
ghost use Rattle.soc_edge.specs.declared.tree.TreeError.TheVariants.{NoMemory};

use soc_base::Bytes;
use std::alloc::Global;
use thiserror::Error;

/// Why a file wasn't given.
#[derive(Clone, Copy, Debug, PartialEq, Eq, Error)]
pub enum TreeError {
    /// The tree failed. It comes only where its count of faults rose in the call.
    #[error("a file couldn't be read")]
    Failed,
    /// An allocation was refused.
    #[error("out of memory")]
    NoMemory,
}

impl From<soc_base::NoMemory> for TreeError {
    ghost from_gives = { λ _ e. e ≡ NoMemory };

    fn from(_error: soc_base::NoMemory) -> TreeError {
        TreeError::NoMemory
    }
}

/// Files by name.
pub trait Tree {
    /// The files, where the tree tells them, and how often a call has failed.
    ghost told: { Self → TreeTold };

    /// The bytes of the file of that name, `None` exactly where there is none. The files stay as they are.
    fn file(&mut self, alloc: Global, name: &str) -> Result<Option<Bytes>, TreeError>
        ensures gives { IfOk result (λ file. IfSome (told self.old).files
            (λ files. file ≡ files name.now)) }
        ensures looks { OnlyLooks (told self.old) (told self.new) }
        ensures cause { IsErrOf result TreeError.Failed
            → TreeFailed (told self.old) (told self.new) };
}

/// A tree that is lent has the same files.
impl<T: Tree> Tree for &mut T {
    ghost told = { λ t. T.told t.now };

    fn file(&mut self, alloc: Global, name: &str) -> Result<Option<Bytes>, TreeError> {
        (**self).file(alloc, name)
    }
}
