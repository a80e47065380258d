//! The files that a service goes by.
ghost use Rattle.std.specs.Prelude.{◌≡◌, IfErr, IfOk, IfSome, IsErrOf, Ok};
ghost use Rattle.soc_edge.specs.Tree.{OnlyLooks, TreeFailed};
ghost use Rattle.soc_replay.specs.Setup.{setup_of};
ghost use Rattle.soc_replay.specs.inner.Replay.{IsFilesFault};
ghost use Rattle.soc_replay.specs.inner.Texts.{AreTexts};

use soc_edge::Tree;
use soc_replay::{FilesFault, Setup, Texts, read_texts, set_up};
use std::alloc::Global;

/// The texts of all files, and what settings and tokens say.
pub(crate) fn read_files<T: Tree>(alloc: Global, tree: &mut T) -> Result<(Texts, Setup), FilesFault>
    ensures told { IfOk result (λ files.
        IfSome (T.told tree.old).files (λ told. AreTexts told files.0)) }
    ensures says { IfOk result (λ files. setup_of files.0.settings files.0.tokens
        files.0.page files.0.version ≡ Ok files.1) }
    ensures fault { IfErr result (λ fault.
        IfSome (T.told tree.old).files (λ files. IsFilesFault files fault)) }
    ensures kinds { IsErrOf result FilesFault.Maker → ⊥ }
    ensures looks { OnlyLooks (T.told tree.old) (T.told tree.new) }
    ensures tree_cause { IsErrOf result FilesFault.Tree
        → TreeFailed (T.told tree.old) (T.told tree.new) }
{
    let texts = read_texts(alloc, tree)?;
    let setup = set_up(alloc, &texts)?;
    Ok((texts, setup))
}
