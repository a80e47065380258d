//! The files that a run goes by.
ghost use Rattle.std.specs.Prelude.{◌≡◌, IfErr, IfOk, IfSome, IsErrOf};
ghost use Rattle.soc_edge.specs.Tree.{OnlyLooks, TreeFailed};
ghost use Rattle.soc_report.specs.Texts.{text_at};
ghost use Rattle.soc_replay.specs.Files.{shown_at};
ghost use Rattle.soc_replay.specs.inner.Texts.{AreTexts, IsOfReading, IsReadFault};

use crate::refusal::FilesFault;
use soc_base::Bytes;
use soc_edge::{Tree, TreeError};
use soc_report::KitText;
use std::alloc::Global;

/// The bytes of the files that a run goes by. One that is missing counts as empty, but for a symbol file.
#[derive(Drop)]
pub struct Texts {
    pub settings: Bytes,
    pub tokens: Bytes,
    pub kit: KitText,
    /// The service's own page, and what tells which program answers.
    pub page: Option<Bytes>,
    pub version: Option<Bytes>,
}

/// The most bytes of a file that is shown as it stands.
const MOST_SHOWN: usize = 65_536;

/// Reads the files in order.
#[tactic(auto, using(crate::proofs::TextLemmas::texts_are, crate::proofs::TextLemmas::read_fault))]
pub fn read_texts<T: Tree>(alloc: Global, tree: &mut T) -> Result<Texts, FilesFault>
    ensures told { IfOk result (λ texts. IfSome (T.told tree.old).files
        (λ files. AreTexts files texts)) }
    ensures refused { IfErr result (λ fault. IfSome (T.told tree.old).files
        (λ files. IsReadFault files fault)) }
    ensures kinds { IfErr result IsOfReading }
    ensures looks { OnlyLooks (T.told tree.old) (T.told tree.new) }
    ensures cause { IsErrOf result FilesFault.Tree → TreeFailed (T.told tree.old)
        (T.told tree.new) }
{
    let settings = read_text(alloc, tree, "settings.toml")?;
    let tokens = read_text(alloc, tree, "tokens.toml")?;
    let kit = KitText::read(alloc, tree)?;
    let page = read_shown(alloc, tree, "ui.html")?;
    let version = read_shown(alloc, tree, "version.json")?;
    Ok(Texts {
        settings,
        tokens,
        kit,
        page,
        version,
    })
}

fn read_text<T: Tree>(alloc: Global, tree: &mut T, name: &str) -> Result<Bytes, TreeError>
    ensures told { IfOk result (λ bytes. IfSome (T.told tree.old).files
        (λ files. bytes ≡ text_at files name.now)) }
    ensures looks { OnlyLooks (T.told tree.old) (T.told tree.new) }
    ensures cause { IsErrOf result TreeError.Failed → TreeFailed (T.told tree.old)
        (T.told tree.new) }
{
    match tree.file(alloc, name)? {
        Some(bytes) => Ok(bytes),
        None => Ok(Bytes::from(Vec::new(alloc))),
    }
}

/// A file that is shown as it stands. One that is missing or too long counts as none.
fn read_shown<T: Tree>(alloc: Global, tree: &mut T, name: &str) -> Result<Option<Bytes>, TreeError>
    ensures told { IfOk result (λ shown. IfSome (T.told tree.old).files
        (λ files. shown ≡ shown_at files name.now)) }
    ensures looks { OnlyLooks (T.told tree.old) (T.told tree.new) }
    ensures cause { IsErrOf result TreeError.Failed → TreeFailed (T.told tree.old)
        (T.told tree.new) }
{
    let Some(bytes) = tree.file(alloc, name)? else {
        return Ok(None);
    };
    if bytes.as_slice().len() > MOST_SHOWN {
        return Ok(None);
    }
    Ok(Some(bytes))
}
