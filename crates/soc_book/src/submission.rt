//! A crash that is submitted, with all that is computed of it before its turn.
ghost use Rattle.std.specs.Prelude.{◌≡◌, ◌+◌, ◌^◌, ◌<◌, ◌≤◌, drop, length, IfOk};
ghost use Rattle.sha2.specs.Sha256.{sha256};
ghost use Rattle.soc_raw.specs.RawCrash.{crash_of, record_text};
ghost use Rattle.soc_raw.specs.Record.{Crash, content_text};
ghost use Rattle.soc_journal.specs.Entries.{head_size};
ghost use Rattle.soc_schema.specs.Reports.{product_of};
ghost use Rattle.soc_book.specs.inner.Books.{Tells, IsSubmissionOf};

use sha2::{Digest, Sha256};
use soc_base::{NoMemory, SharedText};
use soc_journal::{ENTRY_HEAD, EntryText};
use soc_ledger::Filed;
use soc_raw::{CrashId, RawCrash};
use soc_schema::{Field, product_of};
use soc_store::Store;
use std::alloc::Global;

/// What a book keeps in memory of a crash that has no place yet.
#[derive(Debug, Drop)]
pub(crate) struct NewCrash {
    pub(crate) id: CrashId,
    /// Where the content begins in the record.
    pub(crate) content: u64,
    pub(crate) product: Option<SharedText>,
    /// The SHA-256 of the content.
    pub(crate) digest: [u8; 32],
    /// How many bytes its entry has.
    pub(crate) size: u64,
}

impl NewCrash {
    /// What is kept of a raw crash, of which the text is the record.
    pub(crate) fn of(alloc: Global, raw: &RawCrash, text: &[u8]) -> Result<NewCrash, NoMemory>
        requires { text.now ≡ record_text raw.now }
        ensures { IfOk result (λ new. Tells new (crash_of raw.now)) }
    {
        let content = raw.content_place();
        let digest = digest_behind(text, content as usize);
        let product = product_copy(alloc, raw)?;
        Ok(NewCrash {
            id: raw.id,
            content,
            product,
            digest,
            size: ENTRY_HEAD as u64 + text.len() as u64,
        })
    }

    /// The same once its entry stands at a place of the journal. Its product is shared with the rows that have it.
    pub(crate) fn filed(self, place: u64, store: &Store) -> Filed
        ensures id { result.id ≡ self.id }
        ensures place { result.place ≡ place }
        ensures content { place + head_size + self.content < 2 ^ 64
            → result.content ≡ place + (head_size + self.content) }
        ensures product { result.product ≡ self.product }
        ensures digest { result.digest ≡ self.digest }
    {
        let NewCrash {
            id,
            content,
            product,
            digest,
            ..
        } = self;
        Filed {
            id,
            place,
            content: place
                .saturating_add(ENTRY_HEAD as u64)
                .saturating_add(content),
            product: in_rows(product, store),
            digest,
        }
    }
}

/// The same product, in the memory of the rows that have it.
fn in_rows(product: Option<SharedText>, store: &Store) -> Option<SharedText>
    ensures { result ≡ product }
{
    let mut product = product?;
    store.unite(Field::PRODUCT, &mut product);
    Some(product)
}

/// A raw crash's product, in memory of its own.
fn product_copy(alloc: Global, raw: &RawCrash) -> Result<Option<SharedText>, NoMemory>
    ensures { IfOk result (λ product. product ≡ product_of (crash_of raw.now)) }
{
    match product_of(raw) {
        Some(product) => Ok(Some(SharedText::of(alloc, product)?)),
        None => Ok(None),
    }
}

/// The SHA-256 of what stands behind the first bytes.
fn digest_behind(bytes: &[u8], place: usize) -> [u8; 32]
    requires { place ≤ length bytes.now }
    ensures { result ≡ sha256 (drop place bytes.now) }
{
    Sha256::digest(&bytes[place..])
}

/// A crash that is submitted.
#[derive(Drop)]
pub(crate) struct Submission {
    pub(crate) new: NewCrash,
    /// Its entry, of which the body is its record.
    pub(crate) entry: EntryText,
}

impl Submission {
    /// What is computed of a raw crash.
    pub(crate) fn new(alloc: Global, raw: &RawCrash) -> Result<Submission, NoMemory>
        ensures { IfOk result (λ submission. IsSubmissionOf submission (crash_of raw.now)) }
    {
        raw.is_crash();
        let entry = EntryText::of_crash(alloc, raw)?;
        let new = NewCrash::of(alloc, raw, entry.body())?;
        Ok(Submission { new, entry })
    }

    /// The crash's id.
    pub(crate) fn id(&self) -> CrashId
        ensures { result ≡ self.now.new.id }
    {
        self.new.id
    }

    /// The text of its content.
    pub(crate) fn content(&self) -> &[u8]
        ensures { (raw : Crash) → IsSubmissionOf self.now raw → result.now ≡ content_text raw }
    {
        let record = self.entry.body();
        let place = record.len().min(self.new.content as usize);
        &record[place..]
    }
}
