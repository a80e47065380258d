//! An entry as it is written.
ghost use Rattle.std.specs.Prelude.{◌≡◌, ◌-◌, ◌≤◌, ◌∷◌, length, take, drop, IsTrue, IfOk};
ghost use Rattle.std.specs.Int.{to_le_bytes, w32};
ghost use Rattle.soc_raw.specs.RawCrash.{record_text};
ghost use Rattle.soc_journal.specs.Entries.{IsEntryOf, accept_kind, open_gate, beside_body, has_kind, head_size, second_version, max_body, entry_text, sealed};

use crate::format::{ACCEPT, CLOSED_GATE, ENTRY_HEAD, OPEN_GATE};
use soc_base::NoMemory;
use soc_raw::RawCrash;
use std::alloc::Global;
use std::marker::Model;

/// The text of one entry, with the closed gate that stands behind it once it is in a journal. Contracts see the entry:
/// its kind and its body.
#[derive(Drop)]
pub struct EntryText {
    text: Vec<u8>,
}

impl Model for EntryText {
    ghost use Rattle.soc_journal.specs.Entries.{Entry};
    ghost use Rattle.soc_journal.specs.inner.Sealed.{entry_in, IsSealed};

    ghost Value = { Entry };

    ghost view = { λ e. entry_in e.text.items };

    ghost invariant = { λ e. IsSealed e.text.items };
}

impl EntryText {
    /// The entry of a kind of the second version, with a body of at most 67,108,864 bytes.
    pub fn new(alloc: Global, kind: u8, body: &[u8]) -> Result<EntryText, NoMemory>
        requires known { IsTrue (has_kind second_version kind) }
        requires short { length body.now ≤ max_body }
        ensures { IfOk result (λ entry. entry ≡ record { kind = kind; body = body.now }) }
    {
        let mut text = head(alloc, kind, body.len() as u32)?;
        text.extend_from_slice(body)?;
        text.push(CLOSED_GATE)?;
        Ok(EntryText { text })
    }

    /// The entry of an accepted crash. Its record is written into the entry's own text, and stands nowhere else.
    pub fn of_crash(alloc: Global, raw: &RawCrash) -> Result<EntryText, NoMemory>
        ensures { IfOk result (λ entry. entry
            ≡ record { kind = accept_kind; body = record_text raw.now }) }
    {
        raw.is_crash();
        let mut text = head(alloc, ACCEPT, raw.record_len() as u32)?;
        raw.encode_into(&mut text)?;
        text.push(CLOSED_GATE)?;
        Ok(EntryText { text })
    }

    /// The body alone.
    pub fn body(&self) -> &[u8]
        ensures { result.now ≡ self.now.body }
    {
        body_of(self.text.as_slice())
    }

    /// The text as it stands in a journal, from the entry's own gate to the one behind it.
    pub(crate) fn as_slice(&self) -> &[u8]
        ensures text { result.now ≡ sealed self.now }
        ensures legal { IsEntryOf second_version self.now }
    {
        self.text.as_slice()
    }

    /// The same without the entry's own gate.
    pub(crate) fn behind_gate(&self) -> &[u8]
        ensures { result.now ≡ drop 1 (sealed self.now) }
    {
        &self.as_slice()[1..]
    }

    /// How many bytes the entry has, without the gate behind it.
    pub fn count(&self) -> u64
        ensures count { result ≡ length (entry_text self.now) }
        ensures legal { IsEntryOf second_version self.now }
    {
        self.as_slice().len() as u64 - 1
    }
}

/// What stands before a body of so many bytes, with room for the body and for the closed gate behind it.
fn head(alloc: Global, kind: u8, length: u32) -> Result<Vec<u8>, NoMemory>
    ensures { IfOk result (λ text. text.items ≡ open_gate ∷ kind ∷ to_le_bytes w32 length) }
{
    let mut text = Vec::with_capacity(alloc, ENTRY_HEAD + length as usize + 1)?;
    text.push(OPEN_GATE)?;
    text.push(kind)?;
    text.extend_from_slice(&length.to_le_bytes())?;
    Ok(text)
}

/// The body in an entry's text: what stands between its head and the closed gate behind it.
fn body_of(text: &[u8]) -> &[u8]
    requires { beside_body ≤ length text.now }
    ensures { result.now ≡ take (length text.now - beside_body) (drop head_size text.now) }
{
    &text[ENTRY_HEAD..text.len() - 1]
}
