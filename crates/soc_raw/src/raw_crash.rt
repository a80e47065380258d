//! Raw crashes.
ghost use Rattle.std.specs.Prelude.{◌≡◌, ◌≤◌, ◌↔◌, ◌++◌, List, ℕ, length, drop, IfOk, IfErr, OnOk, OnErr, IsTrue};
ghost use Rattle.soc_raw.specs.Day.{IsMoment};
ghost use Rattle.soc_raw.specs.Record.{MAX_ANNOTATIONS as max_annotations, MAX_DUMPS as max_dumps, MAX_RECORD as max_record, Crash, IsCrash, record_of, head_text, content_text};
ghost use Rattle.soc_raw.specs.inner.Writing.{Extends};

use crate::copies::{are_same_blobs, are_same_texts, copy_of_blobs, copy_of_texts};
use crate::crash_id::CrashId;
use crate::decoding::parts_of;
use crate::record_error::RecordError;
use crate::writing::{len_of_blobs, len_of_texts, put_blobs, put_bytes, put_counted, put_texts};
use soc_base::{Blobs, Bytes, NoMemory, Text, Texts};
use std::alloc::Global;

/// The greatest length of a record, in bytes.
const MAX_RECORD: usize = 67_108_864;

/// A crash as it was accepted.
#[derive(Debug, Drop)]
pub struct RawCrash {
    pub id: CrashId,
    /// When it came, in seconds since 1970: a time of a clock.
    pub moment: u64,
    /// The number that the throttle rules drew.
    pub draw: u64,
    /// The name of the rule that accepted it.
    pub rule: Text,
    /// At most 1,024.
    pub annotations: Texts,
    /// At most 512.
    pub dumps: Blobs,
    pub ghost moment_in: { IsMoment moment },
    pub ghost few_annotations: { length annotations ≤ max_annotations },
    pub ghost few_dumps: { length dumps ≤ max_dumps },
    // The record has at most 67,108,864 bytes.
    pub ghost fits: { length (record_of
        (record {
          id = id;
          moment = moment;
          draw = draw;
          rule = rule;
          annotations = annotations;
          dumps = dumps;
        })) ≤ max_record },
}

impl RawCrash {
    ghost use Rattle.soc_raw.specs.RawCrash.{crash_of, record_text, HasSameContent, IsRefusal};

    /// The same raw crash, in memory of its own.
    pub fn copy(&self, alloc: Global) -> Result<RawCrash, NoMemory>
        ensures { IfOk result (λ copy. crash_of copy ≡ crash_of self.now) }
    {
        Ok(RawCrash {
            id: self.id,
            moment: self.moment,
            draw: self.draw,
            rule: Text::of(alloc, self.rule.as_str())?,
            annotations: copy_of_texts(alloc, &self.annotations)?,
            dumps: copy_of_blobs(alloc, &self.dumps)?,
        })
    }

    /// Whether annotations and dumps are the same; id, moment, draw and rule aren't looked at.
    pub fn same_content(&self, other: &RawCrash) -> bool
        ensures { IsTrue result ↔ HasSameContent self.now other.now }
    {
        are_same_texts(&self.annotations, &other.annotations)
            && are_same_blobs(&self.dumps, &other.dumps)
    }

    /// A raw crash is one of those that there are.
    pub fn is_crash(&self)
        ensures { IsCrash (crash_of self.now) }
    {
        let _id = self.id.as_str();
        let _draw = self.draw;
        let _rule = self.rule.as_str();
        let _annotations = self.annotations.len();
        let _dumps = self.dumps.len();
    }

    /// The record, in one piece of memory of its length.
    pub fn encode(&self, alloc: Global) -> Result<Bytes, NoMemory>
        ensures record { IfOk result (λ bytes. bytes ≡ record_text self.now) }
        ensures whole { OnOk result (IsCrash (crash_of self.now)) }
    {
        self.is_crash();
        let mut out = Vec::with_capacity(alloc, self.record_len())?;
        self.encode_into(&mut out)?;
        Ok(Bytes::from(out))
    }

    /// Writes the record behind what stands in the buffer. The buffer takes all of the memory before it takes a byte.
    pub fn encode_into(&self, out: &mut Vec<u8>) -> Result<(), NoMemory>
        ensures ok { OnOk result (out.new.items ≡ out.old.items ++ record_text self.now) }
        ensures err { OnErr result (out.new.items ≡ out.old.items) }
    {
        out.reserve(self.record_len())?;
        let start = out.len();
        let written = self.put(out);
        if written.is_err() {
            out.truncate(start);
        }
        written
    }

    /// Writes the record, or a part of it.
    fn put(&self, out: &mut Vec<u8>) -> Result<(), NoMemory>
        ensures record { OnOk result (out.new.items ≡ out.old.items ++ record_text self.now) }
        ensures front { Extends out.old.items out.new.items }
    {
        put_bytes(out, self.id.as_str().as_bytes())?;
        put_bytes(out, &self.moment.to_le_bytes())?;
        put_bytes(out, &self.draw.to_le_bytes())?;
        put_counted(out, self.rule.as_str().as_bytes())?;
        put_texts(out, &self.annotations)?;
        put_blobs(out, &self.dumps)?;
        Ok(())
    }

    /// The length of the record, at most 67,108,864.
    pub fn record_len(&self) -> usize
        ensures { result ≡ length (record_text self.now) }
    {
        let head = self.id.as_str().len() + 8 + 8 + 4 + self.rule.as_str().len();
        head + len_of_texts(&self.annotations) + len_of_blobs(&self.dumps)
    }

    /// Where the content stands in the record: the length of what stands before it.
    pub fn content_place(&self) -> u64
        ensures place { result ≡ length (head_text (crash_of self.now)) }
        ensures content { drop result (record_text self.now) ≡ content_text (crash_of self.now) }
    {
        let id = self.id.as_str();
        let rule = self.rule.as_str();
        (id.len() + 8 + 8 + 4 + rule.len()) as u64
    }

    /// The raw crash of which the bytes are the record.
    ///
    /// # Errors
    /// `BadRecord` exactly where the bytes are no record.
    pub fn decode(alloc: Global, b: &[u8]) -> Result<RawCrash, RecordError>
        ensures ok { IfOk result (λ raw. record_text raw ≡ b.now) }
        ensures whole { IfOk result (λ raw. IsCrash (crash_of raw)) }
        ensures bad { IfErr result (λ e. IsRefusal e b.now) }
    {
        if b.len() > MAX_RECORD {
            return Err(RecordError::BadRecord);
        }
        let parts = parts_of(alloc, b)?;
        Ok(RawCrash {
            id: parts.id,
            moment: parts.moment,
            draw: parts.draw,
            rule: parts.rule,
            annotations: parts.annotations,
            dumps: parts.dumps,
        })
    }
}

/// A record is that of one raw crash alone.
pub fn one_crash()
    ensures { (a b : Crash) → IsCrash a → IsCrash b → record_of a ≡ record_of b → a ≡ b }
{}

/// A content is that of one list of annotations and one of dumps alone, whatever stands behind it.
pub fn one_content()
    ensures { (a b : Crash) (x y : List ℕ) → IsCrash a → IsCrash b
        → content_text a ++ x ≡ content_text b ++ y → (a.annotations ≡ b.annotations)
        × (a.dumps ≡ b.dumps) × (x ≡ y) }
{}
