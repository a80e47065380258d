//! A record, read as its parts.
ghost use Rattle.std.specs.Prelude.{◌≡◌, None, MatchResult};
ghost use Rattle.soc_raw.specs.Refusals.{Refuses};
ghost use Rattle.soc_raw.specs.inner.Reading.{Gives, content_at, crash_at, crash_with};
ghost use Rattle.soc_raw.specs.inner.Parts.{crash_of_parts};

use crate::crash_id::CrashId;
use crate::reading::{blobs_at, id_at, moment_at, texts_at};
use crate::record_error::RecordError;
use soc_base::{Blobs, Cursor, Text, Texts};
use std::alloc::Global;

/// The parts of a record; whether they keep the limits of a raw crash isn't said here.
#[derive(Drop)]
pub struct Parts {
    pub id: CrashId,
    pub moment: u64,
    pub draw: u64,
    pub rule: Text,
    pub annotations: Texts,
    pub dumps: Blobs,
}

/// What tells one crash from another: what stands before the content of a record.
#[derive(Drop)]
struct Head {
    id: CrashId,
    moment: u64,
    draw: u64,
    rule: Text,
}

/// The parts of the record that the bytes are.
pub fn parts_of(alloc: Global, bytes: &[u8]) -> Result<Parts, RecordError>
    ensures { Gives crash_of_parts result (crash_at bytes.now) }
{
    let mut cursor = Cursor::new(bytes);
    let head = head_at(alloc, &mut cursor)?;
    let (annotations, dumps) = content_at(alloc, &mut cursor)?;
    Ok(Parts {
        id: head.id,
        moment: head.moment,
        draw: head.draw,
        rule: head.rule,
        annotations,
        dumps,
    })
}

#[tactic(auto, unfolding(crate::specs::inner::Reading::crash_at))]
fn head_at(alloc: Global, cursor: &mut Cursor<'_>) -> Result<Head, RecordError>
    ensures { MatchResult result (λ head. crash_at cursor.old
        ≡ crash_with head.id head.moment head.draw head.rule cursor.new)
        (λ e. Refuses e (crash_at cursor.old ≡ None)) }
{
    let Some(id) = id_at(cursor) else {
        return Err(RecordError::BadRecord);
    };
    let Some(moment) = moment_at(cursor) else {
        return Err(RecordError::BadRecord);
    };
    let Some(draw) = cursor.u64() else {
        return Err(RecordError::BadRecord);
    };
    let Some(rule) = cursor.text() else {
        return Err(RecordError::BadRecord);
    };
    Ok(Head {
        id,
        moment,
        draw,
        rule: Text::of(alloc, rule)?,
    })
}

/// Annotations and dumps, with nothing behind them.
#[tactic(auto, unfolding(crate::specs::inner::Reading::content_at))]
fn content_at(alloc: Global, cursor: &mut Cursor<'_>) -> Result<(Texts, Blobs), RecordError>
    ensures { Gives (λ content. (content.0, content.1)) result (content_at cursor.old) }
{
    let annotations = texts_at(alloc, cursor)?;
    let dumps = blobs_at(alloc, cursor)?;
    if !cursor.is_empty() {
        return Err(RecordError::BadRecord);
    }
    Ok((annotations, dumps))
}
