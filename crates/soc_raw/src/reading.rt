//! The parts of a record, read from the front of the bytes.
ghost use Rattle.std.specs.Prelude.{◌≡◌, None};
ghost use Rattle.soc_base.specs.Names.{IsRising};
ghost use Rattle.soc_raw.specs.inner.Reading.{GivesFrom, id_at, moment_at, text_pair_at, blob_pair_at, is_above, last_name, pairs_at, counted_pairs_at};
ghost use Rattle.soc_base.specs.Cursor.{ReadsAs};

use crate::crash_id::CrashId;
use crate::day::{FIRST_MOMENT, LAST_MOMENT};
use crate::record_error::RecordError;
use soc_base::{Blobs, Cursor, Texts};
use std::alloc::Global;

const ID_LENGTH: usize = 36;

const MAX_ANNOTATIONS: u32 = 1024;

const MAX_DUMPS: u32 = 512;

/// A crash id.
#[tactic(auto, unfolding(crate::specs::inner::Reading::id_at))]
pub fn id_at(cursor: &mut Cursor<'_>) -> Option<CrashId>
    ensures { ReadsAs (λ id. id) id_at result cursor.old cursor.new }
{
    let Some(text) = cursor.take(ID_LENGTH) else {
        return None;
    };
    CrashId::of_bytes(text)
}

/// A moment of a clock.
#[tactic(auto, unfolding(crate::specs::inner::Reading::moment_at))]
pub fn moment_at(cursor: &mut Cursor<'_>) -> Option<u64>
    ensures { ReadsAs (λ n. n) moment_at result cursor.old cursor.new }
{
    let Some(moment) = cursor.u64() else {
        return None;
    };
    if FIRST_MOMENT <= moment && moment <= LAST_MOMENT {
        Some(moment)
    } else {
        None
    }
}

#[tactic(auto, unfolding(crate::specs::inner::Reading::text_pair_at))]
fn text_pair_at<'a>(cursor: &mut Cursor<'a>) -> Option<(&'a str, &'a str)>
    ensures { ReadsAs (λ p. (p.0.now, p.1.now)) text_pair_at result cursor.old cursor.new }
{
    let Some(name) = cursor.text() else {
        return None;
    };
    let Some(value) = cursor.text() else {
        return None;
    };
    Some((name, value))
}

#[tactic(auto, unfolding(crate::specs::inner::Reading::blob_pair_at))]
fn blob_pair_at<'a>(cursor: &mut Cursor<'a>) -> Option<(&'a str, &'a [u8])>
    ensures { ReadsAs (λ p. (p.0.now, p.1.now)) blob_pair_at result cursor.old cursor.new }
{
    let Some(name) = cursor.text() else {
        return None;
    };
    let Some(value) = cursor.counted() else {
        return None;
    };
    Some((name, value))
}

fn comes_after(last: &str, name: &str) -> bool
    ensures { result ≡ is_above (Some last.now) name.now }
{
    last.cmp(name).is_lt()
}

/// Whether the name stands above all names of the texts.
fn comes_last_of_texts(texts: &Texts, name: &str) -> bool
    ensures above { result ≡ is_above (last_name texts.now) name.now }
    ensures rising { IsRising texts.now }
{
    let count = texts.len();
    if count == 0 {
        return true;
    }
    comes_after(texts.at(count - 1).0, name)
}

/// Whether the name stands above all names of the blobs.
fn comes_last_of_blobs(blobs: &Blobs, name: &str) -> bool
    ensures above { result ≡ is_above (last_name blobs.now) name.now }
    ensures rising { IsRising blobs.now }
{
    let count = blobs.len();
    if count == 0 {
        return true;
    }
    comes_after(blobs.at(count - 1).0, name)
}

fn texts_after(alloc: Global, count: u32, cursor: &mut Cursor<'_>) -> Result<Texts, RecordError>
    ensures { GivesFrom (λ m. m) (pairs_at text_pair_at None count) result cursor.old cursor.new }
{
    let mut texts = Texts::new(alloc);
    for _ in 0..count {
        let Some((name, value)) = text_pair_at(cursor) else {
            return Err(RecordError::BadRecord);
        };
        if !comes_last_of_texts(&texts, name) {
            return Err(RecordError::BadRecord);
        }
        texts.set_copy(alloc, name, value)?;
    }
    Ok(texts)
}

fn blobs_after(alloc: Global, count: u32, cursor: &mut Cursor<'_>) -> Result<Blobs, RecordError>
    ensures { GivesFrom (λ m. m) (pairs_at blob_pair_at None count) result cursor.old cursor.new }
{
    let mut blobs = Blobs::new(alloc);
    for _ in 0..count {
        let Some((name, value)) = blob_pair_at(cursor) else {
            return Err(RecordError::BadRecord);
        };
        if !comes_last_of_blobs(&blobs, name) {
            return Err(RecordError::BadRecord);
        }
        blobs.set_copy(alloc, name, value)?;
    }
    Ok(blobs)
}

/// The annotations: their number, and each of them.
#[tactic(auto, unfolding(crate::specs::inner::Reading::counted_pairs_at))]
pub fn texts_at(alloc: Global, cursor: &mut Cursor<'_>) -> Result<Texts, RecordError>
    ensures { GivesFrom (λ m. m) (counted_pairs_at text_pair_at MAX_ANNOTATIONS) result cursor.old
        cursor.new }
{
    let Some(count) = cursor.u32() else {
        return Err(RecordError::BadRecord);
    };
    if count > MAX_ANNOTATIONS {
        return Err(RecordError::BadRecord);
    }
    texts_after(alloc, count, cursor)
}

/// The dumps: their number, and each of them.
#[tactic(auto, unfolding(crate::specs::inner::Reading::counted_pairs_at))]
pub fn blobs_at(alloc: Global, cursor: &mut Cursor<'_>) -> Result<Blobs, RecordError>
    ensures { GivesFrom (λ m. m) (counted_pairs_at blob_pair_at MAX_DUMPS) result cursor.old
        cursor.new }
{
    let Some(count) = cursor.u32() else {
        return Err(RecordError::BadRecord);
    };
    if count > MAX_DUMPS {
        return Err(RecordError::BadRecord);
    }
    blobs_after(alloc, count, cursor)
}
