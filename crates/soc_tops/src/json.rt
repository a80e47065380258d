//! Top crashers as JSON (RFC 8259).
ghost use Rattle.std.specs.Prelude.{◌≡◌, ◌++◌, OnOk};
ghost use Rattle.soc_tops.specs.Json.{counts_json, rank_json, ranks_json, top_json};
ghost use Rattle.soc_schema.specs.Commas.{joined};

use crate::tops::{Top, Tops};
use soc_base::{Bytes, NoMemory};
use soc_schema::{put_comma, put_number, put_text};
use std::alloc::Global;

impl Tops {
    ghost use Rattle.std.specs.Prelude.{◌≡◌, IfOk};
    ghost use Rattle.soc_tops.specs.Json.{tops_json};

    /// The answer as an object, compact, with names in byte order.
    pub fn json(&self, alloc: Global) -> Result<Bytes, NoMemory>
        ensures { IfOk result (λ text. text ≡ tops_json self.now) }
    {
        let mut out = Vec::new(alloc);
        out.extend_from_slice(b"{\"tops\":[")?;
        put_tops(alloc, &mut out, self.tops.as_slice())?;
        out.extend_from_slice(b"],\"total\":")?;
        put_number(&mut out, self.total)?;
        out.extend_from_slice(b"}")?;
        Ok(Bytes::from(out))
    }
}

fn put_tops(alloc: Global, out: &mut Vec<u8>, tops: &[Top]) -> Result<(), NoMemory>
    ensures { OnOk result (out.new.items ≡ out.old.items ++ joined top_json tops.now) }
{
    for (i, top) in tops.iter().enumerate() {
        put_comma(out, i)?;
        put_top(alloc, out, top)?;
    }
    Ok(())
}

fn put_top(alloc: Global, out: &mut Vec<u8>, top: &Top) -> Result<(), NoMemory>
    ensures { OnOk result (out.new.items ≡ out.old.items ++ top_json top.now) }
{
    put_counts(out, top)?;
    put_ranks(out, top)?;
    out.extend_from_slice(b",\"signature\":")?;
    put_text(alloc, out, top.signature.as_str())?;
    out.extend_from_slice(b"}")?;
    Ok(())
}

fn put_counts(out: &mut Vec<u8>, top: &Top) -> Result<(), NoMemory>
    ensures { OnOk result (out.new.items ≡ out.old.items ++ counts_json top.now) }
{
    out.extend_from_slice(b"{\"count\":")?;
    put_number(out, top.count)?;
    out.extend_from_slice(b",\"old_count\":")?;
    put_number(out, top.old_count)?;
    Ok(())
}

fn put_ranks(out: &mut Vec<u8>, top: &Top) -> Result<(), NoMemory>
    ensures { OnOk result (out.new.items ≡ out.old.items ++ ranks_json top.now) }
{
    out.extend_from_slice(b",\"old_rank\":")?;
    put_rank(out, top.old_rank)?;
    out.extend_from_slice(b",\"rank\":")?;
    put_number(out, top.rank)?;
    Ok(())
}

fn put_rank(out: &mut Vec<u8>, rank: Option<u64>) -> Result<(), NoMemory>
    ensures { OnOk result (out.new.items ≡ out.old.items ++ rank_json rank) }
{
    match rank {
        Some(rank) => put_number(out, rank)?,
        None => out.extend_from_slice(b"null")?,
    }
    Ok(())
}
