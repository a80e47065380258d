//! The page of top crashers.
ghost use Rattle.std.specs.Prelude.{◌≡◌, ◌++◌, IfOk, OnOk};
ghost use Rattle.std.specs.List.{flat_map};
ghost use Rattle.soc_pages.specs.Pages.{top_row, tops_page};

use crate::escape::{put, put_number, put_text};
use soc_base::{Bytes, NoMemory};
use soc_tops::{Top, Tops};
use std::alloc::Global;

/// The page of top crashers: how many new reports there are, and a table with each signature's rank, the signature, and
/// how many reports of each range of days have it.
pub fn tops_page(alloc: Global, tops: &Tops) -> Result<Bytes, NoMemory>
    ensures { IfOk result (λ page. page ≡ tops_page tops.now) }
{
    let mut out = Vec::new(alloc);
    put(
        &mut out,
        b"<!DOCTYPE html>\n<title>top crashers</title>\n<p>",
    )?;
    put_number(&mut out, tops.total)?;
    put(&mut out, b"</p>\n<table>\n")?;
    put_tops(&mut out, tops.tops.as_slice())?;
    put(&mut out, b"</table>\n")?;
    Ok(Bytes::from(out))
}

fn put_tops(out: &mut Vec<u8>, tops: &[Top]) -> Result<(), NoMemory>
    ensures { OnOk result (out.new.items ≡ out.old.items ++ flat_map top_row tops.now) }
{
    for top in tops {
        put_top(out, top)?;
    }
    Ok(())
}

fn put_top(out: &mut Vec<u8>, top: &Top) -> Result<(), NoMemory>
    ensures { OnOk result (out.new.items ≡ out.old.items ++ top_row top.now) }
{
    put(out, b"<tr><td>")?;
    put_number(out, top.rank)?;
    put(out, b"</td><td>")?;
    put_text(out, top.signature.as_str())?;
    put(out, b"</td><td>")?;
    put_number(out, top.count)?;
    put(out, b"</td><td>")?;
    put_number(out, top.old_count)?;
    put(out, b"</td></tr>\n")?;
    Ok(())
}
