//! A crash's stack as JSON (RFC 8259), compact, with names in byte order.
ghost use Rattle.std.specs.Prelude.{◌≡◌, ◌++◌, IfOk, OnOk};
ghost use Rattle.soc_raw.specs.RawCrash.{crash_of};
ghost use Rattle.soc_report.specs.Dumps as dumps;
ghost use Rattle.soc_report.specs.Kits.{kit_of};
ghost use Rattle.soc_report.specs.StackText as spec;

use crate::dump::{
    Reading, address_text, crashing_thread, reading_of, reason_of, refusal_number, refusal_place,
};
use crate::frame_json::put_stack;
use crate::json::{number_member, put, text_in, text_member};
use crate::kit::Kit;
use crate::module_json::put_modules;
use soc_base::{Bytes, NoMemory, Text};
use soc_dump::{Dump, DumpError};
use soc_raw::RawCrash;
use soc_schema::{Caller, Field, granted};
use std::alloc::Global;

/// Where the exception happened, where the caller may see it.
fn address_shown(alloc: Global, caller: &Caller, dump: &Dump<'_>) -> Result<Option<Text>, NoMemory>
    ensures { IfOk result (λ address. address ≡ spec.address_shown caller.now dump.now) }
{
    if !granted(caller, Field::ADDRESS) {
        return Ok(None);
    }
    match dump.exception() {
        Some(exception) => Ok(Some(address_text(alloc, exception)?)),
        None => Ok(None),
    }
}

/// The place of the crashing thread.
fn thread_number(dump: &Dump<'_>) -> Option<u64>
    ensures { result ≡ dumps.crashing_thread dump.now }
{
    match crashing_thread(dump) {
        Some(place) => Some(place as u64),
        None => None,
    }
}

/// The stack of a dump that was read, with its address and reason.
fn put_told(
    alloc: Global,
    out: &mut Vec<u8>,
    kit: &Kit<'_>,
    id: &str,
    dump: &Dump<'_>,
    address: &Option<Text>,
    reason: &Option<Text>,
) -> Result<(), NoMemory>
    ensures { OnOk result (out.new.items ≡ out.old.items
        ++ spec.told_json (kit_of kit.now) id.now dump.now address.now reason.now) }
{
    text_member(alloc, out, "{\"address\":", text_in(address))?;
    text_member(alloc, out, ",\"crash_id\":", Some(id))?;
    number_member(out, ",\"crashing_thread\":", thread_number(dump))?;
    put(out, ",\"frames\":[")?;
    put_stack(alloc, out, kit, dump)?;
    put(out, "],\"modules\":[")?;
    put_modules(alloc, out, kit, dump)?;
    text_member(alloc, out, "],\"reason\":", text_in(reason))?;
    put(out, ",\"refused\":null}")
}

fn read_json(
    alloc: Global,
    kit: &Kit<'_>,
    caller: &Caller,
    id: &str,
    dump: &Dump<'_>,
) -> Result<Bytes, NoMemory>
    ensures { IfOk result (λ text. text
        ≡ spec.read_json (kit_of kit.now) caller.now id.now dump.now) }
{
    let address = address_shown(alloc, caller, dump)?;
    let reason = reason_of(alloc, dump)?;
    let mut out = Vec::new(alloc);
    put_told(alloc, &mut out, kit, id, dump, &address, &reason)?;
    Ok(Bytes::from(out))
}

/// Why a dump was refused, and where, as far as the caller may see notes.
fn put_refusal(out: &mut Vec<u8>, caller: &Caller, error: DumpError) -> Result<(), NoMemory>
    ensures { OnOk result (out.new.items ≡ out.old.items
        ++ spec.refusal_json caller.now error) }
{
    if !granted(caller, Field::NOTES) {
        return put(out, "{\"number\":null,\"place\":null}");
    }
    number_member(out, "{\"number\":", Some(refusal_number(error)))?;
    number_member(out, ",\"place\":", Some(refusal_place(error)))?;
    put(out, "}")
}

fn put_refused(
    alloc: Global,
    out: &mut Vec<u8>,
    caller: &Caller,
    id: &str,
    error: DumpError,
) -> Result<(), NoMemory>
    ensures { OnOk result (out.new.items ≡ out.old.items
        ++ spec.refused_json caller.now id.now error) }
{
    text_member(alloc, out, "{\"address\":null,\"crash_id\":", Some(id))?;
    put(
        out,
        ",\"crashing_thread\":null,\"frames\":[],\"modules\":[],\"reason\":null,\"refused\":",
    )?;
    put_refusal(out, caller, error)?;
    put(out, "}")
}

fn refused_json(
    alloc: Global,
    caller: &Caller,
    id: &str,
    error: DumpError,
) -> Result<Bytes, NoMemory>
    ensures { IfOk result (λ text. text ≡ spec.refused_json caller.now id.now error) }
{
    let mut out = Vec::new(alloc);
    put_refused(alloc, &mut out, caller, id, error)?;
    Ok(Bytes::from(out))
}

/// The stack of a crash, with what the caller may see beside it: the frames of the crashing thread, and the first 1,024
/// modules, with each text up to 1,024 bytes. `None` without a dump of its process.
pub fn stack_text(
    alloc: Global,
    kit: &Kit<'_>,
    caller: &Caller,
    raw: &RawCrash,
) -> Result<Option<Bytes>, NoMemory>
    ensures { IfOk result (λ text. text
        ≡ spec.stack_text (kit_of kit.now) caller.now (crash_of raw.now)) }
{
    let id = raw.id.as_str();
    match reading_of(alloc, raw)? {
        Reading::Absent => Ok(None),
        Reading::Refused(error) => Ok(Some(refused_json(alloc, caller, id, error)?)),
        Reading::Read(dump) => Ok(Some(read_json(alloc, kit, caller, id, &dump)?)),
    }
}
