//! What is asked of a desk, by whom and of which crash.
ghost use Rattle.std.specs.Prelude.{IfOk};
ghost use Rattle.soc_desk.specs.Kinds.{NeedsNothing};

use soc_base::{Pairs, Text, TextList};
use soc_desk::Command;
use soc_query::Query;
use soc_raw::{CrashId, RawCrash};
use soc_schema::{Bare, Caller, Permission, Permissions, Processed, ProductNames, Products};
use soc_tables::{Fault, word};
use soc_tops::TopsQuery;
use std::alloc::Global;

/// The record of a crash of Firefox, which is due at once.
const FIREFOX: &[u8] =
    b"de1bb258-cbbf-4589-a673-34f800160918\x00\xd9\xddW\x00\x00\x00\x00\x00\x00\x00\x00\x00\x00\x00\x00\x0a\x00\x00\x00accept_all\x01\x00\x00\x00\x0b\x00\x00\x00ProductName\x07\x00\x00\x00Firefox\x00\x00\x00\x00";

/// The record of another crash with the same id.
const OTHER: &[u8] =
    b"de1bb258-cbbf-4589-a673-34f800160918\x00\xd9\xddW\x00\x00\x00\x00\x00\x00\x00\x00\x00\x00\x00\x00\x0a\x00\x00\x00accept_all\x01\x00\x00\x00\x03\x00\x00\x00URL\x09\x00\x00\x00http://u/\x01\x00\x00\x00\x04\x00\x00\x00mini\x03\x00\x00\x00abc";

/// The record of a crash of Thunderbird, which is due only when it is asked for.
const DEFERRED: &[u8] =
    b"de1bb258-cbbf-4589-a673-34f801160918\x00\xd9\xddW\x00\x00\x00\x00\x00\x00\x00\x00\x00\x00\x00\x00\x0a\x00\x00\x00accept_all\x01\x00\x00\x00\x0b\x00\x00\x00ProductName\x0b\x00\x00\x00Thunderbird\x00\x00\x00\x00";

/// The record of a third crash.
const THIRD: &[u8] =
    b"de1bb258-cbbf-4589-a673-34f800160919\x00\xd9\xddW\x00\x00\x00\x00\x00\x00\x00\x00\x00\x00\x00\x00\x0a\x00\x00\x00accept_all\x00\x00\x00\x00\x00\x00\x00\x00";

fn record(name: &str) -> Result<&'static [u8], Fault> {
    match name {
        "firefox" => Ok(FIREFOX),
        "other" => Ok(OTHER),
        "deferred" => Ok(DEFERRED),
        "third" => Ok(THIRD),
        _ => Err(Fault::new("no crash of this name")),
    }
}

/// The crash of a name.
pub fn crash(alloc: Global, name: &str) -> Result<RawCrash, Fault> {
    Ok(RawCrash::decode(alloc, record(name)?)?)
}

fn id(alloc: Global, name: &str) -> Result<CrashId, Fault> {
    Ok(crash(alloc, name)?.id)
}

fn permission(name: &str) -> Permission {
    match name {
        "protected" => Permission::ProtectedData,
        "dumps" => Permission::ViewRawdump,
        "reprocessor" => Permission::ReprocessCrashes,
        "operator" => Permission::Operate,
        _ => Permission::Public,
    }
}

/// A caller by its one permission, or one that may do everything with the crashes of one product.
fn caller(alloc: Global, name: &str) -> Result<Caller, Fault> {
    match name.strip_prefix("of_") {
        Some(product) => of_product(alloc, product),
        None => Ok(with(permission(name))),
    }
}

/// A caller of all products with one permission.
pub fn with(permission: Permission) -> Caller {
    let mut permissions = Permissions::public();
    permissions.add(permission);
    Caller {
        permissions,
        products: Products::All,
    }
}

fn of_product(alloc: Global, product: &str) -> Result<Caller, Fault> {
    let mut names = TextList::new(alloc);
    names.push(Text::of(alloc, product)?)?;
    let mut permissions = Permissions::public();
    for name in ["protected", "dumps", "reprocessor", "operator"] {
        permissions.add(permission(name));
    }
    Ok(Caller {
        permissions,
        products: Products::Some(ProductNames::new(alloc, names)?),
    })
}

/// Everything that the caller may see.
fn query(alloc: Global, name: &str) -> Result<Query, Fault> {
    Ok(Query::read(alloc, &Pairs::new(alloc), caller(alloc, name)?)?)
}

/// The crashes of Firefox 150 in May, compared with those of April.
fn of_may(alloc: Global, name: &str) -> Result<TopsQuery, Fault> {
    let mut pairs = Pairs::new(alloc);
    for (name, value) in [
        ("product", "Firefox"),
        ("version", "150.0"),
        ("from", "2026-05-01"),
        ("to", "2026-05-31"),
        ("old_from", "2026-04-01"),
        ("old_to", "2026-04-30"),
    ] {
        pairs.push(Text::of(alloc, name)?, Text::of(alloc, value)?)?;
    }
    Ok(TopsQuery::read(alloc, &pairs, caller(alloc, name)?)?)
}

/// The row that a worker beside the desk makes.
pub fn processed(alloc: Global, name: &str) -> Result<Processed, Fault> {
    match Processed::make(alloc, &Bare, crash(alloc, name)?) {
        Ok(processed) => Ok(processed),
        Err(_) => Err(Fault::new("no memory")),
    }
}

/// The command of an act. Each may be asked at any time.
pub fn command(alloc: Global, act: &str) -> Result<Command, Fault>
    ensures { IfOk result (λ command. NeedsNothing command) }
{
    let first = word(act, 1);
    match word(act, 0) {
        "submit" => Ok(Command::Submit {
            raw: crash(alloc, first)?,
        }),
        "search" => Ok(Command::Search {
            query: query(alloc, first)?,
        }),
        "tops" => Ok(Command::Tops {
            query: of_may(alloc, first)?,
        }),
        "fetch" => Ok(Command::Fetch {
            id: id(alloc, first)?,
        }),
        "turn" => Ok(Command::Turn {
            caller: caller(alloc, first)?,
        }),
        "drain" => Ok(Command::Drain {
            caller: caller(alloc, first)?,
        }),
        "stop" => Ok(Command::Stop {
            caller: caller(alloc, first)?,
        }),
        "counts" => Ok(Command::Counts {
            caller: caller(alloc, first)?,
        }),
        _ => command_on(alloc, act),
    }
}

/// The command of an act on a crash.
fn command_on(alloc: Global, act: &str) -> Result<Command, Fault>
    ensures { IfOk result (λ command. NeedsNothing command) }
{
    let id = id(alloc, word(act, 2))?;
    let caller = caller(alloc, word(act, 1))?;
    match word(act, 0) {
        "priority" => Ok(Command::Priority { caller, id }),
        "reprocess" => Ok(Command::Reprocess { caller, id }),
        "withdraw" => Ok(Command::Withdraw { caller, id }),
        "raw" => Ok(Command::Raw { caller, id }),
        "stack" => Ok(Command::Stack { caller, id }),
        "processed" => Ok(Command::Processed { caller, id }),
        "dump" => {
            let name = Text::of(alloc, word(act, 3))?;
            Ok(Command::Dump { caller, id, name })
        }
        _ => Err(Fault::new("no act")),
    }
}
