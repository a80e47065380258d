//! The modules of a dump as JSON.
ghost use Rattle.std.specs.Prelude.{◌≡◌, ◌++◌, map, take, IfOk, OnOk};
ghost use Rattle.std.specs.Option.{option_copied};
ghost use Rattle.soc_dump.specs.Views.{module_entry};
ghost use Rattle.soc_schema.specs.Commas.{joined};
ghost use Rattle.soc_walk.specs.Process.{NoneLonger};
ghost use Rattle.soc_report.specs.Kits.{kit_of, symbols_in};
ghost use Rattle.soc_report.specs.StackText as spec;

use crate::json::{number_member, place_member, put, text_member};
use crate::kit::Kit;
use soc_base::NoMemory;
use soc_dump::{Dump, Module, debug_file, debug_id};
use soc_schema::put_comma;
use soc_walk::{Symbols, symbols_for};
use std::alloc::Global;

/// The most modules that are shown.
const MOST_MODULES: usize = 1_024;

/// A name, where there is one.
fn shown(name: &str) -> Option<&str>
    ensures { option_copied result ≡ spec.shown name.now }
{
    if name.is_empty() { None } else { Some(name) }
}

fn flag_text(flag: bool) -> &'static str
    ensures { result.now ≡ spec.flag_json flag }
{
    if flag { "true" } else { "false" }
}

/// A module with the names of its files.
fn put_named(
    alloc: Global,
    out: &mut Vec<u8>,
    module: &Module<'_>,
    code_file: &str,
    debug_file: Option<&str>,
    debug_id: Option<&str>,
    has_symbols: bool,
) -> Result<(), NoMemory>
    ensures { OnOk result (out.new.items ≡ out.old.items
        ++ spec.named_json «module».now.base «module».now.size code_file.now
        (option_copied debug_file.entry) (option_copied debug_id.entry) has_symbols) }
{
    place_member(alloc, out, "{\"base\":", Some(module.base))?;
    text_member(alloc, out, ",\"code_file\":", Some(code_file))?;
    text_member(alloc, out, ",\"debug_file\":", debug_file)?;
    text_member(alloc, out, ",\"debug_id\":", debug_id)?;
    number_member(out, ",\"size\":", Some(u64::from(module.size)))?;
    put(out, ",\"symbols\":")?;
    put(out, flag_text(has_symbols))?;
    put(out, "}")
}

fn put_module(
    alloc: Global,
    out: &mut Vec<u8>,
    kit: &Kit<'_>,
    longest: usize,
    module: &Module<'_>,
) -> Result<(), NoMemory>
    requires { NoneLonger (symbols_in (kit_of kit.now)) longest }
    ensures { OnOk result (out.new.items ≡ out.old.items
        ++ spec.module_json (kit_of kit.now) (module_entry «module».now)) }
{
    let name = module.name(alloc)?;
    let file = debug_file(alloc, module)?;
    let id = debug_id(alloc, module)?;
    let has_symbols = symbols_for(alloc, module, kit, longest)?.is_some();
    put_named(
        alloc,
        out,
        module,
        name.as_str(),
        shown(file.as_str()),
        shown(id.as_str()),
        has_symbols,
    )
}

/// The first modules of a dump.
fn first_modules<'m, 'd>(modules: &'m [Module<'d>]) -> &'m [Module<'d>]
    ensures { map module_entry result.now
        ≡ take spec.most_modules (map module_entry modules.now) }
{
    if modules.len() > MOST_MODULES {
        &modules[..MOST_MODULES]
    } else {
        modules
    }
}

/// Modules with commas between them.
fn put_all(
    alloc: Global,
    out: &mut Vec<u8>,
    kit: &Kit<'_>,
    modules: &[Module<'_>],
) -> Result<(), NoMemory>
    ensures { OnOk result (out.new.items ≡ out.old.items
        ++ joined (spec.module_json (kit_of kit.now)) (map module_entry modules.now)) }
{
    let longest = kit.longest_name();
    for (place, module) in modules.iter().enumerate() {
        put_comma(out, place)?;
        put_module(alloc, out, kit, longest, module)?;
    }
    Ok(())
}

/// The modules of a dump that are shown.
pub fn put_modules(
    alloc: Global,
    out: &mut Vec<u8>,
    kit: &Kit<'_>,
    dump: &Dump<'_>,
) -> Result<(), NoMemory>
    ensures { OnOk result (out.new.items ≡ out.old.items
        ++ spec.modules_json (kit_of kit.now) dump.now) }
{
    put_all(alloc, out, kit, first_modules(dump.modules()))
}
