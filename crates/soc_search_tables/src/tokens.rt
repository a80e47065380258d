//! Files of tokens, and what callers may see.
use soc_base::TextList;
use soc_schema::{Caller, Field, Permission, ProductNames, Products, Tokens, granted, visible};
use soc_tables::{Fault, Row, append, copy, word};
use std::alloc::Global;

fn tokens_of(alloc: Global, text: &str) -> Result<Tokens, Fault> {
    let table = toml::table_from_str(alloc, text)?;
    Ok(Tokens::read(alloc, &toml::Value::Table(table))?)
}

/// Whether tokens are read.
pub fn tokens(alloc: Global, row: &Row<'_>) -> Result<String, Fault> {
    let text = row.text(alloc, "tokens")?;
    let _ = tokens_of(alloc, text.as_str())?;
    copy(alloc, "read")
}

/// What is told of the caller of a key, where no product is public.
pub fn caller(alloc: Global, row: &Row<'_>) -> Result<String, Fault> {
    let text = row.text(alloc, "tokens")?;
    let tokens = tokens_of(alloc, text.as_str())?;
    let key = match row.cell("key")? {
        "-" => None,
        key => Some(key),
    };
    caller_text(alloc, &tokens, key, row.cell("asked")?)
}

fn caller_text(
    alloc: Global,
    tokens: &Tokens,
    key: Option<&str>,
    asked: &str,
) -> Result<String, Fault> {
    let public = Products::Some(ProductNames::new(alloc, TextList::new(alloc))?);
    match (tokens.caller(alloc, key, &public)?, tokens.knows(key)) {
        (Some(caller), true) => answers(alloc, &caller, asked),
        (None, false) => copy(alloc, "unknown"),
        _ => copy(alloc, "known, with no caller, or the other way round"),
    }
}

fn answers(alloc: Global, caller: &Caller, asked: &str) -> Result<String, Fault> {
    let mut answers = String::new(alloc);
    for asked in asked.split(';') {
        append(
            &mut answers,
            if answer(caller, asked)? { "yes" } else { "no" },
        )?;
    }
    Ok(answers)
}

fn answer(caller: &Caller, asked: &str) -> Result<bool, Fault> {
    match (word(asked, 0), word(asked, 1)) {
        ("sees", "nothing") => Ok(visible(caller, None)),
        ("sees", product) => Ok(visible(caller, Some(product))),
        ("may", name) => Ok(caller.permissions.has(permission_of(name)?)),
        (_, name) => Ok(granted(caller, field_of(name)?)),
    }
}

fn permission_of(name: &str) -> Result<Permission, Fault> {
    match name {
        "operate" => Ok(Permission::Operate),
        "view_rawdump" => Ok(Permission::ViewRawdump),
        _ => Err(Fault::new("no permission")),
    }
}

/// The field of a name.
pub fn field_of(name: &str) -> Result<Field, Fault> {
    Field::named(name).ok_or_else(|| Fault::new("no field"))
}
