//! Files of settings and of tokens.
use soc_base::{TextList, Texts};
use soc_replay::{Settings, SettingsError, read_tokens};
use soc_schema::Products;
use soc_tables::{Fault, Row};
use std::alloc::Global;

/// What the program prints of a file of settings.
pub fn refusal(alloc: Global, row: &Row<'_>) -> Result<String, Fault> {
    let file = row.bytes(alloc, "file")?;
    match Settings::read(alloc, file.as_slice()) {
        Ok(_) => Ok(String::from_str(alloc, "nothing")?),
        Err(error) => printed(alloc, &error),
    }
}

fn printed(alloc: Global, error: &SettingsError) -> Result<String, Fault> {
    match error {
        SettingsError::NotToml => Ok(String::from_str(alloc, "110")?),
        SettingsError::BadSetting { key } => Ok(format!(in alloc; "111 {}", key.as_str())?),
        SettingsError::BadRule { index } => Ok(format!(in alloc; "20 {index}")?),
        SettingsError::NoMemory => Ok(String::from_str(alloc, "no memory")?),
    }
}

/// The limits of a file of settings, and the products that everybody may see.
pub fn limits(alloc: Global, row: &Row<'_>) -> Result<String, Fault> {
    let file = row.bytes(alloc, "file")?;
    let settings = Settings::read(alloc, file.as_slice())?;
    limits_of(alloc, &settings)
}

fn limits_of(alloc: Global, settings: &Settings) -> Result<String, Fault> {
    let mut text = format!(in alloc;
        "{} {} {}",
        settings.session_bytes, settings.limits.journal_bytes, settings.limits.crashes
    )?;
    match &settings.public {
        Products::All => text.push_str(" all")?,
        Products::Some(products) => push_products(&mut text, products.as_list())?,
    }
    Ok(text)
}

fn push_products(text: &mut String, products: &TextList) -> Result<(), Fault> {
    for place in 0..products.len() {
        text.push(' ')?;
        text.push_str(products.at(place))?;
    }
    Ok(())
}

/// The rule of a file of settings that decides of a crash without annotations.
pub fn decides(alloc: Global, row: &Row<'_>) -> Result<String, Fault> {
    let file = row.bytes(alloc, "file")?;
    let settings = Settings::read(alloc, file.as_slice())?;
    decides_by(alloc, &settings, row.number("draw")?)
}

fn decides_by(alloc: Global, settings: &Settings, draw: u64) -> Result<String, Fault> {
    let nothing = Texts::new(alloc);
    Ok(String::from_str(alloc, settings.rules.verdict(&nothing, draw).rule)?)
}

/// Whether a file of tokens is read.
pub fn tokens(alloc: Global, row: &Row<'_>) -> Result<String, Fault> {
    let file = row.bytes(alloc, "file")?;
    let _ = read_tokens(alloc, file.as_slice())?;
    Ok(String::from_str(alloc, "read")?)
}
