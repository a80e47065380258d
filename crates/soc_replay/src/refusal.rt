//! Files and journals that are refused, and the lines that tell it.
ghost use Rattle.std.specs.Prelude.{◌≡◌, ◌++◌, IfOk, codes};
ghost use Rattle.soc_edge.specs.Told.{OnlyWrites, WriteFailed};
ghost use Rattle.soc_replay.specs.Refusals.{of_kit, of_settings, of_tokens, of_tree, line_of, list_file, refusal_line};
ghost use Rattle.soc_replay.specs.inner.Refusals.{Refuses};

use crate::settings::SettingsError;
use crate::token_text::TokensError;
use soc_base::{Bytes, NoMemory, Text};
use soc_edge::{Failed, Sink, TreeError, write_all};
use soc_raw::CrashId;
use soc_report::KitError;
use soc_siglists::ListName;
use std::alloc::Global;

/// Which file is refused, or that a key or the journal is, and why.
#[derive(Drop)]
pub enum FileRefusal {
    SettingsNotToml,
    BadSetting { key: Text },
    BadRule { index: u32 },
    TokensNotToml,
    BadToken { index: u32 },
    /// A line of a list is no pattern.
    BadPattern { list: ListName, line: u64 },
    /// A line of the symbol file of this name is bad.
    BadSymbols { name: Text, line: u64 },
    /// The file of this name is missing, or is no list of paths.
    Missing { name: Text },
    /// The key is no token's.
    UnknownKey,
    /// The disk doesn't begin as a journal does.
    NotJournal,
    /// Neither an entry of a legal log nor the closed gate stands at this place of the journal.
    BadEntry { place: u64 },
    /// The disk gave back another record of the crash of this id than it was given.
    Altered { id: CrashId },
}

/// Why a run's files give nothing to go by.
#[derive(Drop)]
pub enum FilesFault {
    Refused(FileRefusal),
    /// The tree failed.
    Tree,
    /// The maker of patterns failed.
    Maker,
    NoMemory,
}

impl From<TreeError> for FilesFault {
    ghost from_gives = { λ error fault. fault ≡ of_tree error };

    fn from(error: TreeError) -> FilesFault {
        match error {
            TreeError::Failed => FilesFault::Tree,
            TreeError::NoMemory => FilesFault::NoMemory,
        }
    }
}

impl From<SettingsError> for FilesFault {
    ghost from_gives = { λ error fault. fault ≡ of_settings error };

    fn from(error: SettingsError) -> FilesFault {
        FilesFault::Refused(match error {
            SettingsError::NotToml => FileRefusal::SettingsNotToml,
            SettingsError::BadSetting { key } => FileRefusal::BadSetting { key },
            SettingsError::BadRule { index } => FileRefusal::BadRule { index },
            SettingsError::NoMemory => return FilesFault::NoMemory,
        })
    }
}

impl From<TokensError> for FilesFault {
    ghost from_gives = { λ error fault. fault ≡ of_tokens error };

    fn from(error: TokensError) -> FilesFault {
        FilesFault::Refused(match error {
            TokensError::NotToml => FileRefusal::TokensNotToml,
            TokensError::BadToken { index } => FileRefusal::BadToken { index },
            TokensError::NoMemory => return FilesFault::NoMemory,
        })
    }
}

impl From<KitError> for FilesFault {
    ghost from_gives = { λ error fault. fault ≡ of_kit error };

    fn from(error: KitError) -> FilesFault {
        FilesFault::Refused(match error {
            KitError::BadLine { name, line } => FileRefusal::BadSymbols { name, line },
            KitError::BadPattern { list, line } => FileRefusal::BadPattern { list, line },
            KitError::Missing { name } => FileRefusal::Missing { name },
            KitError::MakerFault => return FilesFault::Maker,
            KitError::TreeFault => return FilesFault::Tree,
            KitError::NoMemory => return FilesFault::NoMemory,
        })
    }
}

/// What became of the line that tells a refusal.
#[derive(Clone, Copy, PartialEq, Eq)]
pub(crate) enum Line {
    Written,
    /// The output failed.
    Cut,
    /// An allocation was refused, and nothing was written.
    NoMemory,
}

/// Writes the line that tells a refusal.
pub(crate) fn refuse<K: Sink>(alloc: Global, output: &mut K, refusal: &FileRefusal) -> Line
    ensures refuses { Refuses (K.told output.old) (K.told output.new)
        (refusal_line refusal.now) result }
    ensures cause { result ≡ Line.Cut → WriteFailed (K.told output.old) (K.told output.new) }
    ensures only { OnlyWrites (K.told output.old) (K.told output.new) }
{
    let Ok(line) = refusal_line(alloc, refusal) else {
        return Line::NoMemory;
    };
    match write_all(output, line.as_slice()) {
        Ok(()) => Line::Written,
        Err(Failed) => Line::Cut,
    }
}

/// The line that tells which file is refused, and why.
fn refusal_line(alloc: Global, refusal: &FileRefusal) -> Result<Bytes, NoMemory>
    ensures { IfOk result (λ text. text ≡ refusal_line refusal.now) }
{
    let mut digits = itoa::Buffer::new();
    match refusal {
        FileRefusal::SettingsNotToml => line_of(alloc, "settings.toml", ": 110", ""),
        FileRefusal::BadSetting { key } => line_of(alloc, "settings.toml", ": 111 ", key.as_str()),
        FileRefusal::BadRule { index } => {
            line_of(alloc, "settings.toml", ": 20 ", digits.format(*index))
        }
        FileRefusal::TokensNotToml => line_of(alloc, "tokens.toml", ": 110", ""),
        FileRefusal::BadToken { index } => {
            line_of(alloc, "tokens.toml", ": 70 ", digits.format(*index))
        }
        FileRefusal::BadPattern { list, line: at } => {
            line_of(alloc, list_file(*list), ": 60 ", digits.format(*at))
        }
        FileRefusal::BadSymbols { name, line: at } => {
            line_of(alloc, name.as_str(), ": 50 ", digits.format(*at))
        }
        FileRefusal::Missing { name } => line_of(alloc, name.as_str(), ": 72", ""),
        FileRefusal::UnknownKey => line_of(alloc, "token", "", ""),
        FileRefusal::NotJournal => line_of(alloc, "journal", ": 30", ""),
        FileRefusal::BadEntry { place } => line_of(
            alloc,
            "journal",
            ": 33 ",
            digits.format(*place),
        ),
        FileRefusal::Altered { id } => line_of(alloc, "journal", ": 34 ", id.as_str()),
    }
}

/// The file of a list.
fn list_file(list: ListName) -> &'static str
    ensures { result.now ≡ list_file list }
{
    match list {
        ListName::Irrelevant => "irrelevant.txt",
        ListName::Prefix => "prefix.txt",
        ListName::Sentinel => "sentinel.txt",
    }
}

/// The line that refuses a file by a number, with a detail.
fn line_of(alloc: Global, name: &str, number: &str, detail: &str) -> Result<Bytes, NoMemory>
    ensures { IfOk result (λ text. text ≡ line_of name.now number.now detail.now) }
{
    let mut text = Vec::from_slice(alloc, b"refused ")?;
    text.extend_from_slice(name.as_bytes())?;
    text.extend_from_slice(number.as_bytes())?;
    text.extend_from_slice(detail.as_bytes())?;
    text.push(b'\n')?;
    Ok(Bytes::from(text))
}
