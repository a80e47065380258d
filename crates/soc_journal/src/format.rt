//! The bytes of a journal that have a meaning of their own.
ghost use Rattle.std.specs.Prelude.{◌≡◌};
ghost use Rattle.soc_journal.specs.Entries.{has_kind};

/// The kind of an entry whose body is the record of an accepted crash.
pub const ACCEPT: u8 = b'A';

/// The kind of an entry whose body is the id of a crash that was asked for.
pub const ASK: u8 = b'Q';

/// The kind of an entry whose body is the id of a crash that was withdrawn. The first version hasn't got it.
pub const WITHDRAW: u8 = b'W';

/// The kind of an entry whose body is a report that was kept. The first version hasn't got it.
pub const REPORT: u8 = b'R';

/// The most bytes that an entry's body has.
pub const MAX_BODY: u32 = 67_108_864;

/// What a journal begins with, before the version byte.
pub const MAGIC: [u8; 7] = *b"SOCJ000";

/// The version byte of a journal of the first version. Any other byte is the second.
pub const FIRST_VERSION: u8 = b'1';

/// The version byte that is written.
pub const SECOND_VERSION: u8 = b'2';

/// A journal without entries: the header and one closed gate.
pub const EMPTY_JOURNAL: [u8; 9] = *b"SOCJ0002\x00";

/// Where the version byte stands.
pub const VERSION_PLACE: u64 = 7;

/// Where the first gate stands.
pub const FIRST_GATE: u64 = 8;

/// The gate of an entry that counts. Any other byte is a closed gate.
pub const OPEN_GATE: u8 = 0x01;

/// The closed gate that is written.
pub const CLOSED_GATE: u8 = 0x00;

/// How many bytes stand before an entry's body: its gate, its kind and the body's length.
pub const ENTRY_HEAD: usize = 6;

/// Whether a version has entries of a kind.
pub fn has_kind(version: u8, kind: u8) -> bool
    ensures { result ≡ has_kind version kind }
{
    match kind {
        ACCEPT | ASK => true,
        WITHDRAW | REPORT => version != FIRST_VERSION,
        _ => false,
    }
}
