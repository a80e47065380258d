//! Where the fields of a minidump's structures stand.
use crate::field::{Field, field};

// The header, 32 bytes. The version is the low half of four bytes.
pub const HEADER_SIZE: usize = 32;

pub const HEADER_SIGNATURE: Field = field!(0, 4);

pub const HEADER_VERSION: Field = field!(4, 2);

pub const HEADER_COUNT: Field = field!(8, 4);

pub const HEADER_DIRECTORY: Field = field!(12, 4);
// `MDMP`.
pub const SIGNATURE: u32 = 0x504D444D;

pub const VERSION: u32 = 0xA793;
// An entry of the directory.
pub const STREAM_ENTRY_SIZE: usize = 12;

pub const STREAM_KIND: Field = field!(0, 4);

pub const STREAM_SIZE: Field = field!(4, 4);

pub const STREAM_PLACE: Field = field!(8, 4);
// The kinds of stream that are used.
pub const THREAD_LIST: u32 = 3;

pub const MODULE_LIST: u32 = 4;

pub const MEMORY_LIST: u32 = 5;

pub const EXCEPTION_STREAM: u32 = 6;

pub const SYSTEM_STREAM: u32 = 7;
// A list begins with the number of its entries.
pub const LIST_COUNT: Field = field!(0, 4);
// An entry of the thread list.
pub const THREAD_SIZE: usize = 48;

pub const THREAD_ID: Field = field!(0, 4);

pub const THREAD_STACK_START: Field = field!(24, 8);

pub const THREAD_STACK_SIZE: Field = field!(32, 4);

pub const THREAD_STACK_PLACE: Field = field!(36, 4);

pub const THREAD_CONTEXT_SIZE: Field = field!(40, 4);

pub const THREAD_CONTEXT_PLACE: Field = field!(44, 4);
// An entry of the module list.
pub const MODULE_SIZE: usize = 108;

pub const MODULE_BASE: Field = field!(0, 8);

pub const MODULE_LENGTH: Field = field!(8, 4);

pub const MODULE_NAME_PLACE: Field = field!(20, 4);

pub const MODULE_CODE_VIEW_SIZE: Field = field!(76, 4);

pub const MODULE_CODE_VIEW_PLACE: Field = field!(80, 4);
// A string begins with its length in bytes.
pub const STRING_HEAD: usize = 4;

pub const STRING_LENGTH: Field = field!(0, 4);
// An entry of the memory list.
pub const MEMORY_SIZE: usize = 16;

pub const MEMORY_START: Field = field!(0, 8);

pub const MEMORY_LENGTH: Field = field!(8, 4);

pub const MEMORY_PLACE: Field = field!(12, 4);
// The exception.
pub const EXCEPTION_SIZE: usize = 168;

pub const EXCEPTION_THREAD: Field = field!(0, 4);

pub const EXCEPTION_CODE: Field = field!(8, 4);

pub const EXCEPTION_ADDRESS: Field = field!(24, 8);

pub const EXCEPTION_COUNT: Field = field!(32, 4);

pub const EXCEPTION_PARAMETERS: usize = 40;

pub const EXCEPTION_CONTEXT_SIZE: Field = field!(160, 4);

pub const EXCEPTION_CONTEXT_PLACE: Field = field!(164, 4);
// The system.
pub const SYSTEM_SIZE: usize = 56;

pub const SYSTEM_ARCHITECTURE: Field = field!(0, 2);

pub const SYSTEM_PROCESSORS: Field = field!(6, 1);

pub const SYSTEM_MAJOR: Field = field!(8, 4);

pub const SYSTEM_MINOR: Field = field!(12, 4);

pub const SYSTEM_BUILD: Field = field!(16, 4);

pub const SYSTEM_PLATFORM: Field = field!(20, 4);
// A code view record: its kind, and a GUID, an age and a file name, or a build id.
pub const CODE_VIEW_KIND: Field = field!(0, 4);

pub const CODE_VIEW_ID: usize = 4;
// `RSDS`.
pub const PDB_KIND: u32 = 0x53445352;

pub const PDB_AGE: Field = field!(20, 4);

pub const PDB_FILE: usize = 24;

pub const BUILD_ID_KIND: u32 = 0x4270454C;
