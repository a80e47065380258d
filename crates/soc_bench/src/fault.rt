//! Why a workload wasn't done.
use std::fmt::{Debug, InlineText};

const ROOM: usize = 128;

/// Why a workload wasn't done. Any error becomes one by `?`.
#[derive(Drop)]
pub enum Fault {
    /// The words name no workload.
    Words,
    /// A call of the workload failed.
    Failed(InlineText<{ ROOM }>),
}

impl Fault {
    /// What the program says.
    pub fn as_str(&self) -> &str {
        match self {
            Fault::Words => {
                "usage: soc_bench bodies MEGABYTES | symbols MEGABYTES | dump KIND | walk DUMP [SYMBOLS..] | report [DUMP [SYMBOLS..]] | signature | search ROWS [FRONT] | hall THREADS TURNS | ring JOBS | together FILE COUNT BATCH"
            }
            Fault::Failed(error) => error.as_str(),
        }
    }

    /// The status that the program ends with: 2 for other words, and 1 for the rest.
    pub fn status(&self) -> u8 {
        match self {
            Fault::Words => 2,
            Fault::Failed(_) => 1,
        }
    }
}

impl<E: Debug + Drop> From<E> for Fault {
    fn from(error: E) -> Fault {
        Fault::Failed(InlineText::of(format_args!("{error:?}")))
    }
}
