//! Why a call gave nothing.
use std::fmt::{Debug, Display, InlineText};

const ROOM: usize = 256;

/// Why a call gave nothing, in words. Any error becomes one by `?`, so a row may want the refusal of a call.
#[derive(Drop)]
pub struct Fault {
    text: InlineText<{ ROOM }>,
}

impl Fault {
    /// For this reason.
    pub fn new<D: Display + Drop>(why: D) -> Fault {
        Fault {
            text: InlineText::of(why),
        }
    }

    /// The words.
    pub fn as_str(&self) -> &str {
        self.text.as_str()
    }
}

impl<E: Debug + Drop> From<E> for Fault {
    fn from(error: E) -> Fault {
        Fault::new(format_args!("refused: {error:?}"))
    }
}
