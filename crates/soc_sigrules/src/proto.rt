//! The frames as they are.
ghost use Rattle.std.specs.Prelude.{◌≡◌, false, true, [], OnOk};
ghost use Rattle.soc_sigrules.specs.inner.Steps.{proto_with};

use crate::short::Short;
use crate::stack::SEPARATOR;
use soc_base::{NoMemory, Text};
use std::alloc::Global;
use std::marker::Model;

/// How many characters are kept.
const MOST: usize = 2_000;

/// The frames with a separator between them, up to 2,000 characters.
#[derive(Drop)]
pub struct Proto {
    text: Short<MOST>,
    has_frames: bool,
}

impl Model for Proto {
    ghost use Rattle.soc_sigrules.specs.inner.Protos.{ProtoState};

    ghost Value = { ProtoState };

    ghost view = { λ p. record { has_frames = p.has_frames; text = p.text } };
}

impl Proto {
    /// No frames.
    pub fn new(alloc: Global) -> Proto
        ensures { result ≡ record { has_frames = false; text = [] } }
    {
        Proto {
            text: Short::new(alloc),
            has_frames: false,
        }
    }

    /// Adds a frame.
    pub fn push(&mut self, frame: &str) -> Result<(), NoMemory>
        ensures { OnOk result (self.new
            ≡ record {
              has_frames = true;
              text = proto_with self.old.has_frames self.old.text
                  frame.now;
            }) }
    {
        if self.has_frames {
            self.text.push(SEPARATOR)?;
        }
        self.text.push(frame)?;
        self.has_frames = true;
        Ok(())
    }

    /// The text.
    pub fn into_text(self) -> Text
        ensures { result ≡ self.text }
    {
        self.text.into_text()
    }
}
