//! Bodies that come in pieces.
ghost use Rattle.std.specs.Prelude.{◌≡◌, ◌++◌, List, ℕ, [], IfOk, IfErr, OnOk};
ghost use Rattle.soc_multipart.specs.declared.parts.PartsError.{PartsError as Fault};
ghost use Rattle.soc_multipart.specs.OwnedViews.{owned_texts};
ghost use Rattle.soc_multipart.specs.Parts.{Cut};
ghost use Rattle.soc_multipart.specs.Readers.{HasRefused, IsBadBoundary, PartsStay, RefusesBody, RefusesFor, WasFed};

use crate::delimiters::is_boundary;
use crate::owned_parts::OwnedParts;
use crate::parts::PartsError;
use crate::sections::{State, at_start, fed, finished};
use std::alloc::Global;
use std::marker::Model;
use std::mem;

/// A reader of a body that comes in pieces. It keeps the contents of the parts that have come, and of the rest what may
/// still be needed: a line of the preamble, or a head. A reader that has refused answers so from then on.
#[derive(Drop)]
pub struct Reader {
    alloc: Global,
    boundary: Vec<u8>,
    state: State,
    fault: Option<PartsError>,
}

impl Model for Reader {
    ghost use Rattle.soc_multipart.specs.Readers.{ReaderText};

    ghost Value = { ReaderText };

    ghost use Rattle.soc_multipart.specs.ReaderViews.{reader_text};

    ghost view = { reader_text };
}

impl Reader {
    /// A reader of a body with this boundary.
    pub fn new(alloc: Global, boundary: &[u8]) -> Result<Reader, PartsError>
        ensures found { IfOk result (λ reader. (reader.boundary ≡ boundary.now)
            × WasFed reader []) }
        ensures refused { IfErr result (IsBadBoundary boundary.now) }
    {
        if !is_boundary(boundary) {
            return Err(PartsError::BadBoundary);
        }
        Ok(Reader {
            alloc,
            boundary: Vec::from_slice(alloc, boundary)?,
            state: at_start(alloc),
            fault: None,
        })
    }

    /// Takes the next piece. A refusal comes only where each continuation of the body has it.
    pub fn feed(&mut self, piece: &[u8]) -> Result<(), PartsError>
        ensures goes_on { (fed : List ℕ) → WasFed self.old fed
            → OnOk result (WasFed self.new (fed ++ piece.now)) }
        ensures refused { (fed : List ℕ) → WasFed self.old fed
            → IfErr result (RefusesFor self.old.boundary (fed ++ piece.now)) }
        ensures keeps { self.new.boundary ≡ self.old.boundary }
        ensures stays { IfErr result (HasRefused self.new) }
        ensures again { (fault : Fault) → HasRefused self.old fault → result ≡ Err fault }
    {
        if let Some(fault) = self.fault {
            return Err(fault);
        }
        let state = mem::replace(&mut self.state, at_start(self.alloc));
        match fed(self.alloc, self.boundary.as_slice(), state, piece) {
            Ok(state) => {
                self.state = state;
                Ok(())
            }
            Err(fault) => {
                self.fault = Some(fault);
                Err(fault)
            }
        }
    }

    /// The parts of the body, which ends here.
    pub fn finish(self) -> Result<OwnedParts, PartsError>
        ensures found { (fed : List ℕ) → WasFed self fed
            → IfOk result (λ parts. Cut self.boundary fed (owned_texts parts.items)) }
        ensures refused { (fed : List ℕ) → WasFed self fed
            → IfErr result (RefusesBody self.boundary fed) }
        ensures again { (fault : Fault) → HasRefused self fault → result ≡ Err fault }
    {
        let Reader {
            alloc,
            boundary,
            state,
            fault,
        } = self;
        if let Some(fault) = fault {
            return Err(fault);
        }
        finished(alloc, boundary.as_slice(), state)
    }
}

/// The parts that a reader has taken are the first parts of the body, however it goes on.
pub fn parts_stay()
    ensures { PartsStay }
{}
