//! Forms whose bodies come in pieces.
ghost use Rattle.std.specs.Prelude.{◌≡◌, ◌++◌, ◌≤◌, List, ℕ, [], IfOk, IfErr, OnOk, length};
ghost use Rattle.std.specs.Option.{option_copied};
ghost use Rattle.soc_forms.specs.declared.form_error.FormError.{FormError as Refusal};
ghost use Rattle.soc_forms.specs.Fits.{FitsCrash};
ghost use Rattle.soc_forms.specs.FormErrors.{LinesRefusal};
ghost use Rattle.soc_forms.specs.FormLines.{AreFormLines};
ghost use Rattle.soc_forms.specs.Forms.{BodySays, FormHasRefused, FormRefusesFor};
ghost use Rattle.soc_multipart.specs.Readers.{WasFed};
ghost use Rattle.soc_forms.specs.SubmissionViews.{submission_text};
ghost use Rattle.soc_forms.specs.Submissions.{BodyRefusal};

use crate::form_error::FormError;
use crate::form_lines::boundary_of;
use crate::submissions::{Submission, form_error, said_by};
use soc_base::Pairs;
use soc_multipart::Reader;
use std::alloc::Global;
use std::marker::Model;

/// A form whose body comes in pieces. One that has refused answers so from then on.
#[derive(Drop)]
pub struct Form {
    alloc: Global,
    reader: Reader,
}

impl Model for Form {
    ghost use Rattle.soc_multipart.specs.Readers.{ReaderText};

    ghost Value = { ReaderText };

    ghost view = { λ f. f.reader };
}

impl Form {
    /// A form of a message with these lines: its `Content-Encoding`, if it has one, and its `Content-Type` lines.
    pub fn new(alloc: Global, encoding: Option<&str>, kinds: &Pairs) -> Result<Form, FormError>
        ensures found { IfOk result (λ form.
            AreFormLines (option_copied encoding.entry) kinds.now form.boundary × WasFed form []) }
        ensures refused { IfErr result (LinesRefusal (option_copied encoding.entry) kinds.now) }
    {
        let boundary = boundary_of(alloc, encoding, kinds)?;
        match Reader::new(alloc, boundary.as_slice()) {
            Ok(reader) => Ok(Form { alloc, reader }),
            Err(error) => Err(form_error(error)),
        }
    }

    /// Takes the next piece of the body. A refusal comes only where each continuation of the body has it.
    pub fn feed(&mut self, piece: &[u8]) -> Result<(), FormError>
        ensures goes_on { (fed : List ℕ) → WasFed self.old fed
            → OnOk result (WasFed self.new (fed ++ piece.now)) }
        ensures refused { (fed : List ℕ) → WasFed self.old fed
            → IfErr result (FormRefusesFor self.old.boundary (fed ++ piece.now)) }
        ensures keeps { self.new.boundary ≡ self.old.boundary }
        ensures stays { IfErr result (FormHasRefused self.new) }
        ensures again { (error : Refusal) → FormHasRefused self.old error → result ≡ Err error }
    {
        if let Err(error) = self.reader.feed(piece) {
            return Err(form_error(error));
        }
        Ok(())
    }

    /// The submission that the message is, whose body ends here.
    pub fn finish(self) -> Result<Submission, FormError>
        ensures found { (fed : List ℕ) → WasFed self fed
            → IfOk result (λ said. BodySays self.boundary fed (submission_text said)) }
        ensures fits { (fed : List ℕ) → WasFed self fed
            → IfOk result (λ said. length fed ≤ 16777216 → FitsCrash (submission_text said)) }
        ensures refused { (fed : List ℕ) → WasFed self fed
            → IfErr result (BodyRefusal self.boundary fed) }
        ensures again { (error : Refusal) → FormHasRefused self error → result ≡ Err error }
    {
        let Form { alloc, reader } = self;
        match reader.finish() {
            Ok(parts) => said_by(alloc, parts),
            Err(error) => Err(form_error(error)),
        }
    }
}
