//! Why a message is no submission.
use std::fmt;

/// The first reason why a message is no submission.
#[derive(Clone, Copy, Debug, PartialEq, Eq)]
pub enum Reason {
    /// The body is encoded.
    ContentEncoding,
    /// There is not exactly one `Content-Type` line.
    NoContentType,
    /// The media type is not `multipart/form-data`.
    WrongContentType,
    /// The `Content-Type` line names no boundary.
    NoBoundary,
    /// The body has no delimiter.
    NoFirst,
    /// The head of a part is bad.
    BadPartHead,
    /// The body has no closing delimiter.
    NoClose,
    /// The body has more than 512 parts.
    TooManyParts,
    /// The JSON part is no object of texts, integers and their kin, or there are two.
    BadExtra,
    /// There are a JSON part and a plain part.
    ExtraAndPlain,
    /// There are more than 1,024 annotations.
    TooManyAnnotations,
    /// There is no annotation.
    NoAnnotations,
    /// The product's name has more than 1,024 bytes.
    LongProduct,
}

impl Reason {
    ghost use Rattle.std.specs.Prelude.{◌≡◌};
    ghost use Rattle.soc_forms.specs.Reasons.{reason_text};

    /// The reason as replies name it.
    pub fn text(&self) -> &'static str
        ensures { result.now ≡ reason_text self.now }
    {
        match self {
            Reason::ContentEncoding => "content_encoding",
            Reason::NoContentType => "no_content_type",
            Reason::WrongContentType => "wrong_content_type",
            Reason::NoBoundary => "no_boundary",
            Reason::NoFirst => "no_first",
            Reason::BadPartHead => "bad_part_head",
            Reason::NoClose => "no_close",
            Reason::TooManyParts => "too_many_parts",
            Reason::BadExtra => "bad_extra",
            Reason::ExtraAndPlain => "extra_and_plain",
            Reason::TooManyAnnotations => "too_many_annotations",
            Reason::NoAnnotations => "no_annotations",
            Reason::LongProduct => "product_name",
        }
    }
}

impl fmt::Display for Reason {
    ghost use Rattle.std.specs.Prelude.{Some};
    ghost use Rattle.soc_forms.specs.Reasons.{reason_text};

    ghost output = { λ reason. Some (reason_text reason) };

    fn fmt<W: fmt::Write>(&self, f: &mut fmt::Formatter<W>) -> fmt::Result {
        write!(f, "{}", self.text())
    }
}
