//! Where the value of each field comes from.
ghost use Rattle.std.specs.Prelude.{◌≡◌, ◌<◌, length, map};
ghost use Rattle.soc_report.specs.Report.{sources};
ghost use Rattle.soc_report.specs.Tables.{AreOneTable};
ghost use Rattle.soc_report.specs.inner.Known.{source_at, source_view};

/// Where the value of a field comes from.
#[derive(Clone, Copy, Debug)]
pub enum Source {
    /// The name of the product.
    Product,
    /// An annotation, as a text that may be cut.
    Text(&'static str),
    /// An annotation that writes a number.
    Number(&'static str),
    /// An annotation that is `1` or not.
    Flag(&'static str),
    /// The time from the moment that an annotation tells to that of the crash.
    Age(&'static str),
    /// The crash's id.
    Id,
    /// When it came.
    Moment,
    /// The rule that accepted it.
    Rule,
    /// Whether its dump was read.
    Success,
    /// The processor's architecture.
    Architecture,
    /// How many processors there were.
    Processors,
    /// The kind of system.
    Platform,
    /// The system's version.
    Version,
    /// How many modules there were.
    Modules,
    /// Where the exception happened.
    Address,
    /// Why the process ended.
    Reason,
    /// The crashing thread's place.
    Thread,
    /// How many frames were walked.
    Frames,
    /// What crashes are grouped by.
    Signature,
    /// All frames.
    Proto,
    /// What went wrong, and which rules changed the signature.
    Notes,
}

/// The sources in the order of the table of fields.
static SOURCES: [Source; 36] = [
    Source::Text("AbortMessage"),
    Source::Text("AdapterDeviceID"),
    Source::Text("AdapterVendorID"),
    Source::Text("Add-ons"),
    Source::Address,
    Source::Text("AsyncShutdownTimeout"),
    Source::Number("AvailablePageFile"),
    Source::Number("BuildID"),
    Source::Architecture,
    Source::Processors,
    Source::Thread,
    Source::Moment,
    Source::Text("Email"),
    Source::Frames,
    Source::Age("InstallTime"),
    Source::Text("ipc_channel_error"),
    Source::Modules,
    Source::Text("MozCrashReason"),
    Source::Notes,
    Source::Number("OOMAllocationSize"),
    Source::Platform,
    Source::Version,
    Source::Text("ProcessType"),
    Source::Product,
    Source::Proto,
    Source::Reason,
    Source::Text("ReleaseChannel"),
    Source::Signature,
    Source::Flag("StartupCrash"),
    Source::Success,
    Source::Rule,
    Source::Age("StartupTime"),
    Source::Text("URL"),
    Source::Text("Comments"),
    Source::Id,
    Source::Text("Version"),
];

/// The sources are in the order of the table of fields, and each annotation is its field's.
pub fn sources_are_of_fields()
    ensures { AreOneTable }
{}

/// The table.
fn table() -> &'static [Source]
    ensures len { length result.now ≡ 36 }
    ensures sources { map source_view result.now ≡ map (λ l. l.source) sources }
{
    &SOURCES
}

impl Source {
    /// The source of the field at a place of the table of fields.
    pub fn at(place: u8) -> Source
        requires { place < 36 }
        ensures { source_view result ≡ source_at place }
    {
        table()[usize::from(place)]
    }
}
