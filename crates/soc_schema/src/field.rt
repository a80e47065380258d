//! The fields of a report: one table, in which each has its name, its kind, the permission that it needs and the
//! annotation that alone makes it.
ghost use Rattle.std.specs.Prelude.{◌≡◌, ◌≢◌, ℕ, None, Some, MatchOption, option_map, length, map};
ghost use Rattle.soc_schema.specs.Fields.{IsField, field_table, name_of, kind_of, permission_of, source_of, field_named, field_of_annotation};
ghost use Rattle.soc_schema.specs.inner.Sources.{annotation_of};

use crate::permission::Permission;
use crate::sources::field_of;
use std::marker::Model;

/// What the values of a field are.
#[derive(Clone, Copy, PartialEq, Eq, Debug)]
pub enum FieldKind {
    /// A text.
    Text,
    /// A whole number below 2^64.
    Number,
    /// True or false.
    Flag,
}

/// One of the 36 fields of a report. A contract sees it as its place in the table, from 0.
#[derive(Clone, Copy, PartialEq, Eq, PartialOrd, Ord, Debug)]
pub struct Field {
    place: u8,
}

impl Model for Field {
    ghost use Rattle.std.specs.Prelude.{ℕ, ◌<◌};

    ghost Value = { ℕ };

    ghost view = { λ f. f.place };

    ghost invariant = { λ f. f.place < 36 };

    ghost inverse = { λ n. record { place = n } };
}

/// What the table says of one field.
struct Entry {
    name: &'static str,
    kind: FieldKind,
    permission: Permission,
    /// The annotation that alone makes the field, where there is one.
    source: Option<&'static str>,
}

macro_rules! entry {
    ($name:literal, $kind:ident, $permission:ident, $source:expr) => {
        Entry {
            name: $name,
            kind: FieldKind::$kind,
            permission: Permission::$permission,
            source: $source,
        }
    };
}

/// The fields in the order of their names' bytes.
static TABLE: [Entry; 36] = [
    entry!("abort_message", Text, ProtectedData, Some("AbortMessage")),
    entry!("adapter_device_id", Text, Public, Some("AdapterDeviceID")),
    entry!("adapter_vendor_id", Text, Public, Some("AdapterVendorID")),
    entry!("addons", Text, ProtectedData, Some("Add-ons")),
    entry!("address", Text, ProtectedData, None),
    entry!(
        "async_shutdown_timeout",
        Text,
        ProtectedData,
        Some("AsyncShutdownTimeout")
    ),
    entry!(
        "available_page_file",
        Number,
        Public,
        Some("AvailablePageFile")
    ),
    entry!("build_id", Number, Public, Some("BuildID")),
    entry!("cpu_arch", Text, Public, None),
    entry!("cpu_count", Number, Public, None),
    entry!("crashing_thread", Number, Public, None),
    entry!("date", Text, Public, None),
    entry!("email", Text, ProtectedData, Some("Email")),
    entry!("frame_count", Number, Public, None),
    entry!("install_age", Number, Public, None),
    entry!("ipc_channel_error", Text, Public, Some("ipc_channel_error")),
    entry!("module_count", Number, Public, None),
    entry!("moz_crash_reason", Text, Public, Some("MozCrashReason")),
    entry!("notes", Text, ProtectedData, None),
    entry!(
        "oom_allocation_size",
        Number,
        Public,
        Some("OOMAllocationSize")
    ),
    entry!("platform", Text, Public, None),
    entry!("platform_version", Text, Public, None),
    entry!("process_type", Text, Public, Some("ProcessType")),
    entry!("product", Text, Public, Some("ProductName")),
    entry!("proto_signature", Text, Public, None),
    entry!("reason", Text, Public, None),
    entry!("release_channel", Text, Public, Some("ReleaseChannel")),
    entry!("signature", Text, Public, None),
    entry!("startup_crash", Flag, Public, Some("StartupCrash")),
    entry!("success", Flag, Public, None),
    entry!("throttle_rule", Text, Public, None),
    entry!("uptime", Number, Public, None),
    entry!("url", Text, ProtectedData, Some("URL")),
    entry!("user_comments", Text, ProtectedData, Some("Comments")),
    entry!("uuid", Text, Public, None),
    entry!("version", Text, Public, Some("Version")),
];

impl Field {
    /// The field `abort_message`.
    pub const ABORT_MESSAGE: Field = Field { place: 0 };

    /// The field `adapter_device_id`.
    pub const ADAPTER_DEVICE_ID: Field = Field { place: 1 };

    /// The field `adapter_vendor_id`.
    pub const ADAPTER_VENDOR_ID: Field = Field { place: 2 };

    /// The field `addons`.
    pub const ADDONS: Field = Field { place: 3 };

    /// The field `address`.
    pub const ADDRESS: Field = Field { place: 4 };

    /// The field `async_shutdown_timeout`.
    pub const ASYNC_SHUTDOWN_TIMEOUT: Field = Field { place: 5 };

    /// The field `available_page_file`.
    pub const AVAILABLE_PAGE_FILE: Field = Field { place: 6 };

    /// The field `build_id`.
    pub const BUILD_ID: Field = Field { place: 7 };

    /// The field `cpu_arch`.
    pub const CPU_ARCH: Field = Field { place: 8 };

    /// The field `cpu_count`.
    pub const CPU_COUNT: Field = Field { place: 9 };

    /// The field `crashing_thread`.
    pub const CRASHING_THREAD: Field = Field { place: 10 };

    /// The field `date`.
    pub const DATE: Field = Field { place: 11 };

    /// The field `email`.
    pub const EMAIL: Field = Field { place: 12 };

    /// The field `frame_count`.
    pub const FRAME_COUNT: Field = Field { place: 13 };

    /// The field `install_age`.
    pub const INSTALL_AGE: Field = Field { place: 14 };

    /// The field `ipc_channel_error`.
    pub const IPC_CHANNEL_ERROR: Field = Field { place: 15 };

    /// The field `module_count`.
    pub const MODULE_COUNT: Field = Field { place: 16 };

    /// The field `moz_crash_reason`.
    pub const MOZ_CRASH_REASON: Field = Field { place: 17 };

    /// The field `notes`.
    pub const NOTES: Field = Field { place: 18 };

    /// The field `oom_allocation_size`.
    pub const OOM_ALLOCATION_SIZE: Field = Field { place: 19 };

    /// The field `platform`.
    pub const PLATFORM: Field = Field { place: 20 };

    /// The field `platform_version`.
    pub const PLATFORM_VERSION: Field = Field { place: 21 };

    /// The field `process_type`.
    pub const PROCESS_TYPE: Field = Field { place: 22 };

    /// The field `product`.
    pub const PRODUCT: Field = Field { place: 23 };

    /// The field `proto_signature`.
    pub const PROTO_SIGNATURE: Field = Field { place: 24 };

    /// The field `reason`.
    pub const REASON: Field = Field { place: 25 };

    /// The field `release_channel`.
    pub const RELEASE_CHANNEL: Field = Field { place: 26 };

    /// The field `signature`.
    pub const SIGNATURE: Field = Field { place: 27 };

    /// The field `startup_crash`.
    pub const STARTUP_CRASH: Field = Field { place: 28 };

    /// The field `success`.
    pub const SUCCESS: Field = Field { place: 29 };

    /// The field `throttle_rule`.
    pub const THROTTLE_RULE: Field = Field { place: 30 };

    /// The field `uptime`.
    pub const UPTIME: Field = Field { place: 31 };

    /// The field `url`.
    pub const URL: Field = Field { place: 32 };

    /// The field `user_comments`.
    pub const USER_COMMENTS: Field = Field { place: 33 };

    /// The field `uuid`.
    pub const UUID: Field = Field { place: 34 };

    /// The field `version`.
    pub const VERSION: Field = Field { place: 35 };

    /// How many fields there are.
    pub const COUNT: u8 = 36;

    /// The field at that place of the table, from 0.
    pub fn at(i: u8) -> Field
        requires { IsField i }
        ensures { result ≡ i }
    {
        Field { place: i }
    }

    /// The field's place in the table, from 0.
    pub fn place(&self) -> u8
        ensures value { result ≡ self.now }
        ensures in_table { IsField result }
    {
        self.place
    }

    /// The field that has exactly this name.
    pub fn named(name: &str) -> Option<Field>
        ensures value { result ≡ field_named name.now }
        ensures found { MatchOption result ((f : ℕ) → IsField f → name_of f ≢ name.now)
            (λ f. IsField f × (name_of f ≡ name.now)) }
    {
        for place in 0..Field::COUNT {
            let field = Field::at(place);
            if field.name() == name {
                return Some(field);
            }
        }
        None
    }

    /// The field of which this annotation is the one source.
    pub fn of_annotation(name: &str) -> Option<Field>
        ensures value { result ≡ field_of_annotation name.now }
        ensures found { MatchOption result ((f : ℕ) → IsField f → source_of f ≢ Some name.now)
            (λ f. IsField f × (source_of f ≡ Some name.now)) }
    {
        field_of(name)
    }

    /// The field's name, as queries and replies write it: no other field has it.
    pub fn name(&self) -> &'static str
        ensures value { result.now ≡ name_of self.now }
        ensures own { field_named result.now ≡ Some self.now }
    {
        self.entry().name
    }

    /// What the field's values are.
    pub fn kind(&self) -> FieldKind
        ensures { result ≡ kind_of self.now }
    {
        self.entry().kind
    }

    /// What a caller needs to see the field.
    pub fn permission(&self) -> Permission
        ensures { result ≡ permission_of self.now }
    {
        self.entry().permission
    }

    /// The annotation that alone makes the field, or nothing.
    pub(crate) fn annotation(&self) -> &'static str
        ensures { result.now ≡ annotation_of self.now }
    {
        self.entry().source.unwrap_or("")
    }

    fn entry(&self) -> &'static Entry
        ensures in_table { IsField self.now }
        ensures name { result.now.name.now ≡ name_of self.now }
        ensures kind { result.now.kind ≡ kind_of self.now }
        ensures permission { result.now.permission ≡ permission_of self.now }
        ensures source { option_map (λ s. s.now) result.now.source ≡ source_of self.now }
    {
        &table()[usize::from(self.place)]
    }
}

/// The table, one entry a field.
fn table() -> &'static [Entry]
    ensures len { length result.now ≡ 36 }
    ensures names { map (λ e. e.name.now) result.now ≡ map (λ e. e.name) field_table }
    ensures kinds { map (λ e. e.kind) result.now ≡ map (λ e. e.kind) field_table }
    ensures permissions { map (λ e. e.permission) result.now ≡ map (λ e. e.permission) field_table }
    ensures sources { map (λ e. option_map (λ s. s.now) e.source) result.now
        ≡ map (λ e. e.source) field_table }
{
    &TABLE
}
