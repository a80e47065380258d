//! The fields that one annotation alone makes, searched by it.
ghost use Rattle.std.specs.Prelude.{◌≡◌, ◌≢◌, ℕ, Some, MatchOption};
ghost use Rattle.soc_schema.specs.Fields.{IsField, source_of};

use crate::field::Field;

/// The fields in rising byte order of their annotations.
const BY_ANNOTATION: [Field; 18] = [
    Field::ABORT_MESSAGE,
    Field::ADAPTER_DEVICE_ID,
    Field::ADAPTER_VENDOR_ID,
    Field::ADDONS,
    Field::ASYNC_SHUTDOWN_TIMEOUT,
    Field::AVAILABLE_PAGE_FILE,
    Field::BUILD_ID,
    Field::USER_COMMENTS,
    Field::EMAIL,
    Field::MOZ_CRASH_REASON,
    Field::OOM_ALLOCATION_SIZE,
    Field::PROCESS_TYPE,
    Field::PRODUCT,
    Field::RELEASE_CHANNEL,
    Field::STARTUP_CRASH,
    Field::URL,
    Field::VERSION,
    Field::IPC_CHANNEL_ERROR,
];

/// The field of which this annotation is the one source.
pub(crate) fn field_of(annotation: &str) -> Option<Field>
    ensures { MatchOption result ((f : ℕ) → IsField f → source_of f ≢ Some annotation.now)
        (λ f. IsField f × (source_of f ≡ Some annotation.now)) }
{
    let fields = BY_ANNOTATION;
    match fields.binary_search_by(|field| field.annotation().cmp(annotation)) {
        Ok(place) => Some(fields[place]),
        Err(_) => None,
    }
}
