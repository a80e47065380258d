//! The table of fields.
use soc_schema::Field;
use soc_tables::{Fault, Row, copy};
use std::alloc::Global;

/// The names of the fields in the code, in the order of the table.
fn fields() -> [Field; 36] {
    [
        Field::ABORT_MESSAGE,
        Field::ADAPTER_DEVICE_ID,
        Field::ADAPTER_VENDOR_ID,
        Field::ADDONS,
        Field::ADDRESS,
        Field::ASYNC_SHUTDOWN_TIMEOUT,
        Field::AVAILABLE_PAGE_FILE,
        Field::BUILD_ID,
        Field::CPU_ARCH,
        Field::CPU_COUNT,
        Field::CRASHING_THREAD,
        Field::DATE,
        Field::EMAIL,
        Field::FRAME_COUNT,
        Field::INSTALL_AGE,
        Field::IPC_CHANNEL_ERROR,
        Field::MODULE_COUNT,
        Field::MOZ_CRASH_REASON,
        Field::NOTES,
        Field::OOM_ALLOCATION_SIZE,
        Field::PLATFORM,
        Field::PLATFORM_VERSION,
        Field::PROCESS_TYPE,
        Field::PRODUCT,
        Field::PROTO_SIGNATURE,
        Field::REASON,
        Field::RELEASE_CHANNEL,
        Field::SIGNATURE,
        Field::STARTUP_CRASH,
        Field::SUCCESS,
        Field::THROTTLE_RULE,
        Field::UPTIME,
        Field::URL,
        Field::USER_COMMENTS,
        Field::UUID,
        Field::VERSION,
    ]
}

/// The place of a field, its kind and its permission, where its name, its annotation and the code's name agree.
pub fn field(alloc: Global, row: &Row<'_>) -> Result<String, Fault> {
    let Some(field) = Field::named(row.cell("name")?) else {
        return copy(alloc, "none");
    };
    let is_one = match row.cell("annotation")? {
        "-" => true,
        annotation => Field::of_annotation(annotation) == Some(field),
    };
    if is_one && is_at_its_place(field) {
        field_text(alloc, field)
    } else {
        copy(alloc, "another field")
    }
}

/// Whether the code names the field at its place, and the field there is this one.
fn is_at_its_place(field: Field) -> bool {
    let place = field.place();
    match fields().get(usize::from(place)) {
        Some(named) => *named == field && Field::at(place) == field,
        None => false,
    }
}

fn field_text(alloc: Global, field: Field) -> Result<String, Fault> {
    Ok(format!(in alloc;
        "{} {:?} {:?}",
        field.place(),
        field.kind(),
        field.permission()
    )?)
}

/// The field of a name, and the field of an annotation of that name.
pub fn named(alloc: Global, row: &Row<'_>) -> Result<String, Fault> {
    let name = row.text(alloc, "name")?;
    let field = name_of(Field::named(name.as_str()));
    let of_annotation = name_of(Field::of_annotation(name.as_str()));
    Ok(format!(in alloc; "{field}, {of_annotation}")?)
}

fn name_of(field: Option<Field>) -> &'static str {
    match field {
        Some(field) => field.name(),
        None => "none",
    }
}
