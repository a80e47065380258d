//! Names of architectures and platforms, and the texts of crash reasons.
ghost use Rattle.std.specs.Prelude.{◌≡◌, IfOk, option_map};
ghost use Rattle.soc_dump.specs.Names.{architecture_name_of, platform_name_of, windows_reason_of, signal_of, access_of, access_suffix_of, reason_name_of, reason_suffix_of, code_text, crash_reason_of};
ghost use Rattle.soc_dump.specs.Views.{exception_entry};

use crate::exception::Exception;
use soc_base::{NoMemory, Text};
use std::alloc::Global;

const WINDOWS: u32 = 2;

const MAC: u32 = 0x8101;

const LINUX: u32 = 0x8201;

const ANDROID: u32 = 0x8203;

const ACCESS_VIOLATION: u32 = 0xC0000005;

/// The name of a processor's architecture.
pub fn architecture_name(arch: u16) -> &'static str
    ensures { result.now ≡ architecture_name_of arch }
{
    match arch {
        0 => "x86",
        9 => "amd64",
        12 => "arm64",
        _ => "unknown",
    }
}

/// The name of a kind of system.
pub fn platform_name(platform: u32) -> &'static str
    ensures { result.now ≡ platform_name_of platform }
{
    match platform {
        WINDOWS => "Windows NT",
        MAC => "Mac OS X",
        LINUX => "Linux",
        ANDROID => "Android",
        _ => "unknown",
    }
}

/// The name of an exception of Windows.
fn windows_reason(code: u32) -> Option<&'static str>
    ensures { option_map (λ name. name.now) result ≡ windows_reason_of code }
{
    match code {
        ACCESS_VIOLATION => Some("EXCEPTION_ACCESS_VIOLATION"),
        0xC00000FD => Some("EXCEPTION_STACK_OVERFLOW"),
        0x80000003 => Some("EXCEPTION_BREAKPOINT"),
        0xC000001D => Some("EXCEPTION_ILLEGAL_INSTRUCTION"),
        0xC0000094 => Some("EXCEPTION_INT_DIVIDE_BY_ZERO"),
        0xC0000409 => Some("EXCEPTION_STACK_BUFFER_OVERRUN"),
        _ => None,
    }
}

/// The name of a signal of Linux or Android.
fn signal_name(code: u32) -> Option<&'static str>
    ensures { option_map (λ name. name.now) result ≡ signal_of code }
{
    match code {
        4 => Some("SIGILL"),
        5 => Some("SIGTRAP"),
        6 => Some("SIGABRT"),
        7 => Some("SIGBUS"),
        8 => Some("SIGFPE"),
        11 => Some("SIGSEGV"),
        _ => None,
    }
}

/// What an access did, by the exception's first parameter.
fn access_name(parameter: u64) -> &'static str
    ensures { result.now ≡ access_of parameter }
{
    match parameter {
        0 => "_READ",
        1 => "_WRITE",
        8 => "_EXEC",
        _ => "",
    }
}

/// What follows the name of an exception of Windows.
fn access_suffix(exception: &Exception<'_>) -> &'static str
    ensures { result.now ≡ access_suffix_of (exception_entry exception.now) }
{
    if exception.code == ACCESS_VIOLATION && 1 <= exception.count {
        access_name(exception.info[0])
    } else {
        ""
    }
}

/// The name of a code on a platform.
fn reason_name(platform: Option<u32>, code: u32) -> Option<&'static str>
    ensures { option_map (λ name. name.now) result ≡ reason_name_of platform code }
{
    match platform? {
        WINDOWS => windows_reason(code),
        LINUX | ANDROID => signal_name(code),
        _ => None,
    }
}

/// What follows the name of a code on a platform.
fn reason_suffix(platform: Option<u32>, exception: &Exception<'_>) -> &'static str
    ensures { result.now ≡ reason_suffix_of platform (exception_entry exception.now) }
{
    match platform {
        Some(WINDOWS) => access_suffix(exception),
        _ => "",
    }
}

/// The text of a code without a name.
fn code_digits(alloc: Global, code: u32) -> Result<Text, NoMemory>
    ensures { IfOk result (λ text. text ≡ code_text code) }
{
    let digits = hex::encode(alloc, code.to_be_bytes())?;
    Ok(Text::from(format!(in alloc; "0x{digits}")?))
}

/// Why the process ended, in words, for the platform that the dump names.
pub fn crash_reason(
    alloc: Global,
    platform: Option<u32>,
    exception: &Exception<'_>,
) -> Result<Text, NoMemory>
    ensures { IfOk result (λ text. text
        ≡ crash_reason_of platform (exception_entry exception.now)) }
{
    let Some(name) = reason_name(platform, exception.code) else {
        return code_digits(alloc, exception.code);
    };
    let suffix = reason_suffix(platform, exception);
    Ok(Text::from(format!(in alloc; "{name}{suffix}")?))
}
