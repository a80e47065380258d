//! The value that a source gives.
ghost use Rattle.std.specs.Prelude.{◌≡◌, Some, IfOk, option_map};
ghost use Rattle.std.specs.Option.{option_copied};
ghost use Rattle.soc_dump.specs.Names.{architecture_name_of, platform_name_of};
ghost use Rattle.soc_dump.specs.Views.{exception_entry};
ghost use Rattle.soc_schema.specs.declared.value.Value.TheVariants.{Text as TextValue, Number as NumberValue, Flag as FlagValue};
ghost use Rattle.soc_report.specs.Cuts.{cut_text};
ghost use Rattle.soc_report.specs.Dumps.{dump_in};
ghost use Rattle.soc_report.specs.Report as report;
ghost use Rattle.soc_report.specs.Report.{value_from, filled, notes_of, system_in, exception_in};
ghost use Rattle.soc_report.specs.Stacks.{thread_of};
ghost use Rattle.soc_report.specs.inner.Known.{known_view, source_view};

use crate::annotations::{age_since, flag_at, number_at, text_at};
use crate::dump::{address_text, dump_notes, reason_of, version_text};
use crate::known::Known;
use crate::moment::moment_text;
use crate::source::Source;
use crate::stack::thread_of;
use soc_base::{NoMemory, SharedText, Text, TextList};
use soc_dump::{Exception, System, architecture_name, platform_name};
use soc_schema::Value;
use soc_sigrules::join;
use std::alloc::Global;

/// The most bytes of a text that is copied from an annotation.
const TEXT_LIMIT: usize = 1024;

/// What stands between notes.
const SEPARATOR: &str = "; ";

/// A text, in memory of its own.
fn text_value(alloc: Global, text: &str) -> Result<Option<Value>, NoMemory>
    ensures { IfOk result (λ value. value ≡ Some (TextValue text.now)) }
{
    Ok(Some(Value::text(alloc, text)?))
}

/// A text as a value.
fn owned(alloc: Global, text: Text) -> Result<Option<Value>, NoMemory>
    ensures { IfOk result (λ value. value ≡ Some (TextValue text)) }
{
    Ok(Some(Value::Text(SharedText::new(alloc, text)?)))
}

/// A text that is there, in memory of its own.
fn copied(alloc: Global, text: Option<&str>) -> Result<Option<Value>, NoMemory>
    ensures { IfOk result (λ value. value ≡ option_map TextValue (option_copied text.entry)) }
{
    match text {
        Some(text) => text_value(alloc, text),
        None => Ok(None),
    }
}

/// A text's first bytes, up to the limit, less those of a character that the limit would cut.
pub fn cut_text(text: &str) -> &str
    ensures { result.now ≡ cut_text text.now }
{
    &text[..text.floor_char_boundary(TEXT_LIMIT)]
}

/// A text that is there, cut, in memory of its own.
fn cut(alloc: Global, text: Option<&str>) -> Result<Option<Value>, NoMemory>
    ensures { IfOk result (λ value. value
        ≡ option_map (λ t. TextValue (cut_text t)) (option_copied text.entry)) }
{
    match text {
        Some(text) => text_value(alloc, cut_text(text)),
        None => Ok(None),
    }
}

/// A text that isn't empty.
fn filled(alloc: Global, text: &str) -> Result<Option<Value>, NoMemory>
    ensures { IfOk result (λ value. value ≡ filled text.now) }
{
    if text.is_empty() {
        Ok(None)
    } else {
        text_value(alloc, text)
    }
}

/// A number that is there.
fn number(number: Option<u64>) -> Option<Value>
    ensures { result ≡ option_map NumberValue number }
{
    Some(Value::Number(number?))
}

/// A flag that is there.
fn flag(flag: Option<bool>) -> Option<Value>
    ensures { result ≡ option_map FlagValue flag }
{
    Some(Value::Flag(flag?))
}

impl<'a> Known<'a> {
    /// The system, where the dump tells it.
    fn system(&self) -> Option<&System>
        ensures { option_copied result ≡ system_in self.now.reading.now }
    {
        self.reading.dump()?.system()
    }

    /// The exception, where the dump has one.
    fn exception(&self) -> Option<&Exception<'_>>
        ensures { option_map (λ e. exception_entry e.now) result
            ≡ exception_in self.now.reading.now }
    {
        self.reading.dump()?.exception()
    }

    /// The place of the crashing thread.
    fn thread(&self) -> Option<u64>
        ensures { result ≡ thread_of (dump_in self.now.reading.now) }
    {
        Some(thread_of(self.reading.dump())? as u64)
    }

    /// How many frames were walked, where there is a crashing thread.
    fn frames(&self) -> Option<u64>
        ensures { result ≡ option_map (λ _. self.now.frame_count)
            (thread_of (dump_in self.now.reading.now)) }
    {
        if self.thread().is_some() {
            Some(self.frame_count)
        } else {
            None
        }
    }

    fn architecture(&self) -> Option<&'static str>
        ensures { option_copied result
            ≡ option_map (λ s. architecture_name_of s.arch) (system_in self.now.reading.now) }
    {
        Some(architecture_name(self.system()?.arch))
    }

    fn platform(&self) -> Option<&'static str>
        ensures { option_copied result
            ≡ option_map (λ s. platform_name_of s.platform) (system_in self.now.reading.now) }
    {
        Some(platform_name(self.system()?.platform))
    }

    fn processors(&self) -> Option<u64>
        ensures { result ≡ option_map (λ s. s.processors) (system_in self.now.reading.now) }
    {
        Some(u64::from(self.system()?.processors))
    }

    /// The system's version.
    fn version(&self, alloc: Global) -> Result<Option<Value>, NoMemory>
        ensures { IfOk result (λ value. value ≡ value_from (known_view self.now) report.version) }
    {
        match self.system() {
            Some(system) => owned(alloc, version_text(alloc, system)?),
            None => Ok(None),
        }
    }

    /// Where the exception happened.
    fn address(&self, alloc: Global) -> Result<Option<Value>, NoMemory>
        ensures { IfOk result (λ value. value ≡ value_from (known_view self.now) report.address) }
    {
        match self.exception() {
            Some(exception) => owned(alloc, address_text(alloc, exception)?),
            None => Ok(None),
        }
    }

    /// Why the process ended.
    fn reason(&self, alloc: Global) -> Result<Option<Value>, NoMemory>
        ensures { IfOk result (λ value. value ≡ value_from (known_view self.now) report.reason) }
    {
        let Some(dump) = self.reading.dump() else {
            return Ok(None);
        };
        match reason_of(alloc, dump)? {
            Some(reason) => owned(alloc, reason),
            None => Ok(None),
        }
    }

    /// What is noted of the dump, and then of the signature.
    fn notes(&self, alloc: Global) -> Result<Text, NoMemory>
        ensures { IfOk result (λ text. text ≡ notes_of (known_view self.now)) }
    {
        let mut notes = dump_notes(alloc, self.reading)?;
        for note in &self.signature.notes {
            notes.push(Text::of(alloc, note)?)?;
        }
        join(alloc, SEPARATOR, &notes)
    }

    /// The value that a source gives, if it gives one.
    pub fn value(&self, alloc: Global, source: Source) -> Result<Option<Value>, NoMemory>
        ensures { IfOk result (λ value. value
            ≡ value_from (known_view self.now) (source_view source)) }
    {
        match source {
            Source::Product => copied(alloc, text_at(self.raw, "ProductName")),
            Source::Text(name) => cut(alloc, text_at(self.raw, name)),
            Source::Number(name) => Ok(number(number_at(self.raw, name))),
            Source::Flag(name) => Ok(flag(flag_at(self.raw, name))),
            Source::Age(name) => Ok(number(age_since(self.raw, name))),
            Source::Id => text_value(alloc, self.raw.id.as_str()),
            Source::Moment => owned(alloc, moment_text(alloc, self.raw.moment)?),
            Source::Rule => text_value(alloc, self.raw.rule.as_str()),
            Source::Success => Ok(Some(Value::Flag(self.reading.dump().is_some()))),
            Source::Architecture => copied(alloc, self.architecture()),
            Source::Processors => Ok(number(self.processors())),
            Source::Platform => copied(alloc, self.platform()),
            Source::Version => self.version(alloc),
            Source::Modules => Ok(number(self.module_count)),
            Source::Address => self.address(alloc),
            Source::Reason => self.reason(alloc),
            Source::Thread => Ok(number(self.thread())),
            Source::Frames => Ok(number(self.frames())),
            Source::Signature => text_value(alloc, self.signature.text.as_str()),
            Source::Proto => filled(alloc, self.signature.proto.as_str()),
            Source::Notes => filled(alloc, self.notes(alloc)?.as_str()),
        }
    }
}
