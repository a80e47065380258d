//! The words of the command line.
ghost use Rattle.std.specs.Prelude.{◌≡◌, ◌≤◌, ◌≢◌, IfOk, IfSome, None, Some, false, map, string_bytes};
ghost use Rattle.clap.specs.Words.{app_of, found_of, rows_of, rule_of};
ghost use Rattle.clap.specs.Walk.{texts};
ghost use Rattle.soc_words.specs.Words as spec;

use clap::error::ErrorKind;
use clap::{Arg, ArgAction, ArgMatches, Command};
use soc_base::{NoMemory, Text};
use std::alloc::{AllocError, Global};
use thiserror::Error;

/// The greatest seed: 18 digits.
const MOST_SEED: u64 = 999_999_999_999_999_999;

/// The most crashes that are made.
const MOST_CRASHES: u64 = 65_536;

/// The most threads of one kind.
const MOST_THREADS: u64 = 8;

/// What the program is to do.
#[derive(Clone, Copy, Debug, PartialEq, Eq)]
pub enum Task {
    Check,
    Make,
    Replay,
    Serve,
    Storm,
    Export,
}

impl Task {
    fn named(name: &str) -> Option<Task>
        ensures { result ≡ spec.task_named name.now }
    {
        match name {
            "check" => Some(Task::Check),
            "make" => Some(Task::Make),
            "replay" => Some(Task::Replay),
            "serve" => Some(Task::Serve),
            "storm" => Some(Task::Storm),
            "export" => Some(Task::Export),
            _ => None,
        }
    }

    fn name(self) -> &'static str
        ensures { result.now ≡ spec.name_of self }
    {
        match self {
            Task::Check => "check",
            Task::Make => "make",
            Task::Replay => "replay",
            Task::Serve => "serve",
            Task::Storm => "storm",
            Task::Export => "export",
        }
    }

    /// The names of the options that the command takes.
    fn options(self) -> &'static [&'static str]
        ensures { texts result.now ≡ spec.options_of self }
    {
        match self {
            Task::Check => &["journal"],
            Task::Make => &["seed", "count"],
            Task::Replay | Task::Export => &["journal", "tree"],
            Task::Serve => &["journal", "tree", "listen", "collectors", "processors"],
            Task::Storm => &["seed", "count", "collectors", "processors"],
        }
    }
}

/// What the words say. An option that isn't given, or that its command hasn't, holds its default.
#[derive(Debug, Drop)]
pub struct Words {
    pub command: Task,
    /// The path of the journal's file.
    pub journal: Text,
    /// The path of the folder of settings, tokens, lists and symbol files.
    pub tree: Text,
    /// The address to listen at.
    pub listen: Text,
    /// What made crashes are made of, below 10^18.
    pub seed: u64,
    /// How many crashes are made, 1 to 65,536.
    pub count: u32,
    /// How many threads run sessions, 1 to 8.
    pub collectors: u32,
    /// How many threads make reports, 1 to 8.
    pub processors: u32,
}

/// Why words say nothing.
#[derive(Clone, Copy, Debug, PartialEq, Eq, Error)]
pub enum WordsError {
    /// There is no word, the first one is no command, the command doesn't take the others, or a number hasn't its form
    /// or range.
    #[error("not the program's words")]
    NotOurs,
    /// An allocation was refused.
    #[error("out of memory")]
    NoMemory,
}

impl From<NoMemory> for WordsError {
    ghost use Rattle.std.specs.Prelude.{◌≡◌};
    ghost use Rattle.soc_words.specs.declared.words.WordsError.TheVariants.{NoMemory as Lacking};

    ghost from_gives = { λ _ error. error ≡ Lacking };

    fn from(_error: NoMemory) -> WordsError {
        WordsError::NoMemory
    }
}

impl From<AllocError> for WordsError {
    ghost use Rattle.std.specs.Prelude.{◌≡◌};
    ghost use Rattle.soc_words.specs.declared.words.WordsError.TheVariants.{NoMemory as Lacking};

    ghost from_gives = { λ _ error. error ≡ Lacking };

    fn from(_error: AllocError) -> WordsError {
        WordsError::NoMemory
    }
}

impl Words {
    /// What the words behind the program's name say.
    #[tactic(auto, unfolding(crate::specs::Words::words_of))]
    pub fn read(alloc: Global, words: &[String]) -> Result<Words, WordsError>
        ensures ok { IfOk result (λ said. spec.words_of (map string_bytes words.now) ≡ Some said) }
        ensures ranges { IfOk result spec.LieInRanges }
        ensures not_ours { result ≡ Err WordsError.NotOurs
            → spec.words_of (map string_bytes words.now) ≡ None }
        ensures few { IfOk result (λ said. said.count ≤ 65536) }
    {
        let Some((name, rest)) = words.split_first() else {
            return Err(WordsError::NotOurs);
        };
        let Some(task) = Task::named(name.as_str()) else {
            return Err(WordsError::NotOurs);
        };
        read_options(alloc, task, rest)
    }
}

/// What the words behind a command say.
fn read_options(alloc: Global, task: Task, words: &[String]) -> Result<Words, WordsError>
    ensures ok { IfOk result (λ said. spec.words_for (map string_bytes words.now) task
        ≡ Some said) }
    ensures ranges { IfOk result spec.LieInRanges }
    ensures not_ours { result ≡ Err WordsError.NotOurs
        → spec.words_for (map string_bytes words.now) task ≡ None }
    ensures few { IfOk result (λ said. said.count ≤ 65536) }
{
    let mut command = bare_command(alloc, task.name());
    for name in task.options() {
        command = command.arg(option(alloc, name))?;
    }
    match command.try_get_matches_from(words) {
        Ok(matches) => read_matches(alloc, task, &matches),
        Err(error) => Err(refusal_of(error.kind())),
    }
}

fn refusal_of(kind: ErrorKind) -> WordsError
    ensures { result ≡ WordsError.NotOurs → kind ≢ ErrorKind.OutOfMemory }
{
    match kind {
        ErrorKind::OutOfMemory => WordsError::NoMemory,
        _ => WordsError::NotOurs,
    }
}

/// A command whose words have no program's name before them, without flags for help or the version.
fn bare_command(alloc: Global, name: &str) -> Command<'_>
    ensures { app_of result ≡ spec.bare_app name.entry.now }
{
    Command::new(alloc, name)
        .no_binary_name(true)
        .disable_help_flag(true)
        .disable_version_flag(true)
}

/// An option `--name`, with one value.
fn option(alloc: Global, name: &str) -> Arg<'_>
    ensures rule { rule_of result ≡ spec.option_rule name.entry.now }
    ensures local { result.global ≡ false }
{
    Arg::new(alloc, name).long(name).action(ArgAction::Set)
}

/// What the values of the options say.
fn read_matches(alloc: Global, task: Task, matches: &ArgMatches<'_>) -> Result<Words, WordsError>
    ensures ok { IfOk result (λ said. spec.words_in task (rows_of (found_of matches.now))
        ≡ Some said) }
    ensures ranges { IfOk result spec.LieInRanges }
    ensures not_ours { result ≡ Err WordsError.NotOurs
        → spec.words_in task (rows_of (found_of matches.now)) ≡ None }
    ensures few { IfOk result (λ said. said.count ≤ 65536) }
{
    let Some(numbers) = numbers_of(matches) else {
        return Err(WordsError::NotOurs);
    };
    Ok(Words {
        command: task,
        journal: text(alloc, matches, "journal", "journal.soc")?,
        tree: text(alloc, matches, "tree", ".")?,
        listen: text(alloc, matches, "listen", "127.0.0.1:8000")?,
        seed: numbers.seed,
        count: numbers.count,
        collectors: numbers.collectors,
        processors: numbers.processors,
    })
}

/// What the options that are numbers hold.
#[derive(Clone, Copy)]
struct Numbers {
    seed: u64,
    count: u32,
    collectors: u32,
    processors: u32,
}

/// The numbers, where each has its form and range.
fn numbers_of(matches: &ArgMatches<'_>) -> Option<Numbers>
    ensures ranges { IfSome result
        (λ n. spec.AreInRanges n.seed n.count n.collectors n.processors) }
    ensures value { result ≡ spec.numbers_in (rows_of (found_of matches.now)) }
{
    Some(Numbers {
        seed: number(matches, "seed", 0, MOST_SEED, 1)?,
        count: number(matches, "count", 1, MOST_CRASHES, 1)? as u32,
        collectors: number(matches, "collectors", 1, MOST_THREADS, 2)? as u32,
        processors: number(matches, "processors", 1, MOST_THREADS, 2)? as u32,
    })
}

/// What an option of this name and range holds, or its default where it isn't given.
fn number(matches: &ArgMatches<'_>, name: &str, least: u64, most: u64, default: u64) -> Option<u64>
    requires low { least ≤ default }
    requires high { default ≤ most }
    ensures value { result ≡ spec.number_in
        (record { name = name.now; least = least; most = most; default = default })
        (rows_of (found_of matches.now)) }
    ensures range { IfSome result (spec.IsWithin least most) }
{
    match matches.get_str(name) {
        Some(text) => number_between(least, most, text),
        None => Some(default),
    }
}

/// The number of a range that 1 to 18 digits write.
fn number_between(least: u64, most: u64, text: &str) -> Option<u64>
    ensures value { result ≡ spec.number_between least most text.now }
    ensures low { IfSome result (λ number. least ≤ number) }
    ensures high { IfSome result (λ number. number ≤ most) }
{
    let number = number_of(text)?;
    if least <= number && number <= most {
        Some(number)
    } else {
        None
    }
}

/// The number that 1 to 18 digits write.
fn number_of(text: &str) -> Option<u64>
    ensures { result ≡ spec.number_of text.now }
{
    soc_text::number(text.as_bytes(), 18)
}

/// What an option of this name holds, or its default where it isn't given.
fn text(
    alloc: Global,
    matches: &ArgMatches<'_>,
    name: &str,
    default: &str,
) -> Result<Text, NoMemory>
    ensures { IfOk result (λ text. text
        ≡ spec.text_in (record { name = name.now; default = default.now })
        (rows_of (found_of matches.now))) }
{
    Text::of(alloc, matches.get_str(name).unwrap_or(default))
}
