//! Lives of a desk that follow one another on one disk, each stopped where a seed says, beside a model of what is known.
use crate::case::{joined, number_of, table_at, text_of};
use crate::fault::Fault;
use crate::known::{Answer, Known, Seen};
use crate::play::{Left, disk_with, run};
use crate::sweep::{calls_from, number_behind, text_in, words_of};
use soc_base::Bytes;
use soc_edge::{MemDisk, Numbers};
use soc_toml::text_at;
use std::alloc::Global;
use toml::Table;

/// How many commands a life is asked.
const COMMANDS: u64 = 6;

/// The life that a seed may give other lists.
const CHANGED: u64 = 1;

/// The life that is only read.
const LAST: u64 = 3;

/// The calls that write and sync what a disk begins with, and how many behind them one may be the first that fails.
const FIRST_CALLS: u64 = 2;

const FAILING: u64 = 64;

/// What each reply begins with.
const START: &str = "HTTP/1.1 ";

#[derive(Clone, Copy)]
enum Command {
    Send,
    SendSecond,
    Withdraw,
    Ask,
    Drain,
}

/// Numbers that follow from a seed.
#[derive(Drop)]
struct Draws {
    state: u64,
}

impl Draws {
    fn next(&mut self) -> u64 {
        self.state = self
            .state
            .wrapping_mul(6_364_136_223_846_793_005)
            .wrapping_add(1_442_695_040_888_963_407);
        self.state ^ (self.state >> 29)
    }

    fn commands(&mut self, alloc: Global, count: u64) -> Result<Vec<Command>, Fault> {
        let mut commands = Vec::new(alloc);
        for _ in 0..count {
            commands.push(match self.next() % 8 {
                0 | 1 => Command::Send,
                2 | 3 => Command::SendSecond,
                4 => Command::Withdraw,
                5 => Command::Ask,
                _ => Command::Drain,
            })?;
        }
        Ok(commands)
    }

    /// The calls that fail: one, or all from it on, and in the last life none.
    fn fails(&mut self, alloc: Global, number: u64) -> Result<Numbers, Fault> {
        let first = FIRST_CALLS + self.next() % FAILING;
        let count = if self.next() % 2 == 0 { 1 } else { 1_024 };
        calls_from(alloc, first, if number == LAST { 0 } else { count })
    }
}

/// What a life leaves for the next: the disk's bytes, and what is known of the two crashes. Only the second is withdrawn.
#[derive(Drop)]
struct Course {
    bytes: Vec<u8>,
    first: Known,
    second: Known,
}

/// Plays lives for each seed up to the case's `seeds`. Prints those that show something else than is known, and how many of
/// how many they are.
pub fn follow<R: Print + AllocGlobal>(rt: &R, document: &Table, case: &Table) -> Result<(), Fault> {
    let name = text_of(case, "name")?;
    let mut played = 0u64;
    let mut wrong = 0u64;
    for seed in 0..number_of(case, "seeds", 0)? {
        let first = first_wrong(rt.alloc(), document, case, seed)?;
        if let Some(life) = first {
            println!(rt; "{name}: not what is known in life {life} of seed {seed}")?;
            wrong = wrong.saturating_add(1);
        }
        played = played.saturating_add(lives_to(first));
    }
    println!(rt; "{name}: {played} lives, {wrong} wrong")?;
    Ok(())
}

/// How many lives were played up to the first wrong one, or all.
fn lives_to(wrong: Option<u64>) -> u64 {
    wrong.unwrap_or(LAST).saturating_add(1)
}

/// The first of a seed's lives that shows something else than is known, where there is one.
fn first_wrong(
    alloc: Global,
    document: &Table,
    case: &Table,
    seed: u64,
) -> Result<Option<u64>, Fault> {
    let mut draws = Draws { state: seed };
    let mut course = Course {
        bytes: Vec::new(alloc),
        first: Known::unsent(),
        second: Known::unsent(),
    };
    for life in 0..=LAST {
        if !live(alloc, document, case, &mut draws, &mut course, life)? {
            return Ok(Some(life));
        }
    }
    Ok(None)
}

/// Plays one life: its journal is counted, it is read, asked commands and read again, and stopped.
fn live(
    alloc: Global,
    document: &Table,
    case: &Table,
    draws: &mut Draws,
    course: &mut Course,
    number: u64,
) -> Result<bool, Fault> {
    let first_lists = number != CHANGED || draws.next() % 2 == 0;
    let lists = table_at(case, if first_lists { "lists" } else { "other_lists" })?;
    let counted = count_journal(alloc, lists, course)?;
    let commands = draws.commands(alloc, if number == LAST { 0 } else { COMMANDS })?;
    let fails = draws.fails(alloc, number)?;
    let disk = disk_with(alloc, course.bytes.as_slice(), fails)?;
    let left = run_life(alloc, document, case, lists, &commands, disk)?;
    let life = Life {
        document,
        lists,
        first_lists,
        counted,
        commands: commands.as_slice(),
    };
    let is_known = is_told(alloc, life, &left, course)? && (number != LAST || left.status == 0);
    stop(course, left, draws.next())?;
    Ok(is_known)
}

/// Runs a life over a disk.
fn run_life(
    alloc: Global,
    document: &Table,
    case: &Table,
    lists: &Table,
    commands: &[Command],
    disk: MemDisk,
) -> Result<Left, Fault> {
    let input = input_of(alloc, document, case, commands)?;
    let words = words_of(alloc, "replay")?;
    run(alloc, &words, lists, input, disk)
}

/// The next life begins with what a stop leaves.
fn stop(course: &mut Course, left: Left, choice: u64) -> Result<(), Fault> {
    let image = left.disk.stop(choice);
    course.bytes.clear();
    course.bytes.extend_from_slice(image.bytes())?;
    Ok(())
}

/// What `check` tells of a journal.
#[derive(Clone, Copy)]
struct Counted {
    crashes: u64,
    withdrawn: u64,
}

/// Counts the journal that a stop has left. Where its creation was cut short there is none.
fn count_journal(alloc: Global, lists: &Table, course: &mut Course) -> Result<Counted, Fault> {
    let disk = disk_with(alloc, course.bytes.as_slice(), none_of(alloc))?;
    let left = run(
        alloc,
        &words_of(alloc, "check")?,
        lists,
        Bytes::of(alloc, b"")?,
        disk,
    )?;
    course.bytes.clear();
    if left.status == 0 {
        course.bytes.extend_from_slice(left.disk.bytes())?;
    }
    let counts = text_in(&left.output)?;
    Ok(Counted {
        crashes: number_behind(counts, "crashes "),
        withdrawn: number_behind(counts, "withdrawn "),
    })
}

fn none_of(alloc: Global) -> Numbers {
    Numbers::new(Vec::new(alloc))
}

/// What a life is sent: both crashes and their reports are read, then come the commands, and the reports are read again.
fn input_of(
    alloc: Global,
    document: &Table,
    case: &Table,
    commands: &[Command],
) -> Result<Bytes, Fault> {
    let mut input = joined(alloc, document, case, "opening")?;
    for command in commands {
        let message = joined(alloc, document, case, key_of(*command))?;
        input.extend_from_slice(message.as_slice())?;
    }
    let closing = joined(alloc, document, case, "closing")?;
    input.extend_from_slice(closing.as_slice())?;
    Ok(Bytes::from(input))
}

fn key_of(command: Command) -> &'static str {
    match command {
        Command::Send => "send",
        Command::SendSecond => "send_second",
        Command::Withdraw => "withdraw_second",
        Command::Ask => "ask",
        Command::Drain => "drain",
    }
}

/// The replies of a life, each from its status on.
fn replies_in(alloc: Global, text: &str) -> Result<Vec<&str>, Fault> {
    let mut replies = Vec::new(alloc);
    for reply in text.split(START).skip(1) {
        replies.push(reply)?;
    }
    Ok(replies)
}

/// What a life goes by.
#[derive(Clone, Copy)]
struct Life<'a> {
    document: &'a Table,
    lists: &'a Table,
    first_lists: bool,
    counted: Counted,
    commands: &'a [Command],
}

/// Whether a life tells what is known. What it tells is known from then on.
fn is_told(alloc: Global, life: Life<'_>, left: &Left, course: &mut Course) -> Result<bool, Fault> {
    let replies = replies_in(alloc, text_in(&left.output)?)?;
    let failed = left.status != 0;
    if replies.is_empty() {
        return Ok(failed);
    }
    let replies = replies.as_slice();
    let are_reports = are_reports(life, replies)?;
    let opened = opens(life, replies, course);
    let answered = answers_all(life, replies, course);
    let read = course.first.read(is_done(behind(life, replies, 4)))
        & course.second.read(is_done(behind(life, replies, 5)));
    course.first.close(life.first_lists, failed);
    course.second.close(life.first_lists, failed);
    Ok(are_reports && opened && answered && read)
}

/// The reply at a place, if there is one.
fn at<'a>(replies: &[&'a str], place: usize) -> &'a str {
    match replies.get(place) {
        Some(reply) => reply,
        None => "",
    }
}

/// The reply at a place behind those to the commands.
fn behind<'a>(life: Life<'_>, replies: &[&'a str], place: usize) -> &'a str {
    at(replies, life.commands.len().saturating_add(place))
}

/// Whether the replies to a life's first messages, and the counts before it, are what is known.
fn opens(life: Life<'_>, replies: &[&str], course: &mut Course) -> bool {
    let first = Seen {
        shown: is_shown(at(replies, 0)),
        withdrawn: false,
        reported: is_done(at(replies, 1)),
    };
    let second = Seen {
        shown: is_shown(at(replies, 2)),
        withdrawn: life.counted.withdrawn == 1,
        reported: is_done(at(replies, 3)),
    };
    let crashes = match (first.shown, second.shown) {
        (true, true) => 2,
        (false, false) => 0,
        _ => 1,
    };
    let is_first = course.first.open(first, life.first_lists);
    let is_second = course.second.open(second, life.first_lists);
    is_first && is_second && life.counted.crashes == crashes && life.counted.withdrawn <= 1
}

/// Whether each answer is what is known.
fn answers_all(life: Life<'_>, replies: &[&str], course: &mut Course) -> bool {
    let mut are_known = true;
    for (command, reply) in life.commands.iter().zip(replies.iter().skip(4)) {
        are_known &= answers(*command, answer_of(reply), course);
    }
    are_known
}

/// Whether an answer is what is known.
fn answers(command: Command, answer: Answer, course: &mut Course) -> bool {
    match command {
        Command::Send => course.first.send(answer),
        Command::SendSecond => course.second.send(answer),
        Command::Withdraw => course.second.withdraw(answer),
        Command::Ask => course.first.ask(answer),
        Command::Drain => course.first.drain(answer) & course.second.drain(answer),
    }
}

/// Whether each report that is shown is the one that the lists' table names.
fn are_reports(life: Life<'_>, replies: &[&str]) -> Result<bool, Fault> {
    let first = report_of(life, "report")?;
    let second = report_of(life, "report_second")?;
    Ok(
        is_report(at(replies, 1), first)
            && is_report(at(replies, 3), second)
            && is_report(behind(life, replies, 4), first)
            && is_report(behind(life, replies, 5), second),
    )
}

/// The report that the lists' table names, from its status on.
fn report_of<'a>(life: Life<'a>, key: &'static str) -> Result<&'a str, Fault> {
    let text = text_at(table_at(life.document, "text")?, text_of(life.lists, key)?);
    let report = text.and_then(|text| text.strip_prefix(START));
    report.ok_or(Fault::Wrong(key))
}

/// Whether a reply tells this report, or none.
fn is_report(reply: &str, report: &str) -> bool {
    reply == report || reply.starts_with("404 ")
}

fn answer_of(reply: &str) -> Answer {
    if is_done(reply) {
        Answer::Done
    } else if reply.starts_with("404 ") {
        Answer::NotFound
    } else if reply.starts_with("410 ") {
        Answer::Withdrawn
    } else if is_fault(reply) {
        Answer::Fault
    } else {
        Answer::Other
    }
}

fn is_done(reply: &str) -> bool {
    reply.starts_with("200 ")
}

fn is_fault(reply: &str) -> bool {
    reply.starts_with("503 ")
}

/// A disk that fails is told only of a crash that is shown.
fn is_shown(reply: &str) -> bool {
    is_done(reply) || is_fault(reply)
}
