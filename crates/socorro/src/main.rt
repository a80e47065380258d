//! The program: it makes the real folder, input, output, address, journal's file, clock and draws, and leaves the rest to
//! `soc_serve`.
#![tactic(auto)]

use soc_collect::Tally;
use soc_edge::{Both, Counted, ReadAhead, World};
use soc_serve::{run_hall, run_words};
use soc_service::OpenGate;
use soc_siglists::RegexMaker;
use soc_system::{
    Alarm, Ending, Folder, InputStream, JournalFile, OutputStream, SocketLimits, SocketListener,
    SystemClock, SystemDraws, can_be_read,
};
use soc_words::{Task, Words, WordsError};
use std::env;
use std::io::{self, ErrorKind};
use std::process::ExitCode;
use std::sync::Wait;
use std::thread::Threads;

/// The journal's file and the folder of other words' runs.
const JOURNAL: &str = "journal.soc";

const TREE: &str = ".";

/// The status where the system gives no words, no moment or no random bytes.
const READ_FAULT: u8 = 6;

/// The status where there is no memory for the words.
const NO_MEMORY: u8 = 10;

fn main(rt: HostRuntime) -> ExitCode {
    let ending = match words_of(&rt) {
        Ok(words) => answer(&rt, &rt, words.as_slice()),
        Err(error) => Ending::of(status_of(&error)),
    };
    ending.tell(&rt);
    ExitCode::from(ending.status)
}

/// Does what the words say, by threads where that is the service.
fn answer<R: Threads + Wait + Sync>(threads: &R, rt: &HostRuntime, words: &[String]) -> Ending {
    match Words::read(rt.alloc(), words) {
        Ok(said) => match draws_of(rt, said.command) {
            Some(draws) => match said.command {
                Task::Serve | Task::Storm => serve(threads, rt, words, &said, draws),
                Task::Check | Task::Make | Task::Replay | Task::Export => {
                    run(rt, words, said.journal.as_str(), said.tree.as_str(), draws)
                }
            },
            None => Ending::of(READ_FAULT),
        },
        Err(WordsError::NotOurs) => run(rt, words, JOURNAL, TREE, SystemDraws::none()),
        Err(WordsError::NoMemory) => Ending::of(NO_MEMORY),
    }
}

/// Draws for the command. Only `replay` and `serve` need any, and a clock: there are none where the system gives no random
/// bytes, or its clock can't be read.
fn draws_of(rt: &HostRuntime, command: Task) -> Option<SystemDraws> {
    match command {
        Task::Replay | Task::Serve => {
            if !can_be_read(rt) {
                return None;
            }
            SystemDraws::new(rt).ok()
        }
        Task::Check | Task::Make | Task::Storm | Task::Export => Some(SystemDraws::none()),
    }
}

/// Runs the service over an address, a journal's file and a folder of the system. A storm touches none of these.
fn serve<R: Threads + Wait + Sync>(
    rt: &R,
    system: &HostRuntime,
    words: &[String],
    said: &Words,
    draws: SystemDraws,
) -> Ending {
    let Ok(alarm) = Alarm::new() else {
        return Ending::of(READ_FAULT);
    };
    let journal = JournalFile::new(system, said.journal.as_str(), &alarm);
    let Ok(disk) = ReadAhead::new(system.alloc(), Counted::new(journal)) else {
        return Ending::of(NO_MEMORY);
    };
    let mut world = World {
        tree: Folder::new(system, said.tree.as_str()),
        streams: OutputStream::new(system.stdout()),
        disk,
        clock: SystemClock::new(system),
        draws,
        maker: RegexMaker::new(),
    };
    let limits = SocketLimits::of_service();
    let listener = SocketListener::new(system, said.listen.as_str(), &alarm, limits);
    let mut served = Tally::new();
    let (status, _listener, _jobs) = run_hall(
        rt,
        system.alloc(),
        words,
        &mut world,
        listener,
        &OpenGate,
        &mut served,
    );
    Ending {
        status,
        refusal: world.streams.refusal(),
    }
}

/// Runs the program over a journal's file and a folder.
fn run(
    rt: &HostRuntime,
    words: &[String],
    journal: &str,
    tree: &str,
    draws: SystemDraws,
) -> Ending {
    let alarm = Alarm::unheard();
    let journal = JournalFile::new(rt, journal, &alarm);
    let Ok(disk) = ReadAhead::new(rt.alloc(), Counted::new(journal)) else {
        return Ending::of(NO_MEMORY);
    };
    let mut world = World {
        tree: Folder::new(rt, tree),
        streams: Both {
            source: InputStream::new(rt.stdin()),
            sink: OutputStream::new(rt.stdout()),
        },
        disk,
        clock: SystemClock::new(rt),
        draws,
        maker: RegexMaker::new(),
    };
    let status = run_words(rt.alloc(), words, &mut world);
    Ending {
        status,
        refusal: world.streams.sink.refusal(),
    }
}

/// The words behind the program's name. A word that isn't UTF-8 is no word of a command, and there are none then.
fn words_of(rt: &HostRuntime) -> io::Result<Vec<String>> {
    let mut words = Vec::new(rt.alloc());
    match env::args(rt) {
        Ok(args) => {
            for word in args.skip(1) {
                words.push(word)?;
            }
            Ok(words)
        }
        Err(error) if error.kind() == ErrorKind::InvalidData => Ok(words),
        Err(error) => Err(error),
    }
}

fn status_of(error: &io::Error) -> u8 {
    match error.kind() {
        ErrorKind::OutOfMemory => NO_MEMORY,
        _ => READ_FAULT,
    }
}
