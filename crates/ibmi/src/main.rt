//! `ibmi INZ folder` makes a library, `ibmi RUN folder` and `ibmi SERIAL folder` run the jobs of an input over it and print every call with
//! its reply, and `ibmi DSP folder` shows it. What a command does stands in the crate `ibmi_batch`, the store over a folder in `folder_store`,
//! the real source, sink and clock in `outside`.
#![tactic(auto)]

mod help;
mod kept;

use crate::help::{Remains, say_help, say_in_use, say_terminal_help};
use crate::kept::{KeptSink, KeptSource};
use folder_store::{FolderStore, OpenError};
use ibmi_batch::batch::{program, program_alone};
use ibmi_batch::status::Status;
use ibmi_batch::words::{are_command_words, are_job_words, are_run_words};
use outside::{StandardInput, StandardOutput, SystemClock};
use std::fs::File;
use std::io::{ErrorKind, IsTerminal};
use std::process::ExitCode;
use std::rt::Files;
use std::sync::Wait;
use std::thread::Threads;
use std::{env, io};
use store_model::{Clock, MemoryStore, OpenGate, Sink, Source, Store};

fn main(rt: HostRuntime) -> ExitCode {
    let words: Vec<String> = match env::args(&rt) {
        Ok(words) => match words.skip(1).collect(rt.alloc()) {
            Ok(words) => words,
            Err(_) => return end(&rt, Status::NoMemory),
        },
        Err(error) => return end(&rt, without_words(&error)),
    };
    let Ok(clock) = rt.clone() else {
        return end(&rt, Status::NoMemory);
    };
    let Ok(files) = rt.clone() else {
        return end(&rt, Status::NoMemory);
    };
    let reader = rt.reader();
    if are_job_words(words.as_slice()) && reader.is_terminal() {
        say_terminal_help(&rt, rt.alloc(), words.as_slice());
    }
    let mut input = KeptSource::new(rt.alloc(), StandardInput::new(reader));
    let mut output = KeptSink::new(rt.alloc(), StandardOutput::new(io::writer(&rt)));
    let clock = SystemClock::new(clock);
    let ended = match folder_in(words.as_slice()) {
        Some(folder) => match open_store(files, folder) {
            Ok(store) => Ended::by(run(
                &rt,
                words.as_slice(),
                store,
                &mut input,
                &mut output,
                clock,
            )),
            Err(ended) => ended,
        },
        None => {
            let store = MemoryStore::new(rt.alloc());
            Ended::by(run(&rt, words.as_slice(), store, &mut input, &mut output, clock))
        }
    };
    let code = end(&rt, ended.status);
    if ended.in_use {
        say_in_use(&rt, words.as_slice());
        return code;
    }
    let remains = Remains {
        words: words.as_slice(),
        input: input.kept(),
        listing: output.kept(),
    };
    say_help(&rt, rt.alloc(), ended.status, &remains);
    code
}

/// What a run came to.
#[derive(Clone, Copy)]
struct Ended {
    status: Status,
    /// Another process has the folder.
    in_use: bool,
}

impl Ended {
    fn by(status: Status) -> Ended {
        Ended {
            status,
            in_use: false,
        }
    }
}

/// The folder that the words name, where they are a command. Other words touch none.
fn folder_in(words: &[String]) -> Option<&str> {
    match words {
        [_, folder] if are_command_words(words) => Some(folder.as_str()),
        _ => None,
    }
}

/// The store over a folder, or what a run comes to whose folder can't be opened.
fn open_store<F: Files<File = File> + AllocGlobal + Drop>(
    files: F,
    folder: &str,
) -> Result<FolderStore<F>, Ended> {
    match FolderStore::open(files, folder) {
        Ok(store) => Ok(store),
        Err(OpenError::InUse) => Err(Ended {
            status: Status::StoreFault,
            in_use: true,
        }),
        Err(OpenError::Refused(error)) => Err(Ended::by(without_folder(&error))),
    }
}

/// What a run comes to whose folder can't be opened.
fn without_folder(error: &io::Error) -> Status {
    if error.kind() == ErrorKind::OutOfMemory {
        Status::NoMemory
    } else {
        Status::StoreFault
    }
}

/// Does what the words say: RUN with a runtime for the threads of its jobs, every other command without one.
fn run<
    R: AllocGlobal + Threads + Wait + Sync,
    S: Store + Send + Drop,
    I: Source,
    O: Sink,
    C: Clock + Send + Drop,
>(rt: &R, words: &[String], store: S, input: &mut I, output: &mut O, clock: C) -> Status {
    let alloc = rt.alloc();
    let (status, _store, _clock) = if are_run_words(words) {
        program(rt, alloc, words, store, input, output, clock, &OpenGate)
    } else {
        program_alone(alloc, words, store, input, output, clock)
    };
    status
}

/// What a run comes to whose words can't be had: one of them is no text, or there is no memory for them.
fn without_words(error: &io::Error) -> Status {
    if error.kind() == ErrorKind::OutOfMemory {
        Status::NoMemory
    } else {
        Status::Words
    }
}

/// Says on standard error what a run came to, and gives its number; what can't be said there is lost.
fn end(rt: &impl Eprint, status: Status) -> ExitCode {
    match status {
        Status::Done => {}
        Status::Words => {
            let _ = eprintln!(rt;
                "{status}\nusage: ibmi INZ folder, ibmi RUN folder < input, ibmi SERIAL folder < input, or ibmi DSP folder"
            );
        }
        _ => {
            let _ = eprintln!(rt; "{status}");
        }
    }
    ExitCode::from(status.number())
}
