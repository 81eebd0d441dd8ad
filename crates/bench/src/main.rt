//! `bench [--times] N [WORKLOAD]`: measures the record requests over a keyed file of N records, by the public call of the
//! library. What is measured stands in `workloads.rt`, the library with its jobs in `library.rt`.
#![tactic(auto)]

mod arguments;
mod library;
mod requests;
mod shuffles;
mod workloads;

use crate::arguments::{USAGE, read_arguments};
use crate::workloads::run;
use std::env;
use std::process::ExitCode;

fn main(rt: HostRuntime) -> ExitCode {
    let words: Vec<String> = match env::args(&rt).map(|words| words.skip(1).collect(rt.alloc())) {
        Ok(Ok(words)) => words,
        Ok(Err(_)) | Err(_) => return refuse(&rt),
    };
    let Some(arguments) = read_arguments(words.as_slice()) else {
        return refuse(&rt);
    };
    match run(&rt, arguments) {
        Ok(()) => ExitCode::SUCCESS,
        Err(error) => {
            let _ = eprintln!(rt; "bench: {error}");
            ExitCode::FAILURE
        }
    }
}

/// Says how the program is run, and gives the status of faulty arguments.
fn refuse(rt: &impl Eprint) -> ExitCode {
    let _ = eprintln!(rt; "{USAGE}");
    ExitCode::from(2)
}
