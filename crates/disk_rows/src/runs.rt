//! A command over a store in memory.
use ibmi_batch::batch::program;
use ibmi_batch::status::Status;
use std::alloc::{AllocError, Global};
use std::sync::Wait;
use std::thread::Threads;
use store_model::{MemorySink, MemorySource, MemoryStore, OpenGate, StepClock, Store};

/// What came of a command: its status, what it wrote, and the store.
#[derive(Drop)]
pub(crate) struct Outcome {
    pub(crate) status: u8,
    pub(crate) written: MemorySink,
    pub(crate) store: MemoryStore,
}

fn words_of(alloc: Global, words: &[&str]) -> Result<Vec<String>, AllocError> {
    let mut out = Vec::new(alloc);
    for word in words {
        out.push(String::from_str(alloc, word)?)?;
    }
    Ok(out)
}

/// Does a command with an input over a store.
pub(crate) fn run<R: Threads + Wait + Sync>(
    rt: &R,
    alloc: Global,
    store: MemoryStore,
    command: &str,
    input: &str,
) -> Result<Outcome, AllocError> {
    let (status, written, store) = run_over(rt, alloc, store, command, input)?;
    Ok(Outcome {
        status: status.number(),
        written,
        store,
    })
}

/// Does a command with an input over any store; its status, what it wrote, and the store.
pub(crate) fn run_over<R: Threads + Wait + Sync, S: Store + Send + Drop>(
    rt: &R,
    alloc: Global,
    store: S,
    command: &str,
    input: &str,
) -> Result<(Status, MemorySink, S), AllocError> {
    let words = words_of(alloc, &[command, "lib"])?;
    let mut input = MemorySource::over(alloc, input.as_bytes())?;
    let mut written = MemorySink::new(alloc);
    let (status, store, _) = program(
        rt,
        alloc,
        words.as_slice(),
        store,
        &mut input,
        &mut written,
        StepClock::new(),
        &OpenGate,
    );
    Ok((status, written, store))
}

/// The area and the place at which a status says that the store is damaged.
pub(crate) fn damage_of(status: Status) -> Option<(u32, u64)> {
    match status {
        Status::Damaged { area, at } => Some((area, at)),
        _ => None,
    }
}

/// A store with a library in which nothing is.
pub(crate) fn made<R: Threads + Wait + Sync>(
    rt: &R,
    alloc: Global,
) -> Result<MemoryStore, AllocError> {
    let made = run(rt, alloc, MemoryStore::new(alloc), "INZ", "")?;
    Ok(made.store)
}

impl Outcome {
    /// What was written as a text; nothing where it is none.
    pub(crate) fn text(&self) -> &str {
        str::from_utf8(self.written.bytes()).unwrap_or("")
    }
}
