//! The workloads: what each asks, and how it is measured.
use crate::arguments::Arguments;
use crate::library::Bench;
use crate::requests::{Asker, PlainRequest};
use crate::shuffles::{RecordCount, SOUGHT, WRITTEN};
use anyhow::{Result, bail, ensure};
use library_model::limits::{MOST_JOBS, MOST_OPENS};
use std::alloc::AllocError;
use std::io;
use std::rt::Clock;
use std::time::{Duration, Instant};

/// The job whose calls are measured.
const MEASURED: u32 = 1;

/// How many jobs make no call that is measured, where there are any.
const OTHERS: u32 = MOST_JOBS as u32 - 1;

/// What is measured.
#[derive(Clone, Copy, PartialEq)]
pub(crate) enum Workload {
    /// WRITE of every record.
    Write,
    /// The same, with a second access path over the member: that of a view.
    View,
    /// The same, with ten access paths more than the file's own.
    Views,
    /// READ of every record in the order of the keys.
    Read,
    /// CHAIN by key to every record, for update.
    Chain,
    /// The same, and behind each an UPDATE of its key.
    Update,
    /// The same, and behind each a DELETE.
    Delete,
    /// CHAIN by key to the lower half of the records of a journaled file, for update.
    Alone,
    /// The same, beside as many jobs as a run may have, each with as many opens as it may have, which hold locks on the upper half.
    Crowd,
    /// DSPJRN of a hundred entries at a time of a journaled file's adds, in a library that was opened again.
    Display,
}

const WORKLOADS: [Workload; 10] = [
    Workload::Write,
    Workload::View,
    Workload::Views,
    Workload::Read,
    Workload::Chain,
    Workload::Update,
    Workload::Delete,
    Workload::Alone,
    Workload::Crowd,
    Workload::Display,
];

impl Workload {
    /// Its name.
    fn name(self) -> &'static str {
        match self {
            Workload::Write => "write",
            Workload::View => "view",
            Workload::Views => "views",
            Workload::Read => "read",
            Workload::Chain => "chain",
            Workload::Update => "update",
            Workload::Delete => "delete",
            Workload::Alone => "alone",
            Workload::Crowd => "crowd",
            Workload::Display => "display",
        }
    }

    /// How many jobs it has.
    fn jobs(self) -> u32 {
        match self {
            Workload::Crowd => OTHERS + 1,
            Workload::Write
            | Workload::View
            | Workload::Views
            | Workload::Read
            | Workload::Chain
            | Workload::Update
            | Workload::Delete
            | Workload::Alone
            | Workload::Display => 1,
        }
    }

    /// The workload of a name.
    pub(crate) fn named(name: &str) -> Option<Workload> {
        for workload in WORKLOADS {
            if workload.name() == name {
                return Some(workload);
            }
        }
        None
    }
}

/// What a workload took.
#[derive(Clone, Copy)]
struct Measured {
    calls: usize,
    time: Duration,
}

/// Measures what is asked, and prints a line for each workload.
pub(crate) fn run<R: AllocGlobal + Clock + Print>(rt: &R, arguments: Arguments) -> Result<()> {
    match arguments.workload {
        Some(workload) => run_one(rt, arguments, workload),
        None => {
            for workload in WORKLOADS {
                run_one(rt, arguments, workload)?;
            }
            Ok(())
        }
    }
}

fn run_one<R: AllocGlobal + Clock + Print>(
    rt: &R,
    arguments: Arguments,
    workload: Workload,
) -> Result<()> {
    let asker = Asker::new(rt.alloc());
    let mut bench = begin(&asker, arguments.records, workload)?;
    let measured = measure(rt, &asker, &mut bench, arguments.records, workload);
    bench.end();
    print(rt, arguments, workload, measured?)?;
    Ok(())
}

/// The library that a workload wants, behind the calls that go before it.
fn begin(asker: &Asker, records: RecordCount, workload: Workload) -> Result<Bench> {
    let mut bench = Bench::begin(asker, workload.jobs())?;
    if let Err(error) = prepare(asker, &mut bench, records, workload) {
        bench.end();
        return Err(error);
    }
    if workload == Workload::Display {
        Ok(bench.open_again(asker)?)
    } else {
        Ok(bench)
    }
}

/// Makes the calls of a workload, which are measured.
fn measure<R: Clock>(
    rt: &R,
    asker: &Asker,
    bench: &mut Bench,
    records: RecordCount,
    workload: Workload,
) -> Result<Measured> {
    let requests = requests_of(asker, records, workload)?;
    let start = Instant::now(rt)?;
    ask(bench, MEASURED, requests.as_slice())?;
    Ok(Measured {
        calls: requests.len(),
        time: start.elapsed(rt)?,
    })
}

/// Makes the file that a workload wants, with what it wants beside it.
fn prepare(
    asker: &Asker,
    bench: &mut Bench,
    records: RecordCount,
    workload: Workload,
) -> Result<()> {
    ask(bench, MEASURED, &[asker.create()])?;
    match workload {
        Workload::Write => ask(bench, MEASURED, &[asker.open()]),
        Workload::View => ask(bench, MEASURED, &[asker.open(), asker.create_view()]),
        Workload::Views => {
            ask(bench, MEASURED, &[asker.open()])?;
            ask(bench, MEASURED, asker.create_views()?.as_slice())
        }
        Workload::Read | Workload::Chain | Workload::Update | Workload::Delete => {
            fill(asker, bench, records)
        }
        Workload::Alone => fill_journaled(asker, bench, records),
        Workload::Crowd => {
            fill_journaled(asker, bench, records)?;
            ask(bench, MEASURED, further_opens(asker)?.as_slice())?;
            gather(asker, bench, records)
        }
        Workload::Display => {
            ask(bench, MEASURED, &[asker.start_journaling()])?;
            fill(asker, bench, records)
        }
    }
}

/// Opens the file and writes so many records.
fn fill(asker: &Asker, bench: &mut Bench, records: RecordCount) -> Result<()> {
    ask(bench, MEASURED, &[asker.open()])?;
    ask(bench, MEASURED, writes(asker, records)?.as_slice())?;
    ask(bench, MEASURED, &[asker.to_start()])
}

/// Begins to journal the file, and writes twice as many records.
fn fill_journaled(asker: &Asker, bench: &mut Bench, records: RecordCount) -> Result<()> {
    let Some(all) = records.twice() else {
        bail!("a member can't hold twice as many records");
    };
    ask(bench, MEASURED, &[asker.start_journaling()])?;
    fill(asker, bench, all)
}

/// Lets all jobs but the one that is measured come to hold their locks.
fn gather(asker: &Asker, bench: &mut Bench, records: RecordCount) -> Result<()> {
    for place in 0..OTHERS {
        let requests = holds(asker, records, place)?;
        ask(bench, MEASURED + 1 + place, requests.as_slice())?;
    }
    Ok(())
}

/// Makes calls of a job, none of which may be refused.
fn ask(bench: &mut Bench, job: u32, requests: &[PlainRequest]) -> Result<()> {
    let done = bench.ask_all(job, requests);
    ensure!(
        done == requests.len(),
        "a request was refused after {done} others"
    );
    Ok(())
}

/// What a workload asks.
fn requests_of(
    asker: &Asker,
    records: RecordCount,
    workload: Workload,
) -> Result<Vec<PlainRequest>, AllocError> {
    match workload {
        Workload::Write | Workload::View | Workload::Views => writes(asker, records),
        Workload::Read => reads(asker, records),
        Workload::Chain | Workload::Alone | Workload::Crowd => chains(asker, records),
        Workload::Update => updates(asker, records),
        Workload::Delete => deletes(asker, records),
        Workload::Display => displays(asker, records),
    }
}

fn writes(asker: &Asker, records: RecordCount) -> Result<Vec<PlainRequest>, AllocError> {
    let mut requests = Vec::new(asker.alloc());
    for key in &WRITTEN.keys(asker.alloc(), records)? {
        requests.push(asker.write(u64::from(*key))?)?;
    }
    Ok(requests)
}

fn reads(asker: &Asker, records: RecordCount) -> Result<Vec<PlainRequest>, AllocError> {
    let mut requests = Vec::new(asker.alloc());
    for _ in 0..records.number() {
        requests.push(asker.read())?;
    }
    Ok(requests)
}

fn chains(asker: &Asker, records: RecordCount) -> Result<Vec<PlainRequest>, AllocError> {
    let mut requests = Vec::new(asker.alloc());
    for key in &SOUGHT.keys(asker.alloc(), records)? {
        requests.push(asker.chain(u64::from(*key))?)?;
    }
    Ok(requests)
}

/// Each key grows by the number of records, so that none is met twice.
fn updates(asker: &Asker, records: RecordCount) -> Result<Vec<PlainRequest>, AllocError> {
    let mut requests = Vec::new(asker.alloc());
    for key in &SOUGHT.keys(asker.alloc(), records)? {
        requests.push(asker.chain(u64::from(*key))?)?;
        requests.push(asker.update(u64::from(*key) + u64::from(records.number()))?)?;
    }
    Ok(requests)
}

fn deletes(asker: &Asker, records: RecordCount) -> Result<Vec<PlainRequest>, AllocError> {
    let mut requests = Vec::new(asker.alloc());
    for key in &SOUGHT.keys(asker.alloc(), records)? {
        requests.push(asker.chain(u64::from(*key))?)?;
        requests.push(asker.delete())?;
    }
    Ok(requests)
}

/// Each hundred of the journal's entries at a time, in an order that isn't theirs. Two entries stand before those of the records.
fn displays(asker: &Asker, records: RecordCount) -> Result<Vec<PlainRequest>, AllocError> {
    let mut requests = Vec::new(asker.alloc());
    let last = u64::from(records.number()) + 2;
    for place in &SOUGHT.keys(asker.alloc(), records.hundreds())? {
        let from = u64::from(*place) * 100 + 1;
        requests.push(asker.display(from, (from + 99).min(last)))?;
    }
    Ok(requests)
}

/// Opens the file as often as a job may beside its first open.
fn further_opens(asker: &Asker) -> Result<Vec<PlainRequest>, AllocError> {
    let mut requests = Vec::new(asker.alloc());
    for place in 0..MOST_OPENS - 1 {
        requests.push(asker.open_at(place))?;
    }
    Ok(requests)
}

/// What one of the other jobs asks, by its place among them: commitment control, as many opens as it may have, and through each in
/// turn a CHAIN to one of the records whose locks it shall hold.
fn holds(asker: &Asker, records: RecordCount, place: u32) -> Result<Vec<PlainRequest>, AllocError> {
    let mut requests = Vec::new(asker.alloc());
    requests.push(asker.start_commitment())?;
    for open in 0..MOST_OPENS {
        requests.push(asker.open_to_commit(open))?;
    }
    for number in 0..records.number() {
        if number % OTHERS == place {
            let open = (number / OTHERS) as usize % MOST_OPENS;
            let key = u64::from(records.number()) + u64::from(number);
            requests.push(asker.chain_at(open, key)?)?;
        }
    }
    Ok(requests)
}

/// Prints the line of a workload.
fn print<R: Print>(
    rt: &R,
    arguments: Arguments,
    workload: Workload,
    measured: Measured,
) -> io::Result<()> {
    let name = workload.name();
    let records = arguments.records.number();
    let calls = measured.calls;
    if arguments.timed {
        let time = u64::try_from(measured.time.as_micros()).unwrap_or(u64::MAX);
        println!(rt; "{name} n={records} calls={calls} microseconds={time}")
    } else {
        println!(rt; "{name} n={records} calls={calls}")
    }
}
