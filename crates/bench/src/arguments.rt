//! The arguments of the program.
use crate::shuffles::RecordCount;
use crate::workloads::Workload;

/// How the program is run.
pub(crate) const USAGE: &str =
    "usage: bench [--times] N [write|view|views|read|chain|update|delete|alone|crowd|display], N from 1 to 1000000";

/// What is asked of a run.
#[derive(Clone, Copy)]
pub(crate) struct Arguments {
    pub(crate) records: RecordCount,
    /// `None`: all of them.
    pub(crate) workload: Option<Workload>,
    /// Whether the times are printed, which no two runs have alike.
    pub(crate) timed: bool,
}

/// The arguments that are spelled so; `None` where one is at fault.
pub(crate) fn read_arguments(words: &[String]) -> Option<Arguments> {
    match words {
        [first, rest @ ..] if first.as_str() == "--times" => read_rest(rest, true),
        _ => read_rest(words, false),
    }
}

fn read_rest(words: &[String], timed: bool) -> Option<Arguments> {
    match words {
        [records] => Some(Arguments {
            records: records_of(records.as_str())?,
            workload: None,
            timed,
        }),
        [records, workload] => Some(Arguments {
            records: records_of(records.as_str())?,
            workload: Some(Workload::named(workload.as_str())?),
            timed,
        }),
        _ => None,
    }
}

fn records_of(text: &str) -> Option<RecordCount> {
    RecordCount::new(text.parse::<u32>().ok()?)
}
