//! What a call counts for the bound on a history, by `specs/Counting.antt`.
ghost use Rattle.std.specs.Prelude.{◌≡◌, IsTrue, min, ◌+◌};
ghost use Rattle.std.specs.List.{sum_by, All};
ghost use Rattle.job_history.specs.Counting.{value_bytes, given_bytes, values_bytes, limit_bytes, chain_bytes, request_bytes, entries_bytes, reply_bytes, call_bytes, capped};
ghost use Rattle.library_model.specs.Ending.{is_end_job};
ghost use Rattle.entry_codec.specs.Spelling.{HasSpelling};

use call_tables::{reply_table, request_table};
use entry_codec::{Entry, entry_length};
use field_types::values::Value;
use library_model::calls::Call;
use library_model::replies::Reply;
use library_model::requests::{ChainTo, Limit, Request};

/// The bytes of a call apart from its values.
const CALL_BYTES: u64 = 64;

/// The bytes of a number.
const NUMBER_BYTES: u64 = 17;

/// The bytes that a call counts.
pub fn call_bytes(call: &Call) -> u64
    ensures { result ≡ capped (call_bytes call.now) }
{
    CALL_BYTES
        .saturating_add(request_bytes(&call.request))
        .saturating_add(reply_bytes(&call.reply))
}

/// Whether the call is an ENDJOB.
pub fn is_end_job(call: &Call) -> bool
    ensures { result ≡ is_end_job call.now.request }
{
    call.request.end_asked().is_some()
}

macro_rules! request_arms {
    (($request:expr) $($group:ident { $($name:ident $word:literal ($($args:ident { $($field:ident: $codec:ident $keywords:tt $(= $default:ident)?),* })?) $asked:tt)* })*) => {
        match $request {
            $($(Request::$name $((bound!(args $args)))? => counted!($($([$codec args.$field])*)?),)*)*
        }
    };
}

macro_rules! reply_arms {
    (($reply:expr) $($group:ident { $($name:ident $word:literal ($({ $($field:ident),* })? $(($held:ident))?) [$($codec:ident ($($keyword:ident)?; $($part:ident),*))*])* })*) => {
        match $reply {
            $($(Reply::$name $({ $($field),* })? $(($held))? => counted!($([$codec $($part)*])*),)*)*
        }
    };
}

// The arguments of a request, where it has any.
macro_rules! bound {
    ($args:ident $kind:ident) => { $args };
}

// The bytes of the first value that counts; no request and no reply has two.
macro_rules! counted {
    () => { 0 };
    ([values $values:expr] $($others:tt)*) => { values_bytes($values.as_slice()) };
    ([given_values $values:expr] $($others:tt)*) => { given_bytes($values.as_slice()) };
    ([limit $to:expr] $($others:tt)*) => { limit_bytes(&$to) };
    ([chain_to $to:expr] $($others:tt)*) => { chain_bytes(&$to) };
    ([record $read:ident] $($others:tt)*) => { values_bytes($read.values.as_slice()) };
    ([entries $entries:ident] $($others:tt)*) => { entries_bytes($entries.as_slice()) };
    ($other:tt $($others:tt)*) => { counted!($($others)*) };
}

fn request_bytes(request: &Request) -> u64
    ensures { result ≡ capped (request_bytes request.now) }
{
    request_table!(request_arms!(request))
}

fn limit_bytes(limit: &Limit) -> u64
    ensures { result ≡ capped (limit_bytes limit.now) }
{
    match limit {
        Limit::Key(values) => values_bytes(values.as_slice()),
        Limit::LowValue | Limit::HighValue | Limit::RecordNumber(_) => 0,
    }
}

fn chain_bytes(to: &ChainTo) -> u64
    ensures { result ≡ capped (chain_bytes to.now) }
{
    match to {
        ChainTo::Key(values) => values_bytes(values.as_slice()),
        ChainTo::RecordNumber(_) => 0,
    }
}

fn reply_bytes(reply: &Reply) -> u64
    ensures { result ≡ capped (reply_bytes reply.now) }
{
    reply_table!(reply_arms!(reply))
}

fn entries_bytes(entries: &[Entry]) -> u64
    requires { All HasSpelling entries.now }
    ensures { result ≡ capped (entries_bytes entries.now) }
{
    let mut bytes: u64 = 0;
    for entry in entries {
        bytes = bytes.saturating_add(entry_length(entry) as u64);
    }
    bytes
}

fn values_bytes(values: &[Value]) -> u64
    ensures { result ≡ capped (values_bytes values.now) }
{
    let mut bytes: u64 = 0;
    for value in values {
        bytes = bytes.saturating_add(value_bytes(value));
    }
    bytes
}

fn given_bytes(values: &[Option<Value>]) -> u64
    ensures { result ≡ capped (given_bytes values.now) }
{
    let mut bytes: u64 = 0;
    for value in values {
        if let Some(given) = value {
            bytes = bytes.saturating_add(value_bytes(given));
        }
    }
    bytes
}

fn value_bytes(value: &Value) -> u64
    ensures { result ≡ value_bytes value.now }
{
    match value {
        Value::Chars(text) => text.as_bytes().len() as u64,
        Value::Number(_) => NUMBER_BYTES,
    }
}
