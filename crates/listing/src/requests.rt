//! Requests as they are printed, by `specs/RequestText.antt`.
ghost use Rattle.std.specs.Prelude.{◌≡◌, ◌++◌, OnOk};
ghost use Rattle.listing.specs.Texts.{parameter};
ghost use Rattle.listing.specs.RequestText.{level_text, images_text, end_text, option_text, yes_or_no, path_text, lock_text, reason_text, limit_parameter, chain_parameter, format_text, place_text, command, parameters, request_text};

use crate::parameters::{
    push_given_parameter, push_name, push_number_parameter, push_parameter, push_values_parameter,
};
use call_tables::{keyword, request_table};
use commit_level::Level;
use entry_codec::Images;
use field_types::names::Name;
use library_model::requests::{
    AccessPath, ChainTo, EndReason, Limit, LockOption, OpenOption, RangeEnd, Request,
};
use std::alloc::AllocError;

/// Appends a request: the command and its parameters.
#[tactic(auto, unfolding(crate::specs::RequestText::request_text))]
pub fn push_request(out: &mut Vec<u8>, request: &Request) -> Result<(), AllocError>
    ensures { OnOk result (out.new.items ≡ out.old.items ++ request_text request.now) }
{
    out.extend_from_slice(command(request))?;
    push_parameters(out, request)
}

macro_rules! command_arms {
    (($request:expr) $($group:ident { $($name:ident $word:literal $args:tt $asked:tt)* })*) => {
        match $request {
            $($(Request::$name { .. } => $word,)*)*
        }
    };
}

macro_rules! parameter_arms {
    (($out:expr, $request:expr) $($group:ident { $($name:ident $word:literal ($($args:ident { $($field:ident: $codec:ident $keywords:tt $(= $default:ident)?),* })?) $asked:tt)* })*) => {
        match $request {
            $($(Request::$name $((bound!(args $args)))? => {
                $($(push!($codec $keywords args.$field, $out);)*)?
                Ok(())
            })*)*
        }
    };
}

// The arguments of a request, where it has any.
macro_rules! bound {
    ($args:ident $kind:ident) => { $args };
}

// Appends the parameter of a field.
macro_rules! push {
    (name ($keyword:ident) $name:expr, $out:expr) => { push_name($out, keyword!($keyword), &$name)? };
    (number ($keyword:ident) $number:expr, $out:expr) => { push_number_parameter($out, keyword!($keyword), u64::from($number))? };
    (sequence ($keyword:ident) $number:expr, $out:expr) => { push_number_parameter($out, keyword!($keyword), $number)? };
    (range_end ($keyword:ident) $end:expr, $out:expr) => { push_end($out, keyword!($keyword), $end)? };
    (level ($keyword:ident) $level:expr, $out:expr) => { push_parameter($out, keyword!($keyword), level_text($level))? };
    (images ($keyword:ident) $images:expr, $out:expr) => { push_parameter($out, keyword!($keyword), images_text($images))? };
    (option ($keyword:ident) $option:expr, $out:expr) => { push_parameter($out, keyword!($keyword), option_text($option))? };
    (commit ($keyword:ident) $yes:expr, $out:expr) => { push_parameter($out, keyword!($keyword), yes_or_no($yes))? };
    (access_path ($keyword:ident) $path:expr, $out:expr) => { push_parameter($out, keyword!($keyword), path_text($path))? };
    (lock ($keyword:ident) $lock:expr, $out:expr) => { push_parameter($out, keyword!($keyword), lock_text($lock))? };
    (reason ($keyword:ident) $reason:expr, $out:expr) => { push_parameter($out, keyword!($keyword), reason_text($reason))? };
    (format ($keyword:ident) $format:expr, $out:expr) => { push_format($out, keyword!($keyword), $format)? };
    (place ($keyword:ident) $place:expr, $out:expr) => { push_place($out, keyword!($keyword), $place)? };
    (values ($keyword:ident) $values:expr, $out:expr) => { push_values_parameter($out, keyword!($keyword), &$values)? };
    (given_values ($keyword:ident) $values:expr, $out:expr) => { push_given_parameter($out, keyword!($keyword), &$values)? };
    (limit (Key, RecordNumber) $to:expr, $out:expr) => { push_limit($out, &$to)? };
    (chain_to (Key, RecordNumber) $to:expr, $out:expr) => { push_chain_to($out, &$to)? };
}

fn command(request: &Request) -> &'static [u8]
    ensures { result.now ≡ command request.now }
{
    request_table!(command_arms!(request))
}

fn push_parameters(out: &mut Vec<u8>, request: &Request) -> Result<(), AllocError>
    ensures { OnOk result (out.new.items ≡ out.old.items ++ parameters request.now) }
{
    request_table!(parameter_arms!(out, request))
}

fn push_end(out: &mut Vec<u8>, keyword: &[u8], end: RangeEnd) -> Result<(), AllocError>
    ensures { OnOk result (out.new.items ≡ out.old.items ++ parameter keyword.now (end_text end)) }
{
    match end {
        RangeEnd::First => push_parameter(out, keyword, b"*FIRST"),
        RangeEnd::Last => push_parameter(out, keyword, b"*LAST"),
        RangeEnd::Sequence(number) => push_number_parameter(out, keyword, number),
    }
}

fn push_limit(out: &mut Vec<u8>, to: &Limit) -> Result<(), AllocError>
    ensures { OnOk result (out.new.items ≡ out.old.items ++ limit_parameter to.now) }
{
    match to {
        Limit::Key(values) => push_values_parameter(out, keyword!(Key), values),
        Limit::LowValue => push_parameter(out, keyword!(Key), b"*LOVAL"),
        Limit::HighValue => push_parameter(out, keyword!(Key), b"*HIVAL"),
        Limit::RecordNumber(rrn) => {
            push_number_parameter(out, keyword!(RecordNumber), u64::from(*rrn))
        }
    }
}

fn push_chain_to(out: &mut Vec<u8>, to: &ChainTo) -> Result<(), AllocError>
    ensures { OnOk result (out.new.items ≡ out.old.items ++ chain_parameter to.now) }
{
    match to {
        ChainTo::Key(values) => push_values_parameter(out, keyword!(Key), values),
        ChainTo::RecordNumber(rrn) => {
            push_number_parameter(out, keyword!(RecordNumber), u64::from(*rrn))
        }
    }
}

fn push_format(out: &mut Vec<u8>, keyword: &[u8], format: Option<Name>) -> Result<(), AllocError>
    ensures { OnOk result (out.new.items ≡ out.old.items ++ parameter keyword.now (format_text format)) }
{
    match format {
        None => push_parameter(out, keyword, b"*FILE"),
        Some(name) => push_name(out, keyword, &name),
    }
}

fn push_place(out: &mut Vec<u8>, keyword: &[u8], place: Option<u32>) -> Result<(), AllocError>
    ensures { OnOk result (out.new.items ≡ out.old.items ++ parameter keyword.now (place_text place)) }
{
    match place {
        None => push_parameter(out, keyword, b"*END"),
        Some(rrn) => push_number_parameter(out, keyword, u64::from(rrn)),
    }
}

pub fn level_text(level: Level) -> &'static [u8]
    ensures { result.now ≡ level_text level }
{
    match level {
        Level::Chg => b"*CHG",
        Level::Cs => b"*CS",
        Level::All => b"*ALL",
    }
}

pub fn images_text(images: Images) -> &'static [u8]
    ensures { result.now ≡ images_text images }
{
    match images {
        Images::After => b"*AFTER",
        Images::Both => b"*BOTH",
    }
}

fn option_text(option: OpenOption) -> &'static [u8]
    ensures { result.now ≡ option_text option }
{
    match option {
        OpenOption::Input => b"*INP",
        OpenOption::All => b"*ALL",
    }
}

fn yes_or_no(yes: bool) -> &'static [u8]
    ensures { result.now ≡ yes_or_no yes }
{
    if yes { b"*YES" } else { b"*NO" }
}

fn path_text(path: AccessPath) -> &'static [u8]
    ensures { result.now ≡ path_text path }
{
    match path {
        AccessPath::File => b"*FILE",
        AccessPath::Arrival => b"*ARRIVAL",
    }
}

fn lock_text(lock: LockOption) -> &'static [u8]
    ensures { result.now ≡ lock_text lock }
{
    match lock {
        LockOption::Default => b"*DFT",
        LockOption::No => b"*NO",
    }
}

fn reason_text(reason: EndReason) -> &'static [u8]
    ensures { result.now ≡ reason_text reason }
{
    match reason {
        EndReason::Normal => b"*NORMAL",
        EndReason::Escape => b"*ESCAPE",
        EndReason::Expression => b"*EXPR",
        EndReason::Statements => b"*STMT",
        EndReason::History => b"*HISTORY",
    }
}
