//! The calls of a listing, line by line. By `specs/Lines.antt`.
ghost use Rattle.std.specs.Prelude.{◌≡◌, ◌<◌, ◌^◌, length, drop, IfOk};
ghost use Rattle.text_lines.specs.Lines.{lines_of};
ghost use Rattle.statement_reader.specs.Words.{words};
ghost use Rattle.listing_reader.specs.Lines.{reply_behind, call_from, call_of, calls_of};

use crate::replies::read_reply;
use crate::requests::read_request;
use field_types::names::Name;
use library_model::calls::Call;
use library_model::replies::Reply;
use library_model::requests::Request;
use listing_words::numbers::long;
use listing_words::words::{behind_word, job_named};
use statement_reader::words::next_word;
use std::alloc::{AllocError, Global};
use text_lines::lines::split_line;

/// The calls of the lines behind the first, up to the first that has none.
pub fn read_calls(alloc: Global, names: &[Name], bytes: &[u8]) -> Result<Vec<Call>, AllocError>
    requires { length names.now < 2 ^ 32 }
    ensures { IfOk result (λ calls. calls.items ≡ calls_of names.now (drop 1 (lines_of bytes.now))) }
{
    match split_line(bytes) {
        Some((_, rest)) => calls_of(alloc, names, rest),
        None => Ok(Vec::new(alloc)),
    }
}

fn calls_of(alloc: Global, names: &[Name], text: &[u8]) -> Result<Vec<Call>, AllocError>
    requires { length names.now < 2 ^ 32 }
    ensures { IfOk result (λ calls. calls.items ≡ calls_of names.now (lines_of text.now)) }
{
    let mut calls = Vec::new(alloc);
    let mut rest = text;
    while let Some((line, others)) = split_line(rest) {
        let Some(call) = call_of(alloc, names, line)? else {
            return Ok(calls);
        };
        calls.push(call)?;
        rest = others;
    }
    Ok(calls)
}

/// The call of a line, whatever its number is.
#[tactic(auto, unfolding(crate::specs::Lines::call_of))]
fn call_of(alloc: Global, names: &[Name], text: &[u8]) -> Result<Option<Call>, AllocError>
    requires { length names.now < 2 ^ 32 }
    ensures { IfOk result (λ call. call ≡ call_of names.now (words text.now)) }
{
    let Some((_, rest)) = next_word(text) else {
        return Ok(None);
    };
    let Some((name, rest)) = next_word(rest) else {
        return Ok(None);
    };
    let Some((time, rest)) = next_word(rest) else {
        return Ok(None);
    };
    let Some((command, rest)) = next_word(rest) else {
        return Ok(None);
    };
    call_from(alloc, names, name, time, command, rest)
}

#[tactic(auto, unfolding(crate::specs::Lines::call_from))]
fn call_from(
    alloc: Global,
    names: &[Name],
    name: &[u8],
    time: &[u8],
    command: &[u8],
    text: &[u8],
) -> Result<Option<Call>, AllocError>
    requires { length names.now < 2 ^ 32 }
    ensures { IfOk result (λ call. call ≡ call_from names.now name.now time.now command.now (words text.now)) }
{
    let Some(job) = job_named(names, name) else {
        return Ok(None);
    };
    let Some(timestamp) = long(time) else {
        return Ok(None);
    };
    let Some(request) = read_request(alloc, command, text)? else {
        return Ok(None);
    };
    match reply_behind(alloc, names, text) {
        Ok(Some(reply)) => Ok(Some(Call {
            job,
            timestamp,
            request,
            reply,
        })),
        Ok(None) => {
            let_go(request);
            Ok(None)
        }
        Err(error) => {
            let_go(request);
            Err(error)
        }
    }
}

/// The end of a request that has no reply.
fn let_go(_request: Request) {}

/// The reply behind the arrow.
#[tactic(auto, unfolding(crate::specs::Lines::reply_behind))]
fn reply_behind(alloc: Global, names: &[Name], text: &[u8]) -> Result<Option<Reply>, AllocError>
    requires { length names.now < 2 ^ 32 }
    ensures { IfOk result (λ reply. reply ≡ reply_behind names.now (words text.now)) }
{
    let Some(back) = behind_word(text, b"=>") else {
        return Ok(None);
    };
    let Some((answer, details)) = next_word(back) else {
        return Ok(None);
    };
    read_reply(alloc, names, answer, details)
}
