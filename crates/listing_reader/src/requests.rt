//! A request, by its command and its parameters. By `specs/Requests.antt`.
ghost use Rattle.std.specs.Prelude.{◌≡◌, IfOk};
ghost use Rattle.statement_reader.specs.Words.{words};
ghost use Rattle.listing_reader.specs.Requests.{read_request, request_of};

use call_tables::{keyword, request_table};
use library_model::requests::{self, Request};
use listing_words::commands::{RequestKind, request_named};
use listing_words::numbers::{long_in, number_in};
use listing_words::parameters::{
    chain_to_in, end_in, format_in, given_values_in, images_in, level_in, limit_in, lock_in,
    option_in, path_in, place_in, reason_in, values_in, yes_in,
};
use listing_words::words::name_in;
use std::alloc::{AllocError, Global};

macro_rules! read_arms {
    (($alloc:expr, $kind:expr, $text:expr) $($group:ident { $($name:ident $word:literal ($($args:ident { $($field:ident: $codec:ident $keywords:tt $(= $default:ident)?),* })?) $asked:tt)* })*) => {
        match $kind {
            $($(RequestKind::$name => {
                $($(let Some($field) = read!($codec $keywords, $alloc, $text) else {
                    return Ok(None);
                };)*)?
                Ok(Some(Request::$name $((requests::$args { $($field),* }))?))
            })*)*
        }
    };
}

// A field, by what its parameter has.
macro_rules! read {
    (name ($keyword:ident), $alloc:expr, $text:expr) => { name_in($text, keyword!($keyword)) };
    (number ($keyword:ident), $alloc:expr, $text:expr) => { number_in($text, keyword!($keyword)) };
    (sequence ($keyword:ident), $alloc:expr, $text:expr) => { long_in($text, keyword!($keyword)) };
    (range_end ($keyword:ident), $alloc:expr, $text:expr) => { end_in($text, keyword!($keyword)) };
    (level ($keyword:ident), $alloc:expr, $text:expr) => { level_in($text, keyword!($keyword)) };
    (images ($keyword:ident), $alloc:expr, $text:expr) => { images_in($text, keyword!($keyword)) };
    (option ($keyword:ident), $alloc:expr, $text:expr) => { option_in($text, keyword!($keyword)) };
    (commit ($keyword:ident), $alloc:expr, $text:expr) => { yes_in($text, keyword!($keyword)) };
    (access_path ($keyword:ident), $alloc:expr, $text:expr) => { path_in($text, keyword!($keyword)) };
    (lock ($keyword:ident), $alloc:expr, $text:expr) => { lock_in($text, keyword!($keyword)) };
    (reason ($keyword:ident), $alloc:expr, $text:expr) => { reason_in($text, keyword!($keyword)) };
    (format ($keyword:ident), $alloc:expr, $text:expr) => { format_in($text, keyword!($keyword)) };
    (place ($keyword:ident), $alloc:expr, $text:expr) => { place_in($text, keyword!($keyword)) };
    (values ($keyword:ident), $alloc:expr, $text:expr) => { values_in($alloc, $text, keyword!($keyword))? };
    (given_values ($keyword:ident), $alloc:expr, $text:expr) => { given_values_in($alloc, $text, keyword!($keyword))? };
    (limit (Key, RecordNumber), $alloc:expr, $text:expr) => { limit_in($alloc, $text)? };
    (chain_to (Key, RecordNumber), $alloc:expr, $text:expr) => { chain_to_in($alloc, $text)? };
}

/// The request of a command and its parameters.
#[tactic(auto, unfolding(crate::specs::Requests::read_request))]
pub fn read_request(
    alloc: Global,
    command: &[u8],
    text: &[u8],
) -> Result<Option<Request>, AllocError>
    ensures { IfOk result (λ request. request ≡ read_request command.now (words text.now)) }
{
    let Some(kind) = request_named(command) else {
        return Ok(None);
    };
    request_of(alloc, kind, text)
}

#[tactic(auto, unfolding(crate::specs::Requests::request_of, crate::specs::Requests::create_physical, crate::specs::Requests::create_logical, crate::specs::Requests::delete_file, crate::specs::Requests::file_member, crate::specs::Requests::start_journaling, crate::specs::Requests::delete_receiver, crate::specs::Requests::display_journal, crate::specs::Requests::journaled_changes, crate::specs::Requests::start_commitment, crate::specs::Requests::end_job, crate::specs::Requests::open_file, crate::specs::Requests::open_name, crate::specs::Requests::set_position, crate::specs::Requests::read_record, crate::specs::Requests::read_equal, crate::specs::Requests::chain_record, crate::specs::Requests::write_record, crate::specs::Requests::update_record))]
fn request_of(alloc: Global, kind: RequestKind, text: &[u8]) -> Result<Option<Request>, AllocError>
    ensures { IfOk result (λ request. request ≡ request_of kind (words text.now)) }
{
    request_table!(read_arms!(alloc, kind, text))
}
