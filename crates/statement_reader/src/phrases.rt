//! What a command says with its parameters: the statements of control, and the requests by their table.
//! By `specs/Statements.antt` and `specs/Requests.antt`.
ghost use Rattle.std.specs.Prelude.{◌≡◌, [], IfOk};
ghost use Rattle.statement_reader.specs.Words.{words};
ghost use Rattle.statement_reader.specs.Requests.{asking, plain};
ghost use Rattle.statement_reader.specs.Statements.{command_phrase};

use crate::arguments::{
    access_path_in, commit_in, end_in, format_in, images_in, key_in, level_in, lock_in, name_in,
    name_or, number_at, option_in, place_in, sequence_at, targets_in, values_in,
};
use crate::commands::Command;
use crate::control::{change, choice_of_way, declaration, jump, monitor, otherwise, while_loop};
use crate::parameters::Parameter;
use crate::positions::{chain_to_in, limit_in};
use crate::variables::Variables;
use call_tables::request_table;
use job_language::forms::{
    ChainForm, ChangesForm, EndForm, PositionForm, ReadEqualForm, RequestForm, UpdateForm,
    WriteForm,
};
use job_language::operands::Targets;
use library_model::requests::{self, Request};
use statement_syntax::Phrase;
use std::alloc::{AllocError, Global};

// The rows of statements: all but ENDJOB's.
macro_rules! phrase_groups {
    ($with:tt files { $($files:tt)* } journaling { $($journaling:tt)* } journal { $($journal:tt)* } commitment { $($commitment:tt)* }
        boundaries { $($boundaries:tt)* } opens { $($opens:tt)* } records { $($records:tt)* } unlock { $($unlock:tt)* } end $end:tt) => {
        phrase_arms!($with $($files)* $($journaling)* $($journal)* $($commitment)* $($boundaries)* $($opens)* $($records)* $($unlock)*)
    };
}

macro_rules! phrase_arms {
    (($alloc:expr, $variables:expr, $command:expr, $text:expr) $($name:ident $word:literal ($($args:ident { $($field:ident: $codec:ident $parameters:tt $(= $default:ident)?),* })?) [$($asked:tt)*])*) => {
        match $command {
            Command::Declare => declaration($alloc, $text),
            Command::ChangeVariable => change($alloc, $variables, $text),
            Command::If => choice_of_way($alloc, $variables, $text),
            Command::Else => Ok(otherwise($text)),
            Command::DoWhile => while_loop($alloc, $variables, $text),
            Command::EndDo => Ok(Some(Phrase::EndDo)),
            Command::Goto => Ok(jump($text)),
            Command::Monitor => monitor($alloc, $text),
            Command::Return => Ok(Some(Phrase::Return)),
            $(Command::$name => {
                targets_first!(into, $alloc, $variables, $text; $($asked)*);
                $($(take_plain!($field: $codec $parameters $(= $default)?, $variables, $text);)*)?
                targets_then!(into, $alloc, $variables, $text; $($asked)*);
                $($(take_list!($field: $codec $parameters, $alloc, $variables, $text);)*)?
                Ok(Some(asked!($alloc, into, [$($asked)*] [Request::$name $((requests::$args { $($field),* }))?] [RequestForm::$name])))
            })*
        }
    };
}

// The parameter TO, where it is judged before the others.
macro_rules! targets_first {
    ($into:ident, $alloc:expr, $variables:expr, $text:expr; first To $($form:tt)*) => {
        let Some($into) = targets_in($alloc, $variables, $text)? else {
            return Ok(None);
        };
    };
    ($into:ident, $alloc:expr, $variables:expr, $text:expr; $($asked:tt)*) => {};
}

// The parameter TO, where it is judged before the lists of values alone.
macro_rules! targets_then {
    ($into:ident, $alloc:expr, $variables:expr, $text:expr; $(asks $form:tt)? into To) => {
        let Some($into) = targets_in($alloc, $variables, $text)? else {
            return Ok(None);
        };
    };
    ($into:ident, $alloc:expr, $variables:expr, $text:expr; $($asked:tt)*) => {};
}

// A field without memory of its own.
macro_rules! take_plain {
    ($field:ident: values $($rest:tt)*) => {};
    ($field:ident: given_values $($rest:tt)*) => {};
    ($field:ident: limit $($rest:tt)*) => {};
    ($field:ident: chain_to $($rest:tt)*) => {};
    ($field:ident: $codec:ident $parameters:tt $(= $default:ident)?, $variables:expr, $text:expr) => {
        let Some($field) = given!($codec $parameters $(= $default)?, $variables, $text) else {
            return Ok(None);
        };
    };
}

// What the parameter of such a field says. The defaults that only one parameter has are those of `arguments.rt`.
macro_rules! given {
    (name ($parameter:ident), $variables:expr, $text:expr) => { name_in($text, Parameter::$parameter) };
    (name ($parameter:ident) = $default:ident, $variables:expr, $text:expr) => { name_or($text, Parameter::$parameter, $default) };
    (number ($parameter:ident), $variables:expr, $text:expr) => { number_at($variables, $text, Parameter::$parameter) };
    (sequence ($parameter:ident), $variables:expr, $text:expr) => { sequence_at($variables, $text, Parameter::$parameter) };
    (range_end ($parameter:ident) = $default:ident, $variables:expr, $text:expr) => { end_in($variables, $text, Parameter::$parameter, EndForm::$default) };
    (level (LockLevel), $variables:expr, $text:expr) => { level_in($text) };
    (images (Images) = After, $variables:expr, $text:expr) => { images_in($text) };
    (option (Option) = Input, $variables:expr, $text:expr) => { option_in($text) };
    (commit (Commit) = No, $variables:expr, $text:expr) => { commit_in($text) };
    (access_path (AccessPath) = File, $variables:expr, $text:expr) => { access_path_in($text) };
    (lock (Lock) = Default, $variables:expr, $text:expr) => { lock_in($text) };
    (format (Format) = File, $variables:expr, $text:expr) => { format_in($text) };
    (place (RecordNumber) = End, $variables:expr, $text:expr) => { place_in($variables, $text) };
}

// A field that is a list of values, or may be one.
macro_rules! take_list {
    ($field:ident: values (Key), $alloc:expr, $variables:expr, $text:expr) => {
        let Some($field) = key_in($alloc, $variables, $text)? else {
            return Ok(None);
        };
    };
    ($field:ident: given_values (Values), $alloc:expr, $variables:expr, $text:expr) => {
        let Some($field) = values_in($alloc, $variables, $text)? else {
            return Ok(None);
        };
    };
    ($field:ident: limit (Key, RecordNumber), $alloc:expr, $variables:expr, $text:expr) => {
        let Some($field) = limit_in($alloc, $variables, $text)? else {
            return Ok(None);
        };
    };
    ($field:ident: chain_to (Key, RecordNumber), $alloc:expr, $variables:expr, $text:expr) => {
        let Some($field) = chain_to_in($alloc, $variables, $text)? else {
            return Ok(None);
        };
    };
    ($field:ident: $codec:ident $($rest:tt)*) => {};
}

// The request as a phrase: by its form, or as it stands; into the variables of TO, or into none.
macro_rules! asked {
    ($alloc:expr, $into:ident, [] [$($request:tt)*] $form:tt) => { plain($alloc, $($request)*) };
    ($alloc:expr, $into:ident, [into To] [$($request:tt)*] $form:tt) => {
        Phrase::Request {
            form: RequestForm::Fixed($($request)*),
            into: $into,
        }
    };
    ($alloc:expr, $into:ident, [asks $fields:tt] $request:tt [$($form:tt)*]) => { asking($alloc, $($form)* $fields) };
    ($alloc:expr, $into:ident, [$(first To)? asks $fields:tt $(into To)?] $request:tt [$($form:tt)*]) => {
        Phrase::Request {
            form: $($form)* $fields,
            into: $into,
        }
    };
}

/// A request without TO.
fn asking(alloc: Global, form: RequestForm) -> Phrase
    ensures { result ≡ asking form }
{
    Phrase::Request {
        form,
        into: Targets::from_vec(Vec::new(alloc)),
    }
}

/// A request without TO and without values that may be variables.
fn plain(alloc: Global, request: Request) -> Phrase
    ensures { result ≡ plain request }
{
    asking(alloc, RequestForm::Fixed(request))
}

/// What a command says, where none of its parameters is another command's.
#[tactic(auto, unfolding(crate::specs::Statements::command_phrase, crate::specs::Requests::create_physical, crate::specs::Requests::create_logical, crate::specs::Requests::delete_file, crate::specs::Requests::file_member, crate::specs::Requests::add_member, crate::specs::Requests::clear_member, crate::specs::Requests::reorganize_member, crate::specs::Requests::end_journaling, crate::specs::Requests::start_journaling, crate::specs::Requests::delete_receiver, crate::specs::Requests::display_journal, crate::specs::Requests::changes, crate::specs::Requests::apply_changes, crate::specs::Requests::remove_changes, crate::specs::Requests::start_commitment, crate::specs::Requests::open_file, crate::specs::Requests::close_file, crate::specs::Requests::delete_record, crate::specs::Requests::unlock_record, crate::specs::Requests::position_of, crate::specs::Requests::set_lower_limit, crate::specs::Requests::set_greater_than, crate::specs::Requests::read, crate::specs::Requests::read_prior, crate::specs::Requests::read_equal_of, crate::specs::Requests::read_equal, crate::specs::Requests::read_prior_equal, crate::specs::Requests::chain, crate::specs::Requests::write, crate::specs::Requests::update))]
pub fn command_phrase(
    alloc: Global,
    variables: &Variables,
    command: Command,
    text: &[u8],
) -> Result<Option<Phrase>, AllocError>
    ensures { IfOk result (λ phrase. phrase ≡ command_phrase command variables.now (words text.now)) }
{
    request_table!(phrase_groups!(alloc, variables, command, text))
}
