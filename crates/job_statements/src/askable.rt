//! Whether a statement may be run: the library answers its request, if it makes one. By `specs/Askable.antt` of input_scripts.
ghost use Rattle.std.specs.Prelude.{◌≡◌};
ghost use Rattle.built_requests.specs.Built.{is_built};
ghost use Rattle.input_scripts.specs.Askable.{is_askable_form};
ghost use Rattle.job_statements.specs.Reading.{is_runnable};

use call_tables::request_table;
use job_language::forms::RequestForm;
use library_model::requests::Request;
use statement_syntax::Phrase;

macro_rules! built_arms {
    (($request:expr) $($group:ident { $($name:ident $word:literal $args:tt $asked:tt)* })*) => {
        match $request {
            $($(Request::$name { .. } => built!($name),)*)*
        }
    };
}

// All but one.
macro_rules! built {
    (Checkpoint) => { false };
    ($name:ident) => { true };
}

/// Whether the library answers this request of a statement so far.
fn is_built(request: &Request) -> bool
    ensures { result ≡ is_built request.now }
{
    request_table!(built_arms!(request))
}

macro_rules! askable_arms {
    (($form:expr) $($group:ident { $($name:ident $word:literal $args:tt [$(first $first:ident)? $(asks $asked:tt)? $(into $into:ident)?])* })*) => {
        match $form {
            RequestForm::Fixed(request) => is_built(request) && request.end_asked().is_none(),
            $($($(RequestForm::$name { .. } => asked!($asked),)?)*)*
        }
    };
}

// Each that is asked with values which may be variables.
macro_rules! asked {
    ($asked:tt) => { true };
}

/// Whether the library answers it whatever the variables hold, and it doesn't end the job.
fn is_askable_form(form: &RequestForm) -> bool
    ensures { result ≡ is_askable_form form.now }
{
    request_table!(askable_arms!(form))
}

/// Whether a statement that says this may be run.
pub(crate) fn is_runnable(phrase: &Phrase) -> bool
    ensures { result ≡ is_runnable phrase.now }
{
    match phrase {
        Phrase::Request { form, .. } => is_askable_form(form),
        Phrase::Declare { .. }
        | Phrase::ChangeVariable { .. }
        | Phrase::IfGoto { .. }
        | Phrase::IfDo(_)
        | Phrase::Else
        | Phrase::DoWhile(_)
        | Phrase::EndDo
        | Phrase::Goto(_)
        | Phrase::Monitor { .. }
        | Phrase::Return => true,
    }
}
