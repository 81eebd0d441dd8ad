//! The request that a statement makes with the variables' values, by `specs/Requests.antt`.
ghost use Rattle.std.specs.Prelude.{◌≡◌, ◌≤◌, IfOk, IfSome, option_copied};
ghost use Rattle.job_language.specs.Requests.{whole_value, record_number, sequence_of, key_of, given_of, given_of_operand, end_of, limit_of, chain_to_of, place_of, request_of};

use crate::forms::{
    ChainForm, ChainToForm, ChangesForm, EndForm, LimitForm, PositionForm, ReadEqualForm,
    RequestForm, UpdateForm, WriteForm,
};
use crate::operands::{NumberOperand, Operand, SequenceOperand};
use call_tables::request_table;
use field_types::values::Value;
use library_model::requests::{self, ChainTo, Limit, RangeEnd, Request};
use library_model::value_lists::{GivenValues, Values};
use script_numbers::zeros::whole;
use std::alloc::{AllocError, Global};

/// The whole number from 0 up to the most that the value is.
fn whole_value(most: u64, value: Option<&Value>) -> Option<u64>
    ensures value { result ≡ whole_value most (option_copied value.entry) }
    ensures bound { IfSome result (λ n. n ≤ most) }
{
    match value {
        Some(Value::Number(number)) => match whole(*number) {
            Some(whole) if whole <= u128::from(most) => Some(whole as u64),
            _ => None,
        },
        Some(Value::Chars(_)) => None,
        None => None,
    }
}

impl NumberOperand {
    fn value(self, values: &[Value]) -> Option<u32>
        ensures { result ≡ record_number values.now self }
    {
        match self {
            NumberOperand::Literal(literal) => Some(literal),
            NumberOperand::Variable(variable) => {
                match whole_value(u64::from(u32::MAX), values.get(variable)) {
                    None => None,
                    Some(whole) => Some(whole as u32),
                }
            }
        }
    }
}

impl SequenceOperand {
    fn value(self, values: &[Value]) -> Option<u64>
        ensures { result ≡ sequence_of values.now self }
    {
        match self {
            SequenceOperand::Literal(literal) => Some(literal),
            SequenceOperand::Variable(variable) => whole_value(u64::MAX, values.get(variable)),
        }
    }
}

impl EndForm {
    fn end(self, values: &[Value]) -> Option<RangeEnd>
        ensures { result ≡ end_of values.now self }
    {
        match self {
            EndForm::First => Some(RangeEnd::First),
            EndForm::Last => Some(RangeEnd::Last),
            EndForm::Sequence(operand) => match operand.value(values) {
                None => None,
                Some(sequence) => Some(RangeEnd::Sequence(sequence)),
            },
        }
    }
}

/// The values of KEY.
fn key(alloc: Global, values: &[Value], operands: &[Operand]) -> Result<Option<Values>, AllocError>
    ensures { IfOk result (λ key. key ≡ key_of values.now operands.now) }
{
    let mut key = Vec::new(alloc);
    for operand in operands {
        match operand.value(values) {
            None => return Ok(None),
            Some(value) => key.push(value.copied(alloc)?)?,
        }
    }
    Ok(Some(Values::from_vec(key)))
}

/// The values of VAL.
fn given(
    alloc: Global,
    values: &[Value],
    operands: &[Option<Operand>],
) -> Result<Option<GivenValues>, AllocError>
    ensures { IfOk result (λ given. given ≡ given_of values.now operands.now) }
{
    let mut given = GivenValues::new(alloc);
    for operand in operands {
        match given_value(alloc, values, operand)? {
            None => return Ok(None),
            Some(value) => given.push(value)?,
        }
    }
    Ok(Some(given))
}

fn given_value(
    alloc: Global,
    values: &[Value],
    operand: &Option<Operand>,
) -> Result<Option<Option<Value>>, AllocError>
    ensures { IfOk result (λ value. value ≡ given_of_operand values.now operand.now) }
{
    match operand {
        None => Ok(Some(None)),
        Some(operand) => match operand.value(values) {
            None => Ok(None),
            Some(value) => Ok(Some(Some(value.copied(alloc)?))),
        },
    }
}

impl LimitForm {
    fn limit(&self, alloc: Global, values: &[Value]) -> Result<Option<Limit>, AllocError>
        ensures { IfOk result (λ limit. limit ≡ limit_of values.now self.now) }
    {
        match self {
            LimitForm::Key(operands) => match key(alloc, values, operands.as_slice())? {
                None => Ok(None),
                Some(key) => Ok(Some(Limit::Key(key))),
            },
            LimitForm::LowValue => Ok(Some(Limit::LowValue)),
            LimitForm::HighValue => Ok(Some(Limit::HighValue)),
            LimitForm::RecordNumber(operand) => match operand.value(values) {
                None => Ok(None),
                Some(rrn) => Ok(Some(Limit::RecordNumber(rrn))),
            },
        }
    }
}

impl ChainToForm {
    fn to(&self, alloc: Global, values: &[Value]) -> Result<Option<ChainTo>, AllocError>
        ensures { IfOk result (λ to. to ≡ chain_to_of values.now self.now) }
    {
        match self {
            ChainToForm::Key(operands) => match key(alloc, values, operands.as_slice())? {
                None => Ok(None),
                Some(key) => Ok(Some(ChainTo::Key(key))),
            },
            ChainToForm::RecordNumber(operand) => match operand.value(values) {
                None => Ok(None),
                Some(rrn) => Ok(Some(ChainTo::RecordNumber(rrn))),
            },
        }
    }
}

fn place(values: &[Value], operand: Option<NumberOperand>) -> Option<Option<u32>>
    ensures { result ≡ place_of values.now operand }
{
    match operand {
        None => Some(None),
        Some(operand) => match operand.value(values) {
            None => None,
            Some(rrn) => Some(Some(rrn)),
        },
    }
}

// The rows, one behind another.
macro_rules! form_rows {
    ($with:tt $($group:ident { $($rows:tt)* })*) => { form_arms!($with [] $($($rows)*)*) };
}

// An arm for each row that asks with a form, or with operands that stand in none, and one for requests without variables.
macro_rules! form_arms {
    (($alloc:expr, $values:expr, $asked:expr) [$($arms:tt)*]) => {
        match $asked {
            RequestForm::Fixed(request) => Ok(Some(request.copied($alloc)?)),
            $($arms)*
        }
    };
    (($alloc:expr, $values:expr, $asked:expr) [$($arms:tt)*]
        $name:ident $word:literal ($args:ident { $($field:ident: $codec:ident $keywords:tt $(= $default:ident)?),* })
        [$(first $first:ident)? asks ($form:ident $fields:tt) $(into $into:ident)?] $($others:tt)*) => {
        form_arms!(($alloc, $values, $asked) [$($arms)* RequestForm::$name(form) => {
            Ok(Some(Request::$name(requests::$args { $($field: value!($codec form.$field, $alloc, $values)),* })))
        }] $($others)*)
    };
    (($alloc:expr, $values:expr, $asked:expr) [$($arms:tt)*]
        $name:ident $word:literal ($args:ident { $($field:ident: $codec:ident $keywords:tt $(= $default:ident)?),* })
        [asks $operands:tt] $($others:tt)*) => {
        form_arms!(($alloc, $values, $asked) [$($arms)* RequestForm::$name $operands => {
            Ok(Some(Request::$name(requests::$args { $($field: value!($codec *$field, $alloc, $values)),* })))
        }] $($others)*)
    };
    ($with:tt $arms:tt $name:ident $word:literal $args:tt $how:tt $($others:tt)*) => { form_arms!($with $arms $($others)*) };
}

// What a field holds: the variables' values, where it may have some.
macro_rules! value {
    (name $name:expr, $alloc:expr, $values:expr) => { $name };
    (format $format:expr, $alloc:expr, $values:expr) => { $format };
    (lock $lock:expr, $alloc:expr, $values:expr) => { $lock };
    (number $operand:expr, $alloc:expr, $values:expr) => { found!($operand.value($values)) };
    (sequence $operand:expr, $alloc:expr, $values:expr) => { found!($operand.value($values)) };
    (range_end $end:expr, $alloc:expr, $values:expr) => { found!($end.end($values)) };
    (place $operand:expr, $alloc:expr, $values:expr) => { found!(place($values, $operand)) };
    (values $operands:expr, $alloc:expr, $values:expr) => { found!(key($alloc, $values, $operands.as_slice())?) };
    (given_values $operands:expr, $alloc:expr, $values:expr) => { found!(given($alloc, $values, $operands.as_slice())?) };
    (limit $to:expr, $alloc:expr, $values:expr) => { found!($to.limit($alloc, $values)?) };
    (chain_to $to:expr, $alloc:expr, $values:expr) => { found!($to.to($alloc, $values)?) };
}

macro_rules! found {
    ($value:expr) => {
        match $value {
            None => return Ok(None),
            Some(found) => found,
        }
    };
}

impl RequestForm {
    /// The request; `None` where a variable is of the wrong kind.
    pub(crate) fn request(
        &self,
        alloc: Global,
        values: &[Value],
    ) -> Result<Option<Request>, AllocError>
        ensures { IfOk result (λ request. request ≡ request_of values.now self.now) }
    {
        request_table!(form_rows!(alloc, values, self))
    }
}
