//! Requests whose values may be variables.
use crate::operands::{GivenOperands, NumberOperand, Operands, SequenceOperand};
use field_types::names::Name;
use library_model::requests::{LockOption, Request};

/// One end of a range of the journal.
#[derive(Clone, Copy)]
pub enum EndForm {
    /// *FIRST
    First,
    /// *LAST
    Last,
    Sequence(SequenceOperand),
}

/// APYJRNCHG and RMVJRNCHG.
#[derive(Clone, Copy)]
pub struct ChangesForm {
    pub file: Name,
    pub member: Name,
    pub from: EndForm,
    pub to: EndForm,
}

/// Where SETLL and SETGT put the position.
#[derive(Drop)]
pub enum LimitForm {
    Key(Operands),
    /// KEY(*LOVAL)
    LowValue,
    /// KEY(*HIVAL)
    HighValue,
    RecordNumber(NumberOperand),
}

/// SETLL and SETGT.
#[derive(Drop)]
pub struct PositionForm {
    pub open_id: Name,
    pub to: LimitForm,
}

/// READE and READPE.
#[derive(Drop)]
pub struct ReadEqualForm {
    pub open_id: Name,
    pub key: Operands,
    pub lock: LockOption,
}

/// What CHAIN looks for.
#[derive(Drop)]
pub enum ChainToForm {
    Key(Operands),
    RecordNumber(NumberOperand),
}

/// CHAIN.
#[derive(Drop)]
pub struct ChainForm {
    pub open_id: Name,
    pub to: ChainToForm,
    pub lock: LockOption,
}

/// WRITE.
#[derive(Drop)]
pub struct WriteForm {
    pub open_id: Name,
    /// FMT: `None` is *FILE.
    pub format: Option<Name>,
    /// RRN: `None` is *END.
    pub record_number: Option<NumberOperand>,
    pub values: GivenOperands,
}

/// UPDATE.
#[derive(Drop)]
pub struct UpdateForm {
    pub open_id: Name,
    pub values: GivenOperands,
}

/// A request of a script.
#[derive(Drop)]
pub enum RequestForm {
    /// One without variables.
    Fixed(Request),
    /// DLTJRNRCV
    DeleteReceiver(NumberOperand),
    /// DSPJRN
    DisplayJournal {
        from: SequenceOperand,
        to: SequenceOperand,
    },
    ApplyChanges(ChangesForm),
    RemoveChanges(ChangesForm),
    SetLowerLimit(PositionForm),
    SetGreaterThan(PositionForm),
    ReadEqual(ReadEqualForm),
    ReadPriorEqual(ReadEqualForm),
    Chain(ChainForm),
    Write(WriteForm),
    Update(UpdateForm),
}
