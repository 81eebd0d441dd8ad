//! How far a job has come, and what it asks next, by `specs/Asks.antt`.
ghost use Rattle.std.specs.Prelude.{◌≡◌, ◌<◌, ◌++◌, [], ◌∷◌, false, IsTrue, List, IsOk, IfOk, OnOk, OnErr, Some, None, option_copied, slice_get};
ghost use Rattle.library_model.specs.declared.replies.Reply.{Reply};
ghost use Rattle.field_types.specs.declared.values.Value.{Value};
ghost use Rattle.job_language.specs.Asks.{ended, run_from, reply_to, state_after, goes_on, asks_in, asks_at, start, progress_of, asks, continues, is_end, reply_ends, has_ended};
ghost use Rattle.job_language.specs.Positions.{state_at, is_ended};

use crate::statements::{Script, Statement};
use crate::steps::{Step, end_job};
use crate::variables::Variables;
use library_model::replies::Reply;
use library_model::requests::{EndReason, Request};
use std::alloc::{AllocError, Global};
use std::marker::Model;

/// The most statements that a job may run.
pub const MOST_STATEMENTS: u32 = 100_000;

/// Where a job stands.
#[derive(Clone, Copy)]
pub enum Stage {
    /// Nothing was run.
    NotBegun,
    /// The request of the statement at this place is made, and waits for its reply.
    Asking { place: usize },
    /// The job has ended.
    Ended { reason: EndReason, line: u32 },
}

/// A stage, and how many statements may still be run.
#[derive(Clone, Copy)]
struct Position {
    stage: Stage,
    left: u32,
}

/// How far a job has come.
#[derive(Drop)]
pub struct Progress {
    variables: Variables,
    position: Position,
}

impl Model for Progress {
    ghost use Rattle.std.specs.Prelude.{◌≡◌};
    ghost use Rattle.job_language.specs.Asks.{JobState};

    ghost Value = { JobState };

    ghost view = { λ p. record { stage = p.position.stage; left = p.position.left; values = p.variables.now } };

    ghost invariant = { λ p. p.variables.before ≡ p.variables.now };
}

impl Progress {
    /// A job that has run nothing, with room for its variables' values.
    pub fn new(alloc: Global, script: &Script) -> Result<Progress, AllocError>
        ensures { IfOk result (λ progress. progress ≡ start script.now) }
    {
        Ok(Progress {
            variables: Variables::new(alloc, &script.variables)?,
            position: Position {
                stage: Stage::NotBegun,
                left: MOST_STATEMENTS,
            },
        })
    }

    /// What the job asks next, whose last request was answered by `last`, where the history is full or isn't. Before
    /// the first request there is no reply.
    pub fn next(
        &mut self,
        script: &Script,
        last: Option<&Reply>,
        full: bool,
    ) -> Result<Request, AllocError>
        // By one step.
        ensures state { OnOk result (self.new ≡ state_after script.now self.old (option_copied last.entry)) }
        ensures request { IfOk result (λ request. request ≡ asks_in script.now (state_after script.now self.old (option_copied last.entry)) full) }
        ensures unchanged { OnErr result (self.new ≡ self.old) }
        ensures falls { IsTrue (continues self.old.stage (option_copied last.entry)) → IfOk result (λ request. is_end request ≡ false → self.new.left < self.old.left) }
        ensures ends { IsTrue (has_ended script.now.statements self.old.stage (option_copied last.entry)) → IsOk result }
        // By all replies.
        ensures first_state { self.old ≡ start script.now → option_copied last.entry ≡ None → OnOk result (self.new ≡ progress_of script.now []) }
        ensures first_request { self.old ≡ start script.now → option_copied last.entry ≡ None → IfOk result (λ request. request ≡ asks script.now [] full) }
        ensures later_state { (replies : List Reply) (reply : Reply) → self.old ≡ progress_of script.now replies → option_copied last.entry ≡ Some reply → OnOk result (self.new ≡ progress_of script.now (replies ++ reply ∷ [])) }
        ensures later_request { (replies : List Reply) (reply : Reply) → self.old ≡ progress_of script.now replies → option_copied last.entry ≡ Some reply → IfOk result (λ request. request ≡ asks script.now (replies ++ reply ∷ []) full) }
    {
        let statements = script.statements.as_slice();
        match advance(self.position, statements, &mut self.variables, last, full) {
            Ok(Asked { position, request }) => {
                self.variables.settle();
                self.position = position;
                Ok(request)
            }
            Err(error) => {
                self.variables.set_back();
                Err(error)
            }
        }
    }
}

/// A request, and the position at which it is made.
#[derive(Drop)]
struct Asked {
    position: Position,
    request: Request,
}

fn advance(
    position: Position,
    statements: &[Statement],
    variables: &mut Variables,
    last: Option<&Reply>,
    full: bool,
) -> Result<Asked, AllocError>
    ensures state { IfOk result (λ asked. state_at asked.position variables.new.now ≡ goes_on statements.now position.stage (state_at position variables.old.now) (option_copied last.entry)) }
    ensures request { IfOk result (λ asked. asked.request ≡ asks_at statements.now asked.position.stage variables.new.now full) }
    ensures before { variables.new.before ≡ variables.old.before }
    ensures ends { OnErr result (has_ended statements.now position.stage (option_copied last.entry) ≡ false) }
{
    let position = position.go_on(statements, variables, last)?;
    let request = position.asks(statements, variables, full)?;
    Ok(Asked { position, request })
}

impl Position {
    fn go_on(
        self,
        statements: &[Statement],
        variables: &mut Variables,
        last: Option<&Reply>,
    ) -> Result<Position, AllocError>
        ensures state { IfOk result (λ position. state_at position variables.new.now ≡ goes_on statements.now self.stage (state_at self variables.old.now) (option_copied last.entry)) }
        ensures before { variables.new.before ≡ variables.old.before }
        ensures ends { OnErr result (has_ended statements.now self.stage (option_copied last.entry) ≡ false) }
    {
        match self.stage {
            Stage::NotBegun => run_from(statements, 0, self.left, variables),
            Stage::Asking { place } => match last {
                None => Ok(self),
                Some(reply) => self.reply(statements, place, reply, variables),
            },
            Stage::Ended { .. } => Ok(self),
        }
    }

    fn reply(
        self,
        statements: &[Statement],
        place: usize,
        reply: &Reply,
        variables: &mut Variables,
    ) -> Result<Position, AllocError>
        ensures state { IfOk result (λ position. state_at position variables.new.now ≡ reply_to (slice_get statements.now place) statements.now place (state_at self variables.old.now) reply.now) }
        ensures before { variables.new.before ≡ variables.old.before }
        ensures ends { OnErr result (reply_ends (slice_get statements.now place) (Some reply.now) ≡ false) }
    {
        let left = self.left;
        match statements.get(place) {
            None => Ok(self),
            Some(statement) => match statement.reply(reply, variables)? {
                Step::GoOn(to) => run_from(statements, to, left, variables),
                Step::Ask => Ok(asking(place, left)),
                Step::End(reason, line) => Ok(ended(reason, line, left)),
            },
        }
    }

    /// What the job asks at this position.
    fn asks(
        self,
        statements: &[Statement],
        variables: &Variables,
        full: bool,
    ) -> Result<Request, AllocError>
        ensures request { IfOk result (λ request. request ≡ asks_at statements.now self.stage variables.now.now full) }
        ensures goes_on { OnErr result (is_ended self.stage ≡ false) }
    {
        match self.stage {
            Stage::NotBegun => Ok(end_job(EndReason::Normal, 0)),
            Stage::Asking { place } => match statements.get(place) {
                None => Ok(end_job(EndReason::Normal, 0)),
                Some(statement) => {
                    statement.asks(variables.allocator(), variables.values(), full)
                }
            },
            Stage::Ended { reason, line } => Ok(end_job(reason, line)),
        }
    }
}

/// Runs the statements from a place on, up to a request or the end.
fn run_from(
    statements: &[Statement],
    from: usize,
    most: u32,
    variables: &mut Variables,
) -> Result<Position, AllocError>
    ensures state { IfOk result (λ position. state_at position variables.new.now ≡ run_from most statements.now from variables.old.now) }
    ensures before { variables.new.before ≡ variables.old.before }
{
    let mut place = from;
    let mut left = most;
    while let Some(statement) = statements.get(place) {
        if left == 0 {
            return Ok(ended(EndReason::Statements, 0, left));
        }
        left -= 1;
        match statement.run(variables)? {
            Step::GoOn(to) => place = to,
            Step::Ask => return Ok(asking(place, left)),
            Step::End(reason, line) => return Ok(ended(reason, line, left)),
        }
    }
    Ok(ended(EndReason::Normal, 0, left))
}

fn asking(place: usize, left: u32) -> Position
    ensures { (values : List Value) → state_at result values ≡ record { stage = Stage.Asking place; left = left; values = values } }
{
    Position {
        stage: Stage::Asking { place },
        left,
    }
}

fn ended(reason: EndReason, line: u32, left: u32) -> Position
    ensures { (values : List Value) → state_at result values ≡ ended reason line left values }
{
    Position {
        stage: Stage::Ended { reason, line },
        left,
    }
}
