//! Single statements, and the replies to their requests, by `specs/Asks.antt`.
ghost use Rattle.std.specs.Prelude.{◌≡◌, false, IfOk, OnOk, OnErr, option_copied};
ghost use Rattle.job_language.specs.Refusals.{refusal_of};
ghost use Rattle.job_language.specs.Values.{result_of, truth_of};
ghost use Rattle.job_language.specs.Requests.{request_of};
ghost use Rattle.job_language.specs.Replies.{shown, has_fields, put_into};
ghost use Rattle.job_language.specs.Asks.{change, changed, branch, step_of, values_after, monitored, answered, put_answer, reply_step, values_replied, asks_form, asks_action, end_job, ends};

use crate::operands::{Condition, Expression};
use crate::refusals::{Monitor, Refusal, refusal_of};
use crate::statements::{Action, RequestStatement, Statement};
use crate::variables::Variables;
use field_types::values::Value;
use library_model::replies::Reply;
use library_model::requests::{EndJob, EndReason, Request};
use std::alloc::{AllocError, Global};

/// What comes after a statement, or after the reply to its request.
#[derive(Clone, Copy)]
pub enum Step {
    /// The script goes on at this place.
    GoOn(usize),
    /// The request is made.
    Ask,
    /// The job ends.
    End(EndReason, u32),
}

impl Statement {
    /// Runs the statement.
    pub(crate) fn run(&self, variables: &mut Variables) -> Result<Step, AllocError>
        ensures step { IfOk result (λ step. step ≡ step_of self.now variables.old.now) }
        ensures values { OnOk result (variables.new.now ≡ values_after self.now.action variables.old.now) }
        ensures before { variables.new.before ≡ variables.old.before }
    {
        match &self.action {
            Action::ChangeVariable { variable, value } => self.change(*variable, value, variables),
            Action::If {
                condition,
                otherwise,
            } => Ok(self.branch(condition, *otherwise, variables.values())),
            Action::Else => Ok(Step::GoOn(self.next)),
            Action::DoWhile {
                condition,
                otherwise,
            } => Ok(self.branch(condition, *otherwise, variables.values())),
            Action::Goto => Ok(Step::GoOn(self.next)),
            Action::Return => Ok(Step::End(EndReason::Normal, 0)),
            Action::Request(_) => Ok(Step::Ask),
        }
    }

    fn change(
        &self,
        variable: usize,
        value: &Expression,
        variables: &mut Variables,
    ) -> Result<Step, AllocError>
        ensures step { IfOk result (λ step. step ≡ change self.now (result_of variables.old.now value.now)) }
        ensures values { OnOk result (variables.new.now ≡ changed variable (result_of variables.old.now value.now) variables.old.now) }
        ensures before { variables.new.before ≡ variables.old.before }
    {
        match value.result(variables.allocator(), variables.values())? {
            None => Ok(Step::End(EndReason::Expression, self.line)),
            Some(value) => {
                variables.set(variable, value)?;
                Ok(Step::GoOn(self.next))
            }
        }
    }

    fn branch(&self, condition: &Condition, otherwise: usize, values: &[Value]) -> Step
        ensures { result ≡ branch self.now otherwise (truth_of values.now condition.now) }
    {
        match condition.truth(values) {
            None => Step::End(EndReason::Expression, self.line),
            Some(true) => Step::GoOn(self.next),
            Some(false) => Step::GoOn(otherwise),
        }
    }

    /// Goes on with the reply to the statement's request.
    pub(crate) fn reply(&self, reply: &Reply, variables: &mut Variables) -> Result<Step, AllocError>
        ensures step { IfOk result (λ step. step ≡ reply_step self.now reply.now) }
        ensures values { OnOk result (variables.new.now ≡ values_replied self.now.action reply.now variables.old.now) }
        ensures before { variables.new.before ≡ variables.old.before }
        ensures goes_on { OnErr result (ends (reply_step self.now reply.now) ≡ false) }
    {
        match &self.action {
            Action::Request(args) => self.answer(args, reply, variables),
            Action::ChangeVariable { .. } => Ok(Step::Ask),
            Action::If { .. } => Ok(Step::Ask),
            Action::Else => Ok(Step::Ask),
            Action::DoWhile { .. } => Ok(Step::Ask),
            Action::Goto => Ok(Step::Ask),
            Action::Return => Ok(Step::Ask),
        }
    }

    fn answer(
        &self,
        args: &RequestStatement,
        reply: &Reply,
        variables: &mut Variables,
    ) -> Result<Step, AllocError>
        ensures step { IfOk result (λ step. step ≡ answered self.now args.now reply.now (refusal_of reply.now)) }
        ensures values { OnOk result (variables.new.now ≡ put_answer args.now reply.now (refusal_of reply.now) variables.old.now) }
        ensures before { variables.new.before ≡ variables.old.before }
        ensures goes_on { OnErr result (ends (answered self.now args.now reply.now (refusal_of reply.now)) ≡ false) }
    {
        if let Some(refusal) = refusal_of(reply) {
            return Ok(self.monitored(refusal, &args.monitor));
        }
        let fields = shown(reply);
        let into = args.into.as_slice();
        if fields.len() < into.len() {
            return Ok(Step::End(EndReason::Expression, self.line));
        }
        put_into(into, fields, variables)?;
        Ok(Step::GoOn(self.next))
    }

    fn monitored(&self, refusal: Refusal, monitor: &Option<Monitor>) -> Step
        ensures { result ≡ monitored self.now refusal monitor.now }
    {
        match monitor {
            Some(monitor) if monitor.takes.takes(refusal) => {
                Step::GoOn(monitor.target.unwrap_or(self.next))
            }
            Some(_) => Step::End(EndReason::Escape, self.line),
            None => Step::End(EndReason::Escape, self.line),
        }
    }

    /// The request that the job makes here.
    pub(crate) fn asks(
        &self,
        alloc: Global,
        values: &[Value],
        full: bool,
    ) -> Result<Request, AllocError>
        ensures { IfOk result (λ request. request ≡ asks_action self.now self.now.action values.now full) }
    {
        match &self.action {
            Action::Request(args) => self.asks_form(args, alloc, values, full),
            Action::ChangeVariable { .. } => Ok(end_job(EndReason::Normal, 0)),
            Action::If { .. } => Ok(end_job(EndReason::Normal, 0)),
            Action::Else => Ok(end_job(EndReason::Normal, 0)),
            Action::DoWhile { .. } => Ok(end_job(EndReason::Normal, 0)),
            Action::Goto => Ok(end_job(EndReason::Normal, 0)),
            Action::Return => Ok(end_job(EndReason::Normal, 0)),
        }
    }

    fn asks_form(
        &self,
        args: &RequestStatement,
        alloc: Global,
        values: &[Value],
        full: bool,
    ) -> Result<Request, AllocError>
        ensures { IfOk result (λ request. request ≡ asks_form self.now (request_of values.now args.now.form) full) }
    {
        match args.form.request(alloc, values)? {
            None => Ok(end_job(EndReason::Expression, self.line)),
            Some(_) if full => Ok(end_job(EndReason::History, 0)),
            Some(request) => Ok(request),
        }
    }
}

pub(crate) fn end_job(reason: EndReason, line: u32) -> Request
    ensures { result ≡ end_job reason line }
{
    Request::EndJob(EndJob { reason, line })
}

/// The values of the record that was read.
fn shown(reply: &Reply) -> &[Value]
    ensures { result.now ≡ shown reply.now }
{
    match reply {
        Reply::Record(read) => read.values.as_slice(),
        _ => &[],
    }
}

fn put_into(into: &[usize], fields: &[Value], variables: &mut Variables) -> Result<(), AllocError>
    ensures now { OnOk result (variables.new.now ≡ put_into into.now fields.now variables.old.now) }
    ensures before { variables.new.before ≡ variables.old.before }
{
    let mut rest = fields;
    for variable in into {
        let [field, others @ ..] = rest else {
            return Ok(());
        };
        let value = field.copied(variables.allocator())?;
        variables.set(*variable, value)?;
        rest = others;
    }
    Ok(())
}
