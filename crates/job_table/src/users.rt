//! Which job is the first that uses a member, and which commit cycle began first.
ghost use Rattle.std.specs.Prelude.{◌≡◌, ◌≤◌, length, map, option_map};
ghost use Rattle.std.specs.List.{filter_map};
ghost use Rattle.lawful_states.specs.Checkpoint.{lesser, least_of};
ghost use Rattle.job_table.specs.Users.{first_user, first_changer, first_opener, cycle_starts};

use crate::job::Job;
use crate::jobs::Jobs;
use field_types::names::Name;

impl Jobs {
    /// The first job that has an open over the member, or a change of it in its open commit cycle.
    pub fn first_user(&self, member: u32) -> Option<u32>
        ensures { result ≡ first_user member self.now.jobs }
    {
        first_user(self.all(), member)
    }

    /// The first job that has a change of the member in its open commit cycle.
    pub fn first_changer(&self, member: u32) -> Option<u32>
        ensures { result ≡ first_changer member self.now.jobs }
    {
        first_changer(self.all(), member)
    }

    /// The first job that has an open of the file.
    pub fn first_opener(&self, file: &Name) -> Option<u32>
        ensures { result ≡ first_opener file.now self.now.jobs }
    {
        first_opener(self.all(), file)
    }

    /// The sequence of the entry with which the first of the open commit cycles began.
    pub fn first_cycle(&self) -> Option<u64>
        ensures { result ≡ least_of (filter_map (λ job. option_map (λ cycle. cycle.sequence) job.cycle) self.now.jobs) }
    {
        first_cycle(self.all())
    }
}

/// The lesser of two numbers of jobs that are there.
pub fn lesser(a: Option<u32>, b: Option<u32>) -> Option<u32>
    ensures { result ≡ lesser a b }
{
    match (a, b) {
        (Some(a), Some(b)) => Some(a.min(b)),
        (None, other) => other,
        (Some(a), None) => Some(a),
    }
}

fn first_user(jobs: &[Job], member: u32) -> Option<u32>
    requires { length jobs.now ≤ 4294967295 }
    ensures { result ≡ first_user member (map (λ job. job.state) jobs.now) }
{
    for (i, job) in jobs.iter().enumerate() {
        if job.opens().are_over(member) || job.cycle().undos().have_member(member) {
            return Some(i as u32 + 1);
        }
    }
    None
}

fn first_changer(jobs: &[Job], member: u32) -> Option<u32>
    requires { length jobs.now ≤ 4294967295 }
    ensures { result ≡ first_changer member (map (λ job. job.state) jobs.now) }
{
    for (i, job) in jobs.iter().enumerate() {
        if job.cycle().undos().have_member(member) {
            return Some(i as u32 + 1);
        }
    }
    None
}

fn first_opener(jobs: &[Job], file: &Name) -> Option<u32>
    requires { length jobs.now ≤ 4294967295 }
    ensures { result ≡ first_opener file.now (map (λ job. job.state) jobs.now) }
{
    for (i, job) in jobs.iter().enumerate() {
        if job.opens().are_of(file) {
            return Some(i as u32 + 1);
        }
    }
    None
}

fn first_cycle(jobs: &[Job]) -> Option<u64>
    ensures { result ≡ least_of (cycle_starts (map (λ job. job.state) jobs.now)) }
{
    let mut left = jobs.len();
    let mut first = None;
    while left > 0 {
        left -= 1;
        first = match (jobs[left].cycle().sequence(), first) {
            (Some(sequence), Some(other)) => Some(sequence.min(other)),
            (Some(sequence), None) => Some(sequence),
            (None, other) => other,
        };
    }
    first
}
