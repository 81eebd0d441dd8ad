//! Where each statement leads, by `specs/Ways.antt`: from the first statement to the last, with the exits of the open blocks.
ghost use Rattle.std.specs.Prelude.{◌≡◌, [], OnOk, IfOk};
ghost use Rattle.script_builder.specs.Phrases.{nesting_of};
ghost use Rattle.script_builder.specs.Ways.{count_of, next_of, ways_of};
ghost use Rattle.script_builder.specs.Rests.{rests_of, lead, exit_by, exits_by, otherwise_by, way_by};

use crate::name_table::NameTable;
use crate::phrases::{Block, Nesting, does_count, nesting_of, target};
use crate::rests::{Landing, Rest};
use crate::stack::Stack;
use field_types::names::Name;
use statement_syntax::{Phrase, Written};
use std::alloc::{AllocError, Global};

/// Where a statement leads.
#[derive(Clone, Copy, PartialEq)]
pub struct Way {
    /// The place where it goes on.
    pub next: usize,
    /// The place where it goes on if its condition doesn't hold.
    pub otherwise: usize,
}

fn lead(landing: Landing, total: usize, exits: &Stack<usize>) -> usize
    ensures { result ≡ lead landing total exits.now }
{
    let place = total.saturating_sub(landing.count);
    if landing.leaves {
        return exits.top().unwrap_or(place);
    }
    place
}

fn exit(block: Block, place: usize, rest: Rest, total: usize, exits: &Stack<usize>) -> usize
    ensures { result ≡ exit_by block place rest total exits.now }
{
    match block {
        Block::ThenBlock => lead(rest.behind.past_else, total, exits),
        Block::ElseBlock => lead(rest.behind.here, total, exits),
        Block::LoopBlock => place,
    }
}

fn enter(
    exits: &mut Stack<usize>,
    nesting: Nesting,
    place: usize,
    rest: Rest,
    total: usize,
) -> Result<(), AllocError>
    ensures { OnOk result (exits.new ≡ exits_by nesting place rest total exits.old) }
{
    match nesting {
        Nesting::Opens(block) => {
            let exit = exit(block, place, rest, total, exits);
            exits.push(exit)?;
        }
        Nesting::Closes => exits.pop(),
        Nesting::Stays => {}
    }
    Ok(())
}

fn otherwise(nesting: Nesting, rest: Rest, total: usize, exits: &Stack<usize>) -> usize
    ensures { result ≡ otherwise_by nesting rest total exits.now }
{
    match nesting {
        Nesting::Opens(_) => lead(rest.behind.here, total, exits),
        Nesting::Closes => lead(rest.here, total, exits),
        Nesting::Stays => lead(rest.here, total, exits),
    }
}

fn next(target: Option<Name>, labels: &NameTable, on: usize) -> usize
    ensures { result ≡ next_of target labels.now on }
{
    match target {
        None => on,
        Some(label) => labels.number(&label).unwrap_or(0),
    }
}

/// The way of a statement at this place, and the exits of the blocks that are open after it.
fn way_by(
    phrase: &Phrase,
    place: usize,
    rest: Rest,
    labels: &NameTable,
    total: usize,
    exits: &mut Stack<usize>,
) -> Result<Way, AllocError>
    ensures way { IfOk result (λ way. way ≡ way_by phrase.now rest labels.now total exits.old exits.new) }
    ensures exits { OnOk result (exits.new ≡ exits_by (nesting_of phrase.now) place rest total exits.old) }
{
    let nesting = nesting_of(phrase);
    let otherwise = otherwise(nesting, rest, total, exits);
    enter(exits, nesting, place, rest, total)?;
    let on = lead(rest.here, total, exits);
    Ok(Way {
        next: next(target(phrase), labels, on),
        otherwise,
    })
}

/// Where each statement leads.
pub(crate) fn ways(
    alloc: Global,
    statements: &[Written],
    rests: &[Rest],
    labels: &NameTable,
    total: usize,
) -> Result<Vec<Way>, AllocError>
    requires rests { rests.now ≡ rests_of statements.now }
    requires total { total ≡ count_of statements.now }
    ensures { IfOk result (λ ways. ways.items ≡ ways_of statements.now labels.now total []) }
{
    let mut ways = Vec::new(alloc);
    let mut exits = Stack::new(alloc);
    let mut place = 0;
    for i in 0..statements.len() {
        let phrase = &statements[i].phrase;
        let way = way_by(phrase, place, rests[i], labels, total, &mut exits)?;
        ways.push(way)?;
        place += usize::from(does_count(phrase));
    }
    Ok(ways)
}
