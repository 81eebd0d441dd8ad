//! What stands behind each statement, by `specs/Rests.antt`: noted from the last statement to the first.
ghost use Rattle.std.specs.Prelude.{◌≡◌, ◌+◌, ◌^◌, ◌<◌, [], OnOk, IfOk};
ghost use Rattle.script_builder.specs.Ways.{count_of, is_closing};
ghost use Rattle.script_builder.specs.Rests.{ahead_before, ends_after, landing_before, rests_of};

use crate::blocks::is_closing;
use crate::phrases::{Nesting, begins_else, does_count, nesting_of};
use crate::stack::Stack;
use statement_syntax::{Phrase, Written};
use std::alloc::{AllocError, Global};

/// How many of the next statements count, and whether an ENDDO comes before the first that does.
#[derive(Clone, Copy, PartialEq)]
pub struct Landing {
    pub count: usize,
    pub leaves: bool,
}

/// The next statements, and what comes after their ELSE and its block, if they begin with one.
#[derive(Clone, Copy, PartialEq)]
pub struct Ahead {
    pub here: Landing,
    pub past_else: Landing,
}

/// What stands behind a statement, and behind the block that opens with it.
#[derive(Clone, Copy, PartialEq)]
pub struct Rest {
    pub here: Landing,
    pub behind: Ahead,
}

/// Behind the last statement.
const END: Landing = Landing {
    count: 0,
    leaves: false,
};

const NOTHING: Ahead = Ahead {
    here: END,
    past_else: END,
};

fn landing_before(phrase: &Phrase, here: Landing) -> Landing
    requires { here.count + 1 < 2 ^ 64 }
    ensures { result ≡ landing_before phrase.now here }
{
    if does_count(phrase) {
        return Landing {
            count: here.count + 1,
            leaves: false,
        };
    }
    Landing {
        count: here.count,
        leaves: is_closing(nesting_of(phrase)) || here.leaves,
    }
}

fn ahead_before(phrase: &Phrase, ahead: Ahead, behind: Ahead) -> Ahead
    requires { ahead.here.count + 1 < 2 ^ 64 }
    ensures { result ≡ ahead_before phrase.now ahead behind }
{
    let here = landing_before(phrase, ahead.here);
    let past_else = if begins_else(phrase) {
        behind.here
    } else {
        here
    };
    Ahead { here, past_else }
}

fn pass(ends: &mut Stack<Ahead>, nesting: Nesting, ahead: Ahead) -> Result<(), AllocError>
    ensures { OnOk result (ends.new ≡ ends_after nesting ahead ends.old) }
{
    match nesting {
        Nesting::Opens(_) => ends.pop(),
        Nesting::Closes => ends.push(ahead)?,
        Nesting::Stays => {}
    }
    Ok(())
}

/// What stands behind each statement.
pub(crate) fn rests(alloc: Global, statements: &[Written]) -> Result<Vec<Rest>, AllocError>
    ensures { IfOk result (λ rests. rests.items ≡ rests_of statements.now) }
{
    let mut rests = Vec::new(alloc);
    let mut ends = Stack::new(alloc);
    let mut ahead = NOTHING;
    let mut left = statements.len();
    while left > 0 {
        left -= 1;
        let phrase = &statements[left].phrase;
        let behind = ends.top().unwrap_or(NOTHING);
        rests.push(Rest {
            here: ahead.here,
            behind,
        })?;
        pass(&mut ends, nesting_of(phrase), ahead)?;
        ahead = ahead_before(phrase, ahead, behind);
    }
    rests.reverse();
    Ok(rests)
}

/// How many statements count.
pub(crate) fn count(statements: &[Written]) -> usize
    ensures { result ≡ count_of statements.now }
{
    let mut count = 0;
    for statement in statements {
        count += usize::from(does_count(&statement.phrase));
    }
    count
}
