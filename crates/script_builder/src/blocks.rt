//! Open blocks, by `specs/Nestings.antt`.
ghost use Rattle.std.specs.Prelude.{◌≡◌, ◌+◌, ◌^◌, ◌<◌, OnOk};
ghost use Rattle.script_builder.specs.Nestings.{depth_after, closes_none, blocks_after, closes_then};
ghost use Rattle.script_builder.specs.Ways.{is_closing};

use crate::phrases::{Block, Nesting};
use crate::stack::Stack;
use std::alloc::AllocError;

/// How many blocks are open after a statement.
pub(crate) fn depth_after(depth: usize, nesting: Nesting) -> usize
    requires { depth + 1 < 2 ^ 64 }
    ensures { result ≡ depth_after depth nesting }
{
    match nesting {
        Nesting::Opens(_) => depth + 1,
        Nesting::Closes => depth.saturating_sub(1),
        Nesting::Stays => depth,
    }
}

/// Whether it's an ENDDO.
pub(crate) fn is_closing(nesting: Nesting) -> bool
    ensures { result ≡ is_closing nesting }
{
    match nesting {
        Nesting::Opens(_) => false,
        Nesting::Closes => true,
        Nesting::Stays => false,
    }
}

/// Whether it's an ENDDO where no block is open.
pub(crate) fn closes_none(depth: usize, nesting: Nesting) -> bool
    ensures { result ≡ closes_none depth nesting }
{
    match nesting {
        Nesting::Opens(_) => false,
        Nesting::Closes => depth == 0,
        Nesting::Stays => false,
    }
}

/// Whether it's the ENDDO of an IF.
pub(crate) fn closes_then(blocks: &Stack<Block>, nesting: Nesting) -> bool
    ensures { result ≡ closes_then blocks.now nesting }
{
    match nesting {
        Nesting::Opens(_) => false,
        Nesting::Closes => match blocks.top() {
            Some(Block::ThenBlock) => true,
            Some(Block::ElseBlock) => false,
            Some(Block::LoopBlock) => false,
            None => false,
        },
        Nesting::Stays => false,
    }
}

/// The open blocks after a statement.
pub(crate) fn nest(blocks: &mut Stack<Block>, nesting: Nesting) -> Result<(), AllocError>
    ensures { OnOk result (blocks.new ≡ blocks_after blocks.old nesting) }
{
    match nesting {
        Nesting::Opens(block) => blocks.push(block)?,
        Nesting::Closes => blocks.pop(),
        Nesting::Stays => {}
    }
    Ok(())
}
