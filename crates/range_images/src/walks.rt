//! The way over slot changes, from the first or back from the last.
ghost use Rattle.std.specs.Prelude.{◌≡◌, map, reverse, IfOk};
ghost use Rattle.journal_model.specs.Walks.{apply, remove};
ghost use Rattle.range_images.specs.Sides.{numbered_of};
ghost use Rattle.range_images.specs.Faults.{TellsFault};
ghost use Rattle.range_images.specs.Given.{given_forward, given_back, Gave};
ghost use Rattle.range_images.specs.Images.{lacking_in};

use crate::change::SlotChange;
use crate::fault::ImagesFault;
use crate::overlay::Overlay;
use member_slots::member::Member;
use std::alloc::Global;

/// The sequence of the last change whose slot before isn't in the journal.
pub(crate) fn last_lacking(changes: &[SlotChange<'_>]) -> Option<u64>
    ensures { result ≡ lacking_in (reverse changes.now) }
{
    let mut left = changes.len();
    while left > 0 {
        left -= 1;
        let change = changes[left];
        if change.sides.before.is_none() {
            return Some(change.sequence);
        }
    }
    None
}

/// Makes the changes again, in their order.
pub(crate) fn redone(
    alloc: Global,
    member: &Member,
    changes: &[SlotChange<'_>],
) -> Result<Overlay, ImagesFault>
    ensures done { IfOk result (λ overlay. Gave (apply (map numbered_of changes.now) member.now.state.slots) member.now.state.slots (given_forward (map numbered_of changes.now)) overlay) }
    ensures fault { TellsFault result (apply (map numbered_of changes.now) member.now.state.slots) }
{
    let mut overlay = Overlay::new(alloc, member.slots());
    for change in changes {
        overlay.redo(alloc, member, *change)?;
    }
    Ok(overlay)
}

/// Takes them back, from the last to the first.
pub(crate) fn undone(
    alloc: Global,
    member: &Member,
    changes: &[SlotChange<'_>],
) -> Result<Overlay, ImagesFault>
    ensures done { IfOk result (λ overlay. Gave (remove (map numbered_of changes.now) member.now.state.slots) member.now.state.slots (given_back (map numbered_of changes.now)) overlay) }
    ensures fault { TellsFault result (remove (map numbered_of changes.now) member.now.state.slots) }
{
    let mut overlay = Overlay::new(alloc, member.slots());
    let mut left = changes.len();
    while left > 0 {
        left -= 1;
        overlay.undo(alloc, member, changes[left])?;
    }
    Ok(overlay)
}
