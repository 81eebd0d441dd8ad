//! The numbers of receivers and of their areas. The page is docs/formats/receivers.md.
ghost use Rattle.std.specs.Prelude.{◌≡◌, ◌≤◌};
ghost use Rattle.receiver_chain.specs.Receivers.{area_of};

/// The number of the first receiver that a journal ever has.
pub const FIRST_RECEIVER: u32 = 1;

/// No receiver has a greater number.
pub const MAX_RECEIVER: u32 = 100_000;

/// The version of the receivers that are made.
pub const VERSION: u32 = 1;

/// The areas before that of receiver 1 hold root records and checkpoints.
const AREAS_BEFORE: u32 = 2;

/// The area of a receiver.
pub fn area_of(receiver: u32) -> u32
    requires { receiver ≤ MAX_RECEIVER }
    ensures { result ≡ area_of receiver }
{
    AREAS_BEFORE + receiver
}
