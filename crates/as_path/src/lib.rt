// The AS_PATH attribute: what it is read as. Crate `reading` has the code.
#![tactic(auto)]

use types::Ground;

// The most numbers of a merged path.
pub const MOST_NUMBERS: usize = 512;

// What an attribute without a refusal is: a merged path, so many numbers at the start of the buffer, or a ground. A number and no slice, because
// `reading::read` promises what the whole buffer holds.
#[derive(Clone, Copy, PartialEq, Eq)]
pub enum Reading {
    Path(usize),
    OnGround(Ground),
}
