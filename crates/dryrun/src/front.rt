// A file with its length before it: four bytes file length, the file. It stands in a dry run's input, and in front of one the file that
// was checked in the morning (document 02, R-3).
ghost use Rattle.std.specs.Prelude.{◌≡◌, ◌+◌, ◌≤◌, length};
ghost use Rattle.dryrun.specs.Parts.{length_at, behind_of, front_of};

use crate::{LENGTH_BYTES, Unfit};

// The four bytes at a place, lowest first.
#[tactic(auto, unfolding(crate::specs::Parts::length_at, crate::specs::Parts::pair))]
fn length_at(input: &[u8], at: usize) -> usize
    requires { at + 4 ≤ length input.now }
    ensures { result ≡ length_at input.now at }
{
    u32::from_le_bytes([input[at], input[at + 1], input[at + 2], input[at + 3]]) as usize
}

// The place behind the file whose length stands at a place. Room for a file of 65,600 bytes.
#[tactic(auto, unfolding(crate::specs::Parts::behind_of))]
pub(crate) fn behind_file(input: &[u8], at: usize) -> Result<usize, Unfit>
    requires { at ≤ 6 }
    ensures { result ≡ behind_of input.now at }
{
    let start = at + LENGTH_BYTES;
    if input.len() < start {
        return Err(Unfit::CutShort);
    }
    let file = length_at(input, at);
    if 65600 < file {
        return Err(Unfit::TooLong);
    }
    let behind = start + file;
    if input.len() < behind {
        return Err(Unfit::CutShort);
    }
    Ok(behind)
}

// The place behind the file in front.
#[tactic(auto, unfolding(crate::specs::Parts::front_of))]
pub fn file_in_front(input: &[u8]) -> Result<usize, Unfit>
    ensures { result ≡ front_of input.now }
{
    behind_file(input, 0)
}
