// The whole file (document 01, "The whole file" and "Numbers for a file"): its answer, and what an accepted file says.
#![tactic(auto)]

mod config_lines;
mod device;
mod order;
mod says;
mod walk;

ghost use Rattle.std.specs.Prelude.{◌≡◌};
ghost use Rattle.image.specs.Check.{check_of};

use counts::ConfigId;
use order::summary_of;
use summary::{Checked, Summary};

// What the walk keeps of the lines: how many, whether one before the last is a burn, and whether the last is.
#[derive(Clone, Copy)]
struct Facts {
    pub lines: u32,
    pub early: bool,
    pub burnt: bool,
}

// What the identifier and CRC lines of the first configurations say, as they go into the summary.
#[derive(Clone, Copy)]
struct Spots {
    pub ids: [ConfigId; 8],
    pub crcs: [u32; 8],
}

// The file's answer, and what it says where it is accepted.
#[tactic(auto, using(crate::proofs::RestOfTests::said, crate::proofs::RestOfTests::refused))]
pub fn check(text: &[u8]) -> Checked
    ensures { result ≡ check_of text.now }
{
    match summary_of(text) {
        Ok(summary) => Checked {
            answer: Ok(()),
            summary,
        },
        Err(refusal) => Checked {
            answer: Err(refusal),
            summary: Summary::none(),
        },
    }
}
