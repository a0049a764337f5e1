// Where a line ends.
ghost use Rattle.std.specs.Prelude.{◌≡◌, drop, ◌≤◌, length};
ghost use Rattle.line.specs.Digits.{digit_by, digit_run};
ghost use Rattle.line.specs.Lent.{ending_of};

use crate::reader::Reader;

impl Reader<'_> {
    // How many digits a text starts with. With `position` the proof did not close.
    #[tactic(auto, using(crate::proofs::LineParts::run_on, crate::proofs::LineParts::run_stop, crate::proofs::LineParts::run_past))]
    pub(crate) fn run_of(self, t: &[u8]) -> usize
        ensures { result ≡ digit_run (digit_by self.entry.digits.now) t.now }
    {
        for (i, b) in t.iter().enumerate() {
            if self.digit(*b) > 15 {
                return i;
            }
        }
        t.len()
    }
}

// What stands at a place where digits end: a line's end or the text's, with the place behind it, or something else. A CR belongs to a
// line's end only where it stands directly before an LF.
#[tactic(auto, unfolding(crate::specs::Lent::ending_of))]
pub(crate) fn end_at(s: &[u8], e: usize) -> Option<usize>
    requires { e ≤ length s.now }
    ensures { result ≡ ending_of e (drop e s.now) }
{
    match &s[e..] {
        [] => Some(e),
        [b'\n', ..] => Some(e + 1),
        [b'\r', b'\n', ..] => Some(e + 2),
        _ => None,
    }
}
