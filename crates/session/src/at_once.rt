// Document 01's one operation: it checks the settings, checks the file and begins.
ghost use Rattle.std.specs.Prelude.{◌≡◌};
ghost use Rattle.session.specs.Begin.{begin_of};

use crate::{Handed, Settings};
use guide::Verdict;

impl Settings {
    // A bad setting with a bad file is 14; a refused file has its own number.
    #[tactic(auto, using(crate::proofs::Laws::begin_not), unfolding(crate::specs::Begin::answered_of))]
    pub fn begin(self, text: &[u8]) -> Handed
        ensures { result ≡ begin_of self text.now }
    {
        if self.allowed() {
            let checked = image::check(text);
            match checked.answer {
                Ok(()) => self.begin_with(checked.summary),
                Err(refusal) => self.refused(Verdict::File(refusal)),
            }
        } else {
            self.refused(Verdict::Setting)
        }
    }
}
