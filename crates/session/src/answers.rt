// What is told of an answer, in the document's numbers.
ghost use Rattle.std.specs.Prelude.{◌≡◌};
ghost use Rattle.session.specs.Reports.{report_of};

use crate::Answer;
use summary::Told;

impl Answer {
    // While a reply is awaited there is no number, since DONE is 0.
    #[tactic(auto, unfolding(crate::specs::Reports::report_of))]
    pub fn report(self) -> Option<Told>
        ensures { result ≡ report_of self }
    {
        match self {
            Answer::Next => None,
            Answer::Over(verdict) => Some(verdict.told()),
            Answer::BadState => Some(Told::plain(15)),
        }
    }
}
