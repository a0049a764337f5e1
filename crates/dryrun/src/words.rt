// What a program writes, and nothing else, of an input that is not run.
use crate::Unfit;
use std::fmt;

impl fmt::Display for Unfit {
    ghost use Rattle.std.specs.Prelude.{Some};
    ghost use Rattle.dryrun.specs.Parts.{unfit_words};

    ghost output = { λ x. Some (unfit_words x) };

    #[tactic(auto, unfolding(crate::specs::Parts::unfit_words, text::specs::Text::bytes_of))]
    fn fmt<W: fmt::Write>(&self, f: &mut fmt::Formatter<W>) -> fmt::Result {
        match self {
            Unfit::CutShort => f.write_str("cut short"),
            Unfit::TooLong => f.write_str("too long"),
        }
    }
}
