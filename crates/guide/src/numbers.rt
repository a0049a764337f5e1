// What is told of a verdict: document 01's number, a refused file's line and the place in it, and the N of 31.
ghost use Rattle.std.specs.Prelude.{◌≡◌};
ghost use Rattle.guide.specs.Guide.{reply_reason};
ghost use Rattle.guide.specs.Numbers.{reason_number, verdict_told};

use crate::{Reason, Verdict};
use bus::Misreply;
use summary::Told;

// 20, 21 and 22, which are tried at each reply.
impl From<Misreply> for Reason {
    ghost from_gives = { λ misreply reason. reason ≡ reply_reason misreply };

    fn from(misreply: Misreply) -> Reason {
        match misreply {
            Misreply::Unanswered => Reason::Nack,
            Misreply::Misshapen => Reason::Shape,
            Misreply::Miscoded => Reason::Pec,
        }
    }
}

impl Reason {
    // The number of the table of verdicts. `Fault` and `Whole` have theirs, each of a table of its own; a trait would be no plainer.
    pub fn number(self) -> u8
        ensures { result ≡ reason_number self }
    {
        self as u8
    }
}

impl Verdict {
    // A refused file's is the refusal's, and N is 0 unless the number is 31.
    pub fn told(self) -> Told
        ensures { result ≡ verdict_told self }
    {
        match self {
            Verdict::Done => Told::plain(0),
            Verdict::Setting => Told::plain(14),
            Verdict::File(refusal) => refusal.told(),
            Verdict::Mismatch(config) => Told {
                config,
                ..Told::plain(31)
            },
            Verdict::Halted(reason) => Told::plain(reason.number()),
            Verdict::State => Told::plain(15),
        }
    }
}
