// What a check hands back (document 01, "Numbers for a file" and "The whole file"): a file's answer, what is told of it, and
// what an accepted file says.
#![tactic(auto)]

ghost use Rattle.std.specs.Prelude.{◌≡◌};
ghost use Rattle.summary.specs.Answers.{plain, whole_number, refusal_told, answer_told, no_summary};
ghost use Rattle.summary.specs.Burn.{is_burn};
ghost use Rattle.summary.specs.declared.Refusal.TheVariants as refusal;

use bus::Bus;
use counts::{ConfigId, ConfigNumber, Kind, LineNumber, Place};
use line::{Line, LineRefusal};

// The faults of the whole file, numbers 1, 7 to 11 and 13 of document 01, "Numbers for a file". 12 is unused (request R-9).
#[derive(Clone, Copy)]
pub enum Whole {
    Size = 1,
    Count = 7,
    Revision = 8,
    Device = 9,
    Burn = 10,
    Spot = 11,
    Same = 13,
}

// The first faulty line with its refusal, numbers 2 to 6, or the whole file's. Handed on whole. Both are refusals, so that no Result is
// plainer.
#[derive(Clone, Copy)]
pub enum Refusal {
    Line(LineNumber, LineRefusal),
    Whole(Whole),
}

// A file is accepted, or refused.
pub type FileAnswer = Result<(), Refusal>;

// What is told of an answer: document 01's number, the line, the place in it, and N. The number is also 0, that of an accepted file and
// of DONE, and goes on to C as it is.
#[derive(Clone, Copy)]
pub struct Told {
    pub number: u8,
    pub line: LineNumber,
    pub place: Place,
    pub config: ConfigNumber,
}

// What an accepted file says, as document 02 lists it (R-3): the identifiers and the CRCs stand apart there, and in `summary_of`. `line5`
// is the place of line 5 in the text.
#[derive(Clone, Copy)]
pub struct Summary {
    pub kind: Kind,
    pub identity: u32,
    pub lines: u32,
    pub configs: u8,
    pub line5: usize,
    pub ids: [ConfigId; 8],
    pub crcs: [u32; 8],
}

// The summary stands beside the answer, since a refused check hands one back too, of zeros (document 02, R-3).
#[derive(Clone, Copy)]
pub struct Checked {
    pub answer: FileAnswer,
    pub summary: Summary,
}

impl Told {
    // A number with no line, no place and no N: all are 0.
    pub fn plain(number: u8) -> Told
        ensures { result ≡ plain number }
    {
        Told {
            number,
            line: LineNumber(0),
            place: Place(0),
            config: ConfigNumber(0),
        }
    }
}

impl Whole {
    // The document's number. `Fault` and `Reason` have theirs, each of a table of its own; a trait over the three would be no plainer.
    pub fn number(self) -> u8
        ensures { result ≡ whole_number self }
    {
        self as u8
    }
}

// What is said of the whole file is no line's.
impl From<Whole> for Refusal {
    ghost from_gives = { λ w r. r ≡ refusal.Whole w };

    fn from(whole: Whole) -> Refusal {
        Refusal::Whole(whole)
    }
}

impl Refusal {
    // The document's number, with the line and the place in it where one is faulty.
    pub fn told(self) -> Told
        ensures { result ≡ refusal_told self }
    {
        match self {
            Refusal::Line(line, refusal) => Told {
                line,
                place: refusal.place,
                ..Told::plain(refusal.fault.number())
            },
            Refusal::Whole(fault) => Told::plain(fault.number()),
        }
    }
}

// The refusal's, and number 0 for an accepted file.
pub fn told_of(answer: FileAnswer) -> Told
    ensures { result ≡ answer_told answer }
{
    match answer {
        Ok(()) => Told::plain(0),
        Err(refusal) => refusal.told(),
    }
}

impl Checked {
    // What is told of its answer.
    pub fn told(self) -> Told
        ensures { result ≡ answer_told self.answer }
    {
        told_of(self.answer)
    }
}

impl Summary {
    // That of a refused file.
    #[tactic(auto, unfolding(crate::specs::Answers::no_summary))]
    pub fn none() -> Summary
        ensures { result ≡ no_summary }
    {
        Summary {
            kind: Kind::Legacy,
            identity: 0,
            lines: 0,
            configs: 0,
            line5: 0,
            ids: [ConfigId(0); 8],
            crcs: [0; 8],
        }
    }
}

// Whether a line is the burn.
#[tactic(auto, unfolding(crate::specs::Burn::is_burn))]
pub fn is_burn(l: Line) -> bool
    ensures { result ≡ is_burn l }
{
    l.command == Bus::ACT && l.bytes[0] == 8 && l.bytes[1] == 0
}
