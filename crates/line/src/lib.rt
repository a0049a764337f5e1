// One line of the text (document 01, "Lines of the file"): its digits, its values, and its reading, which is the good line or its
// refusal.
#![tactic(auto)]

mod digits_table;
mod places;
mod reader;
mod scan;
mod tests;
mod usual;
mod values;

ghost use Rattle.std.specs.Prelude.{◌≡◌};
ghost use Rattle.line.specs.Digits.{IsDigits};
ghost use Rattle.line.specs.Reading.{fault_number, next_line};
ghost use Rattle.line.specs.Lent.{lent_next};

use counts::{LineNumber, Place};
use digits_table::VALUES;
use reader::Reader;

// The address that every line of a file carries, whatever address its device has (document 02, R-2).
const ADDRESS: u8 = 0xC0;

// What a good line says: its command, how many data bytes it has, which may be 32, the first four of them (zeros where there are fewer),
// its CRC.
#[derive(Clone, Copy)]
pub struct Line {
    pub command: u8,
    pub count: usize,
    pub bytes: [u8; 4],
    pub crc: u8,
}

// Numbers 2 to 6 of document 01, "Numbers for a file".
#[derive(Clone, Copy)]
pub enum Fault {
    Char = 2,
    Pairs = 3,
    Length = 4,
    Crc = 5,
    Form = 6,
}

// A line's refusal: the first fault of 2 to 6, and the place in the line that it is about (request R-1). Handed on whole.
#[derive(Clone, Copy)]
pub struct LineRefusal {
    pub fault: Fault,
    pub place: Place,
}

// A line's reading: the good line, or its refusal.
pub type LineReading = Result<Line, LineRefusal>;

// Reading at a place: a good line with the place behind it, none where nothing is left, or a refusal.
pub type NextLine = Result<Option<(Line, usize)>, LineRefusal>;

impl Fault {
    // The document's number. `Whole` and `Reason` have theirs, each of a table of its own; a trait over the three would be no plainer.
    pub fn number(self) -> u8
        ensures { result ≡ fault_number self }
    {
        self as u8
    }
}

// The table of digits where it stands, lent for good: what every reading goes by.
#[tactic(auto, using(pec::proofs::Entries::follows, crate::proofs::LentIsRight::keeps), unfolding(crate::specs::Digits::digit_val))]
fn lent() -> &'static [u8; 256]
    ensures { IsDigits result.now }
{
    &VALUES
}

// A copy of it.
pub fn digits() -> [u8; 256]
    ensures { IsDigits result }
{
    *lent()
}

// The reading of the line that starts at a place, if one does.
#[tactic(auto, using(crate::proofs::LentIsRight::read_is))]
pub fn next_at(s: &[u8], at: usize, n: LineNumber) -> NextLine
    ensures { result ≡ next_line n at s.now }
{
    read_at(lent(), pec::lent(), s, at, n)
}

// The same by two tables that may hold anything.
pub fn read_at(
    digits: &[u8; 256],
    table: &[u8; 256],
    s: &[u8],
    at: usize,
    n: LineNumber,
) -> NextLine
    ensures { result ≡ lent_next digits.now table.now n at s.now }
{
    Reader { digits, table }.read_at(s, at, n)
}
