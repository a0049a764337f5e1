// A line's reading by two lent tables, whatever they hold. The place stays beside the text: what is handed on is the place of the next
// line in the whole text, which a session keeps (`Position.place`).
ghost use Rattle.std.specs.Prelude.{◌≡◌, length, ◌<◌};
ghost use Rattle.pec.specs.Lent.{run_with};
ghost use Rattle.line.specs.Digits.{digit_by, values_of};
ghost use Rattle.line.specs.Reading.{read_values, read_digits, next_by};
ghost use Rattle.line.specs.Lent.{lent_next};

use crate::places::{fault_at, last_pair};
use crate::scan::end_at;
use crate::tests::bad_pairs;
use crate::{Fault, LineReading, NextLine};
use counts::LineNumber;

#[derive(Clone, Copy)]
pub(crate) struct Reader<'a> {
    pub digits: &'a [u8; 256],
    pub table: &'a [u8; 256],
}

#[tactic(auto, unfolding(crate::specs::Reading::next_by))]
fn next_by(reading: LineReading, next: usize) -> NextLine
    ensures { result ≡ next_by reading next }
{
    Ok(Some((reading?, next)))
}

impl Reader<'_> {
    // The last three tests of a line, on its values.
    #[tactic(auto, using(crate::proofs::LineParts::values_length), unfolding(crate::specs::Reading::read_values))]
    fn read_values(self, t: &[u8], n: LineNumber) -> LineReading
        ensures { result ≡ read_values (run_with self.entry.table.now 0) n (values_of (digit_by self.entry.digits.now) t.now) }
    {
        if !self.length_right(t) {
            return Err(fault_at(Fault::Length, 3));
        }
        if !self.crc_right(t) {
            return Err(fault_at(Fault::Crc, last_pair(t)));
        }
        if !self.form_right(t, n) {
            return Err(fault_at(Fault::Form, self.form_place_of(t, n)));
        }
        Ok(self.line_of(t))
    }

    // The last four, on a text of digits.
    #[tactic(auto, unfolding(crate::specs::Reading::read_digits))]
    fn read_digits(self, t: &[u8], n: LineNumber) -> LineReading
        ensures { result ≡ read_digits (digit_by self.entry.digits.now) (run_with self.entry.table.now 0) n t.now }
    {
        if bad_pairs(t.len()) {
            return Err(fault_at(Fault::Pairs, t.len() + 1));
        }
        self.read_values(t, n)
    }

    // The reading by a search for the end of the digits.
    fn searched(self, s: &[u8], at: usize, n: LineNumber) -> NextLine
        requires { at < length s.now }
        ensures { result ≡ lent_next self.entry.digits.now self.entry.table.now n at s.now }
    {
        let end = at + self.run_of(&s[at..]);
        match end_at(s, end) {
            None => Err(fault_at(Fault::Char, end - at + 1)),
            Some(next) => next_by(self.read_digits(&s[at..end], n), next),
        }
    }

    // The reading of the line that starts at a place, if one does.
    #[tactic(auto, using(crate::proofs::LentIsRight::lent_past))]
    pub(crate) fn read_at(self, s: &[u8], at: usize, n: LineNumber) -> NextLine
        ensures { result ≡ lent_next self.entry.digits.now self.entry.table.now n at s.now }
    {
        if s.len() <= at {
            return Ok(None);
        }
        match self.usual_at(s, at, n) {
            None => self.searched(s, at, n),
            taken => Ok(taken),
        }
    }
}
