// A write line in its usual form, 14 or 18 digits and the line's end behind them, is taken by the places of its digits, so that each
// is looked up once. Anything else is left to the search for the end of the digits, which also finds the fault.
ghost use Rattle.std.specs.Prelude.{◌≡◌, length, ◌+◌, ◌<◌, ◌≤◌, ◌⊎◌, IfSome, Some, Ok};
ghost use Rattle.line.specs.Digits.{digit_by, all_digits, values_of};
ghost use Rattle.line.specs.Lent.{read_by, lent_next};
ghost use Rattle.line.specs.Private.Quick.{headed, ends_run};

use crate::reader::Reader;
use crate::scan::end_at;
use crate::tests::body_ok;
use crate::{ADDRESS, Line};
use counts::LineNumber;

impl Reader<'_> {
    // By a `for` that ends early: with `all` the proof did not close.
    #[tactic(auto, using(crate::proofs::LineParts::digits_on, crate::proofs::LineParts::digits_stop, crate::proofs::LineParts::digits_past))]
    fn all_digits(self, t: &[u8]) -> bool
        ensures { result ≡ all_digits (digit_by self.entry.digits.now) t.now }
    {
        for b in t {
            if self.digit(*b) > 15 {
                return false;
            }
        }
        true
    }

    // What follows the digits from a place to e, where they are digits and the run of them ends there.
    #[tactic(auto, unfolding(crate::specs::Private::Quick::ends_run))]
    fn ends_run(self, s: &[u8], at: usize, e: usize) -> Option<usize>
        requires { (at ≤ e) × (e < length s.now) }
        ensures { result ≡ ends_run (digit_by self.entry.digits.now) at e s.now }
    {
        if self.all_digits(&s[at..e]) && self.digit(s[e]) > 15 {
            end_at(s, e)
        } else {
            None
        }
    }

    // Tag, length and address of a write line.
    #[tactic(auto, unfolding(crate::specs::Private::Quick::headed))]
    fn headed(self, t: &[u8], size: u8) -> bool
        ensures { result ≡ headed (values_of (digit_by self.entry.digits.now) t.now) size }
    {
        self.value_at(t, 0) == 0 && self.value_at(t, 1) == size && self.value_at(t, 2) == ADDRESS
    }

    // The line of a text of so many digits, 14 or 18, if it is a write line: of two data bytes or of four.
    #[tactic(auto, using(crate::proofs::Taking::line_taken))]
    fn line_in<const DIGITS: usize>(self, t: &[u8], n: LineNumber) -> Option<Line>
        requires digits { (DIGITS ≡ 14) ⊎ (DIGITS ≡ 18) }
        requires text { length t.now ≡ DIGITS }
        requires write { 4 < n.0 }
        ensures { IfSome result (λ l. read_by self.entry.digits.now self.entry.table.now n t.now ≡ Ok l) }
    {
        let line = self.line_of(t);
        let head = pec::run_with(self.table, 0, &[ADDRESS, line.command]);
        let code = pec::run_with(self.table, head, &line.bytes[..DIGITS / 2 - 5]);
        if self.headed(t, (DIGITS / 2 - 2) as u8)
            && body_ok(line.command, DIGITS / 2 - 5)
            && line.crc == code
        {
            Some(line)
        } else {
            None
        }
    }

    // A line of so many digits, with the place behind it.
    fn usual_of<const DIGITS: usize>(
        self,
        s: &[u8],
        at: usize,
        n: LineNumber,
    ) -> Option<(Line, usize)>
        requires digits { (DIGITS ≡ 14) ⊎ (DIGITS ≡ 18) }
        requires room { at + DIGITS < length s.now }
        requires write { 4 < n.0 }
        ensures { IfSome result (λ taken. lent_next self.entry.digits.now self.entry.table.now n at s.now ≡ Ok (Some taken)) }
    {
        let end = at + DIGITS;
        let next = self.ends_run(s, at, end)?;
        let line = self.line_in::<DIGITS>(&s[at..end], n)?;
        Some((line, next))
    }

    // The write line at a place. The low digit of its length says which of the two to try.
    pub(crate) fn usual_at(self, s: &[u8], at: usize, n: LineNumber) -> Option<(Line, usize)>
        requires { at < length s.now }
        ensures { IfSome result (λ taken. lent_next self.entry.digits.now self.entry.table.now n at s.now ≡ Ok (Some taken)) }
    {
        if s.len() - at < 19 || n.0 <= 4 {
            None
        } else if s[at + 3] == b'5' {
            self.usual_of::<14>(s, at, n)
        } else {
            self.usual_of::<18>(s, at, n)
        }
    }
}
