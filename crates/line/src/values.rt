// The bytes that a line's pairs of digits give.
ghost use Rattle.std.specs.Prelude.{◌≡◌, length, get_or, ◌-◌, ◌/◌, ◌<◌};
ghost use Rattle.pec.specs.Lent.{run_with};
ghost use Rattle.line.specs.Digits.{digit_by, values_of};
ghost use Rattle.line.specs.Reading.{covered_of, data_of, last_of, line_of};

use crate::Line;
use crate::reader::Reader;

// What is left of the values without tag, length, address, command and CRC.
pub(crate) fn data_count(t: &[u8]) -> usize
    ensures { result ≡ length t.now / 2 - 5 }
{
    (t.len() / 2).saturating_sub(5)
}

impl Reader<'_> {
    // What a byte counts as.
    #[tactic(auto, unfolding(crate::specs::Digits::digit_by))]
    pub(crate) fn digit(self, b: u8) -> u8
        ensures { result ≡ digit_by self.entry.digits.now b }
    {
        self.digits[b as usize]
    }

    // The byte of the i-th pair of digits, and 0 past the last pair.
    #[tactic(auto, using(crate::proofs::LineParts::values_at_lem, crate::proofs::LineParts::values_past), unfolding(crate::specs::Digits::pair_val))]
    pub(crate) fn value_at(self, t: &[u8], i: usize) -> u8
        ensures { result ≡ get_or (values_of (digit_by self.entry.digits.now) t.now) i 0 }
    {
        if i < t.len() / 2 {
            let high = u16::from(self.digit(t[2 * i]));
            let low = u16::from(self.digit(t[2 * i + 1]));
            ((16 * high + low) % 256) as u8
        } else {
            0
        }
    }

    // The code of address, command and data. By a range: i is a pair of digits, and no slice holds the bytes that they spell.
    #[tactic(auto, using(crate::proofs::LineParts::values_length, crate::proofs::LineParts::code_on, crate::proofs::LineParts::code_end))]
    pub(crate) fn crc_of(self, t: &[u8]) -> u8
        ensures { result ≡ run_with self.entry.table.now 0 (covered_of (values_of (digit_by self.entry.digits.now) t.now)) }
    {
        let mut crc: u8 = 0;
        for i in 2..(t.len() / 2).saturating_sub(1) {
            crc = pec::step_with(self.table, crc, self.value_at(t, i));
        }
        crc
    }

    // Data stands between the command and the CRC.
    fn data_at(self, t: &[u8], i: usize) -> u8
        requires { i < 4 }
        ensures { result ≡ get_or (data_of (values_of (digit_by self.entry.digits.now) t.now)) i 0 }
    {
        if i + 5 < t.len() / 2 {
            self.value_at(t, 4 + i)
        } else {
            0
        }
    }

    // The line's own CRC.
    #[tactic(auto, using(crate::proofs::LineParts::values_length, crate::proofs::LineParts::values_past))]
    pub(crate) fn last_value(self, t: &[u8]) -> u8
        ensures { result ≡ last_of (values_of (digit_by self.entry.digits.now) t.now) }
    {
        match t.len() / 2 {
            0 => 0,
            m => self.value_at(t, m - 1),
        }
    }

    // What the rest of the house sees of a good line.
    #[tactic(auto, using(crate::proofs::LineParts::values_length), unfolding(crate::specs::Reading::line_of))]
    pub(crate) fn line_of(self, t: &[u8]) -> Line
        ensures { result ≡ line_of (values_of (digit_by self.entry.digits.now) t.now) }
    {
        Line {
            command: self.value_at(t, 3),
            count: data_count(t),
            bytes: [
                self.data_at(t, 0),
                self.data_at(t, 1),
                self.data_at(t, 2),
                self.data_at(t, 3),
            ],
            crc: self.last_value(t),
        }
    }
}
