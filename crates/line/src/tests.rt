// The tests of a line: PAIRS, LENGTH, CRC and FORM.
ghost use Rattle.std.specs.Prelude.{◌≡◌};
ghost use Rattle.pec.specs.Lent.{run_with};
ghost use Rattle.line.specs.Digits.{digit_by, values_of};
ghost use Rattle.line.specs.Reading.{bad_pairs, some_to32, head_ok, body_ok, form_ok, length_right, crc_right, form_right};

use crate::ADDRESS;
use crate::reader::Reader;
use crate::values::data_count;
use bus::Bus;
use counts::LineNumber;

// PAIRS: odd digits, or under 10, or over 74.
#[tactic(auto, unfolding(crate::specs::Reading::bad_pairs))]
pub(crate) fn bad_pairs(d: usize) -> bool
    ensures { result ≡ bad_pairs d }
{
    d % 2 != 0 || d < 10 || 74 < d
}

// The counts of lines 3 and 4, whose data is not interpreted.
#[tactic(auto, unfolding(crate::specs::Reading::some_to32))]
fn some_to_32(count: usize) -> bool
    ensures { result ≡ some_to32 count }
{
    0 < count && count <= 32
}

// The table's rows for lines 1 to 4.
#[tactic(auto, unfolding(crate::specs::Reading::head_ok))]
fn head_ok(n: u32, command: u8, count: usize) -> bool
    ensures { result ≡ head_ok n command count }
{
    match n {
        1 => command == Bus::IDENTITY && count == 4,
        2 => command == Bus::REVISION && count == 4,
        3 => command == Bus::NOTE_3 && some_to_32(count),
        _ => command == Bus::NOTE_4 && some_to_32(count),
    }
}

// Its rows for lines 5 on.
#[tactic(auto, unfolding(crate::specs::Reading::body_ok))]
pub(crate) fn body_ok(command: u8, count: usize) -> bool
    ensures { result ≡ body_ok command count }
{
    match command {
        Bus::POINT | Bus::ACT => count == 2,
        Bus::DATA | Bus::SEQUENTIAL => count == 4,
        _ => false,
    }
}

// FORM: tag and address, and then the row by the line's number. The bytes stay apart, as in the page's table and in the definition.
#[tactic(auto, unfolding(crate::specs::Reading::form_ok))]
fn form_ok(n: u32, tag: u8, address: u8, command: u8, count: usize) -> bool
    ensures { result ≡ form_ok n tag address command count }
{
    address == ADDRESS
        && if n <= 4 {
            tag == 0x49 && head_ok(n, command, count)
        } else {
            tag == 0 && body_ok(command, count)
        }
}

impl Reader<'_> {
    // Length counts what follows it; tag and length come before.
    #[tactic(auto, using(crate::proofs::LineParts::values_length), unfolding(crate::specs::Reading::length_right))]
    pub(crate) fn length_right(self, t: &[u8]) -> bool
        ensures { result ≡ length_right (values_of (digit_by self.entry.digits.now) t.now) }
    {
        self.value_at(t, 1) as usize + 2 == t.len() / 2
    }

    // The last byte is held to the code of address, command and data.
    #[tactic(auto, unfolding(crate::specs::Reading::crc_right))]
    pub(crate) fn crc_right(self, t: &[u8]) -> bool
        ensures { result ≡ crc_right (run_with self.entry.table.now 0) (values_of (digit_by self.entry.digits.now) t.now) }
    {
        self.last_value(t) == self.crc_of(t)
    }

    // The same as `form_ok`, on a line's digits.
    #[tactic(auto, using(crate::proofs::LineParts::values_length), unfolding(crate::specs::Reading::form_right))]
    pub(crate) fn form_right(self, t: &[u8], n: LineNumber) -> bool
        ensures { result ≡ form_right n (values_of (digit_by self.entry.digits.now) t.now) }
    {
        form_ok(
            n.0,
            self.value_at(t, 0),
            self.value_at(t, 2),
            self.value_at(t, 3),
            data_count(t),
        )
    }
}
