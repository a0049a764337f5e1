// The place in a line that a refusal is about, counted from 1 (request R-1).
ghost use Rattle.std.specs.Prelude.{◌≡◌, length, ◌-◌, ◌*◌, ◌/◌};
ghost use Rattle.line.specs.Digits.{digit_by, values_of};
ghost use Rattle.line.specs.Places.{fault_at, tag_of, command_ok, form_place, form_place_of};

use crate::reader::Reader;
use crate::{ADDRESS, Fault, LineRefusal};
use bus::Bus;
use counts::{LineNumber, Place};

pub(crate) fn fault_at(fault: Fault, place: usize) -> LineRefusal
    ensures { result ≡ fault_at fault place }
{
    LineRefusal {
        fault,
        place: Place(place),
    }
}

// The first of the last two digits, of a text of pairs.
pub(crate) fn last_pair(t: &[u8]) -> usize
    ensures { result ≡ 2 * (length t.now / 2) - 1 }
{
    (2 * (t.len() / 2)).saturating_sub(1)
}

// The tag of the table's rows for a line.
#[tactic(auto, unfolding(crate::specs::Places::tag_of))]
fn tag_of(n: u32) -> u8
    ensures { result ≡ tag_of n }
{
    if n <= 4 { 0x49 } else { 0x00 }
}

// The commands of its rows, with any count of data.
#[tactic(auto, unfolding(crate::specs::Places::command_ok))]
fn command_ok(n: u32, command: u8) -> bool
    ensures { result ≡ command_ok n command }
{
    match n {
        1 => command == Bus::IDENTITY,
        2 => command == Bus::REVISION,
        3 => command == Bus::NOTE_3,
        0 | 4 => command == Bus::NOTE_4,
        _ => matches!(command, Bus::POINT | Bus::ACT | Bus::DATA | Bus::SEQUENTIAL),
    }
}

// Of a line that breaks the table: tag before address before command before count of data. The bytes stay apart, as in `form_ok`.
#[tactic(auto, unfolding(crate::specs::Places::form_place))]
fn form_place(n: u32, tag: u8, address: u8, command: u8) -> usize
    ensures { result ≡ form_place n tag address command }
{
    if tag != tag_of(n) {
        1
    } else if address != ADDRESS {
        5
    } else if command_ok(n, command) {
        9
    } else {
        7
    }
}

impl Reader<'_> {
    // The same on a line's digits.
    #[tactic(auto, unfolding(crate::specs::Places::form_place_of))]
    pub(crate) fn form_place_of(self, t: &[u8], n: LineNumber) -> usize
        ensures { result ≡ form_place_of n (values_of (digit_by self.entry.digits.now) t.now) }
    {
        form_place(
            n.0,
            self.value_at(t, 0),
            self.value_at(t, 2),
            self.value_at(t, 3),
        )
    }
}
