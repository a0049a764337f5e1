// What goes out: the word of step 1, the pointing to a register, and the write lines of step 3, each for the address that it is given.
ghost use Rattle.std.specs.Prelude.{◌≡◌, ◌%◌, ◌/◌};
ghost use Rattle.guide.specs.Judged.{cleared};
ghost use Rattle.guide.specs.Requests.{point_to, line_request_with};

use bus::{Bus, Request};
use line::Line;

// Bit 5 of the first byte cleared, the others as read.
#[tactic(auto, unfolding(crate::specs::Judged::cleared))]
pub fn cleared(word: u32) -> u32
    ensures { result ≡ cleared word }
{
    word - word / 32 % 2 * 32
}

// The write that points to a register, low byte first, before it is read (C7 A2 00 points to 00A2).
pub fn point(address: u8, register: u16) -> Request
    ensures { result ≡ point_to address (register % 256) (register / 256) }
{
    let [low, high] = register.to_le_bytes();
    Bus::write(address, Bus::POINT, 2, [low, high, 0, 0])
}

// A write line for this address. Its PEC is worked out by a lent table; by the PEC's own and at C0 it is the line's last byte.
#[tactic(auto, using(crate::proofs::LentTable::four_bytes_of), unfolding(crate::specs::Requests::line_request_with, crate::specs::Requests::line_data))]
pub fn line_request(address: u8, table: &[u8; 256], line: Line) -> Request
    ensures { result ≡ line_request_with address table.now line }
{
    Bus::write_with(address, table, line.command, line.count, line.bytes)
}
