// Text made into a lent buffer: bytes, capital hex digits, decimals. Each function puts its text at a place of the buffer and answers
// the place behind it; where the text does not fit, it leaves the buffer as it was and answers the place that it was given.
#![tactic(auto)]

mod pieces;

ghost use Rattle.std.specs.Prelude.{◌≡◌, ◌+◌, ◌≤◌, ◌<◌, ◌==◌, leb, not, length, position};
ghost use Rattle.text.specs.Text.{glyph, digits, hex, decimal, Puts};

// A lent buffer with the place where its text goes on, so that what makes a line reads as the list of its pieces.
#[derive(Drop)]
pub struct Page<'a> {
    pub room: &'a mut [u8],
    pub at: usize,
}

#[tactic(auto, unfolding(crate::specs::Text::glyph))]
fn digit_glyph(d: u64) -> u8
    requires { d < 16 }
    ensures { result ≡ glyph d }
{
    if d < 10 {
        b'0' + d as u8
    } else {
        b'A' - 10 + d as u8
    }
}

// Fills the slice with the last digits of n, the highest first. By index: of a slice behind `iter_mut().rev()` nothing is known.
#[tactic(auto, using(crate::proofs::Laws::digits_turn), unfolding(crate::specs::Text::digits))]
fn spell(out: &mut [u8], base: u64, n: u64)
    requires { (2 ≤ base) × (base ≤ 16) }
    ensures { out.new ≡ digits base (length out.old) n }
{
    let mut rest = n;
    for i in (0..out.len()).rev() {
        out[i] = digit_glyph(rest % base);
        rest /= base;
    }
}

// Whether there is room for so many bytes from a place on.
fn has_room(out: &[u8], at: usize, count: usize) -> bool
    ensures { result ≡ leb (at + count) (length out.now) }
{
    at <= out.len() && count <= out.len() - at
}

// The bytes as they stand. The buffer and the place stand apart here, as they are promised (`Puts`); `Page` puts them together.
pub fn put_bytes(out: &mut [u8], at: usize, bytes: &[u8]) -> usize
    ensures { Puts out.old at bytes.now out.new result }
{
    if has_room(out, at, bytes.len()) {
        let next = at + bytes.len();
        out[at..next].copy_from_slice(bytes);
        next
    } else {
        at
    }
}

// So many hex digits, the last that the number has.
pub fn put_hex<const WIDTH: usize>(out: &mut [u8], at: usize, n: u32) -> usize
    ensures { Puts out.old at (hex WIDTH n) out.new result }
{
    if has_room(out, at, WIDTH) {
        let next = at + WIDTH;
        spell(&mut out[at..next], 16, n as u64);
        next
    } else {
        at
    }
}

// Where the first digit stands that is no zero.
fn first_digit(spelled: &[u8]) -> Option<usize>
    ensures { result ≡ position (λ d. not (d == 48)) spelled.now }
{
    spelled.iter().position(|d| *d != b'0')
}

// A decimal without leading zeros.
#[tactic(auto, using(crate::proofs::Laws::decimal_found))]
pub fn put_decimal(out: &mut [u8], at: usize, n: u64) -> usize
    ensures { Puts out.old at (decimal n) out.new result }
{
    let mut spelled = [0u8; 20];
    spell(&mut spelled, 10, n);
    let start = first_digit(&spelled).unwrap_or(19);
    put_bytes(out, at, &spelled[start..])
}
