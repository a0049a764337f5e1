// A text cut into lines (document 01, "Lines of the file"): where the line starts that comes behind some lines.
#![tactic(auto)]

mod blocks;

ghost use Rattle.std.specs.Prelude.{◌≡◌, ◌==◌, drop, position, ◌+◌};
ghost use Rattle.cuts.specs.Lines.{line_skip, place_of};

use blocks::skip_blocks;

fn first_lf(s: &[u8]) -> Option<usize>
    ensures { result ≡ position (λ b. b == 10) s.now }
{
    s.iter().position(|b| *b == b'\n')
}

// The first line's bytes with its LF, or all where it has none.
#[tactic(auto, using(crate::proofs::FirstLine::skip_found, crate::proofs::FirstLine::skip_none))]
fn line_bytes(s: &[u8]) -> usize
    ensures { result ≡ line_skip s.now }
{
    match first_lf(s) {
        Some(lf) => lf + 1,
        None => s.len(),
    }
}

// Line by line.
#[tactic(auto, using(crate::proofs::FirstLine::places))]
fn skip_lines(s: &[u8], lines: usize) -> usize
    ensures { result ≡ place_of lines s.now }
{
    let mut next = 0;
    for _ in 0..lines {
        next += line_bytes(&s[next..]);
    }
    next
}

#[tactic(auto, using(crate::proofs::FirstLine::places))]
fn place(s: &[u8], lines: usize) -> usize
    ensures { result ≡ place_of lines s.now }
{
    let (past, left) = skip_blocks(s, lines);
    past + skip_lines(&s[past..], left)
}

// Where the line starts that comes behind some lines from a place on.
#[tactic(auto, using(crate::proofs::FirstLine::places))]
pub fn skip(s: &[u8], at: usize, lines: usize) -> usize
    ensures { result ≡ at + place_of lines (drop at s.now) }
{
    match s.get(at..) {
        Some(rest) => at + place(rest, lines),
        None => at,
    }
}
