// Lines are skipped a block of bytes at a time, as long as fewer lines end in the block than are left to skip.
ghost use Rattle.std.specs.Prelude.{◌≡◌, ◌==◌, length, drop, count_by, ◌+◌, ◌≤◌};
ghost use Rattle.cuts.specs.Lines.{place_of};

const BLOCK: usize = 128;

// How many lines end in a block. The count is a byte, so that sixteen bytes are counted at once.
fn ends_in(block: &[u8]) -> u8
    requires { length block.now ≤ 128 }
    ensures { result ≡ count_by (λ b. b == 10) block.now }
{
    let mut count = 0;
    for byte in block {
        count += u8::from(*byte == b'\n');
    }
    count
}

// Past the blocks: where the rest begins, and how many lines are left to skip there.
pub(crate) fn skip_blocks(s: &[u8], lines: usize) -> (usize, usize)
    ensures is { place_of lines s.now ≡ result.0 + place_of result.1 (drop result.0 s.now) }
    ensures within { result.0 ≤ length s.now }
{
    let mut past = 0;
    let mut left = lines;
    for block in s.chunks_exact(BLOCK) {
        let ends = ends_in(block) as usize;
        if left <= ends {
            break;
        }
        left -= ends;
        past += BLOCK;
    }
    (past, left)
}
