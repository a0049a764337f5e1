// What the programs read: the bytes of a stream into a lent buffer.
#![tactic(auto)]

ghost use Rattle.std.specs.Prelude.{◌≤◌, length, take};
ghost use Rattle.std.specs.Io.KnownBytes.{Consumes};

use std::io::Read;

// Reads until the buffer is full, the stream ends or a read fails, and answers how many bytes now stand at the buffer's start. Where it
// is known which bytes the stream gives, these are the first of them, and the others are left to it.
pub fn fill<R: Read>(from: &mut R, space: &mut [u8]) -> usize
    ensures within { result ≤ length space.new }
    ensures bytes { Consumes (R.remaining from.old) (R.remaining from.new) (take result space.new) }
{
    let mut done: usize = 0;
    // Counted by hand: where the next read begins is what the last one gave, which no iterator over the buffer knows.
    while done < space.len() {
        match from.read(&mut space[done..]) {
            Ok(0) => break,
            Ok(n) => done += n,
            Err(_) => break,
        }
    }
    done
}
