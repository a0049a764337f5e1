// A turn over the replies of an input.
ghost use Rattle.std.specs.Prelude.{◌-◌, length};
ghost use Rattle.std.specs.Iterator.{at_most};

use crate::{CutShort, Replies, reply_at};

impl<'a> Iterator for Replies<'a> {
    ghost use Rattle.tape.specs.Turns.{GivesReply};

    // A reply's kind and its bytes. Nothing comes behind a part of one.
    type Item = Result<(u8, &'a [u8]), CutShort>;

    ghost next_gives = { GivesReply };

    ghost remaining = { λ s. at_most (length s.input.now - s.at) };

    #[tactic(auto, using(crate::proofs::Whole::found_within, crate::proofs::Whole::part_inside))]
    fn next(&mut self) -> Option<Result<(u8, &'a [u8]), CutShort>> {
        match reply_at(self.input, self.at) {
            Ok(None) => None,
            Ok(Some(reply)) => {
                self.at = reply.end;
                Some(Ok((reply.kind, &self.input[reply.start..reply.end])))
            }
            Err(part) => {
                self.at = self.input.len();
                Some(Err(part))
            }
        }
    }
}
