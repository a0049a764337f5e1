// Step 3: the write line that is due. It is read where the session holds its place, in the text that is lent anew at each call.
ghost use Rattle.std.specs.Prelude.{◌≡◌};
ghost use Rattle.line.specs.Reading.{IsBytes};
ghost use Rattle.session.specs.Private.Ready.{Ready};
ghost use Rattle.session.specs.Lines.{due_put_of, took_of, put_line_of, line_done_of};

use crate::{Awaited, Handed, Position, Session};
use bus::Bus;
use counts::LineNumber;
use line::Line;

impl Session {
    // The line goes out under its number, and the next stands at the place `next`.
    #[tactic(auto, using(guide::proofs::LentTable::request_right), unfolding(crate::specs::Moves::with_position, crate::specs::Lines::due_put_of, crate::specs::Lines::at_line, crate::specs::Moves::with_burned))]
    fn due_put(self, line: Line, next: usize, number: LineNumber, burned: bool) -> Handed
        requires { Ready self × IsBytes line }
        ensures { result ≡ due_put_of self line next number burned }
    {
        let position = Position {
            line: number,
            place: next,
            ..self.position
        };
        let request = guide::line_request(self.settings.address, pec::lent(), line);
        let moved = Session {
            burned,
            ..self.moved(position)
        };
        moved.put(Awaited::LineOut, request)
    }

    // Line n and no other is the burn. A burn mark that is set stays set.
    #[tactic(auto, unfolding(crate::specs::Lines::took_of))]
    fn took(self, line: Line, next: usize, number: LineNumber) -> Handed
        requires { Ready self × IsBytes line }
        ensures { result ≡ took_of self line next number }
    {
        let burns = summary::is_burn(line);
        if burns == (number.0 == self.file.lines) {
            self.due_put(line, next, number, burns || self.burned)
        } else {
            self.bad()
        }
    }

    // What stands at the held place goes out as this line, or the state is refused.
    #[tactic(auto, using(line::proofs::ReadBytes::took_bytes), unfolding(crate::specs::Lines::put_line_of, crate::specs::Lines::due_of))]
    pub(crate) fn put_line(self, text: &[u8], number: LineNumber) -> Handed
        requires { Ready self }
        ensures { result ≡ put_line_of text.now self number }
    {
        match line::next_at(text, self.position.place, number) {
            Ok(Some((line, next))) => self.took(line, next, number),
            _ => self.bad(),
        }
    }

    // Line n is the last; step 4 follows.
    #[tactic(auto, unfolding(crate::specs::Lines::line_done_of))]
    pub(crate) fn line_done(self, text: &[u8]) -> Handed
        requires { Ready self }
        ensures { result ≡ line_done_of text.now self }
    {
        let line = self.position.line.0;
        if line < self.file.lines {
            self.put_line(text, LineNumber(line + 1))
        } else {
            self.point(Awaited::StatusAt, Bus::STATUS)
        }
    }
}
