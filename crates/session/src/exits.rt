// What every call ends in: a request is put out, a verdict, or the refusal of the state.
ghost use Rattle.std.specs.Prelude.{◌≡◌, ◌<◌, ◌%◌, ◌/◌};
ghost use Rattle.guide.specs.Requests.{point_to, read_data, read_block};
ghost use Rattle.session.specs.Moves.{address_of, with_stage, with_position, put_of, end_of, bad_of};

use crate::{Answer, Awaited, Handed, Position, Session, Stage};
use bus::{Bus, Request};
use guide::Verdict;

impl Session {
    // The same session with this request in hand at this stage.
    #[tactic(auto, unfolding(crate::specs::Moves::with_stage))]
    fn at(self, stage: Stage, hand: Request) -> Session
        ensures { result ≡ with_stage self stage hand }
    {
        Session {
            stage,
            hand,
            ..self
        }
    }

    // The same session at this position.
    #[tactic(auto, unfolding(crate::specs::Moves::with_position))]
    pub(crate) fn moved(self, position: Position) -> Session
        ensures { result ≡ with_position self position }
    {
        Session { position, ..self }
    }

    // A request that is handed over is put out, and the reply is judged by it. What it requires is all of `Ready` that it needs: a session
    // that begins has no more.
    #[tactic(auto, unfolding(crate::specs::Moves::put_of, crate::specs::Moves::with_sent))]
    pub(crate) fn put(self, awaited: Awaited, request: Request) -> Handed
        requires { self.sent < 4294967295 }
        ensures { result ≡ put_of self awaited request }
    {
        Handed {
            session: Session {
                sent: self.sent + 1,
                ..self.at(Stage::Open(awaited), request)
            },
            request,
            answer: Answer::Next,
        }
    }

    // A register is pointed to before it is read.
    pub(crate) fn point(self, awaited: Awaited, register: u16) -> Handed
        requires { self.sent < 4294967295 }
        ensures { result ≡ put_of self awaited (point_to (address_of self) (register % 256) (register / 256)) }
    {
        self.put(awaited, guide::point(self.settings.address, register))
    }

    // The register that was pointed to is read.
    pub(crate) fn read(self, awaited: Awaited) -> Handed
        requires { self.sent < 4294967295 }
        ensures { result ≡ put_of self awaited (read_data (address_of self)) }
    {
        self.put(awaited, Bus::read(self.settings.address, Bus::DATA, 5))
    }

    // A block is read, which tells its own count.
    pub(crate) fn read_block(self, awaited: Awaited, command: u8) -> Handed
        requires { self.sent < 4294967295 }
        ensures { result ≡ put_of self awaited (read_block (address_of self) command) }
    {
        self.put(awaited, Bus::read(self.settings.address, command, 6))
    }

    // A verdict comes with a request of zeros.
    #[tactic(auto, unfolding(crate::specs::Moves::end_of))]
    pub(crate) fn end(self, verdict: Verdict) -> Handed
        ensures { result ≡ end_of self verdict }
    {
        Handed {
            session: self.at(Stage::Ended(verdict), self.hand),
            request: Bus::none(),
            answer: Answer::Over(verdict),
        }
    }

    // 15 leaves the state as given.
    #[tactic(auto, unfolding(crate::specs::Moves::bad_of))]
    pub(crate) fn bad(self) -> Handed
        ensures { result ≡ bad_of self }
    {
        Handed {
            session: self,
            request: Bus::none(),
            answer: Answer::BadState,
        }
    }
}
