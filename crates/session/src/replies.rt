// A reply: a verdict is looked at first, then the held state, then the reply by the request in hand.
ghost use Rattle.std.specs.Prelude.{◌≡◌};
ghost use Rattle.bus.specs.Bus.{write_of, word_bytes};
ghost use Rattle.session.specs.Moves.{over_of};
ghost use Rattle.session.specs.Private.Ready.{Ready};
ghost use Rattle.session.specs.Reply.{follow_of, replied_of, reply_of};

use crate::{Answer, Awaited, Handed, Session, Stage};
use bus::{Bus, Misreply, Request};
use guide::Verdict;

// The word of step 1 goes back to its register, lowest byte first, as words are read.
#[tactic(auto, unfolding(bus::specs::Bus::word_bytes))]
fn write_back(address: u8, word: u32) -> Request
    ensures { result ≡ write_of address 0xC5 (word_bytes word) }
{
    Bus::write(address, Bus::DATA, 4, word.to_le_bytes())
}

impl Session {
    // A reply in form, by the request that it answers. One match over all of them, in the order of the page, in which none can be left
    // out; a closure for each would say no less.
    #[tactic(auto, unfolding(crate::specs::Reply::follow_of))]
    fn follow(self, text: &[u8], awaited: Awaited, word: u32) -> Handed
        requires { Ready self }
        ensures { result ≡ follow_of text.now self awaited word }
    {
        let address = self.settings.address;
        match awaited {
            Awaited::CaptureAt => self.read(Awaited::CaptureRead),
            Awaited::CaptureRead => self.put(
                Awaited::CaptureWrite,
                write_back(address, guide::cleared(word)),
            ),
            Awaited::CaptureWrite => self.put(
                Awaited::CaptureApply,
                Bus::write(address, Bus::ACT, 2, [2, 0, 0, 0]),
            ),
            Awaited::CaptureApply => self.point(Awaited::CounterAt, Bus::COUNTER),
            Awaited::CounterAt => self.read(Awaited::CounterRead),
            Awaited::CounterRead => self.counter_done(word),
            Awaited::IdentityRead => self.identity_done(word),
            Awaited::FlagAt => self.read(Awaited::FlagRead),
            Awaited::FlagRead => self.flag_done(word),
            Awaited::RevisionRead => self.revision_done(text, word),
            Awaited::LineOut => self.line_done(text),
            Awaited::StatusAt => self.read(Awaited::StatusRead),
            Awaited::StatusRead => self.status_done(word),
            Awaited::BanksAt => self.read(Awaited::BanksRead),
            Awaited::BanksRead => self.banks_done(word),
            Awaited::Restore => self.point(Awaited::CrcAt, Bus::CRC),
            Awaited::CrcAt => self.read(Awaited::CrcRead),
            Awaited::CrcRead => self.crc_done(word),
        }
    }

    #[tactic(auto, unfolding(crate::specs::Reply::replied_of))]
    fn replied(self, text: &[u8], awaited: Awaited, form: Result<u32, Misreply>) -> Handed
        requires { Ready self }
        ensures { result ≡ replied_of text.now self awaited form }
    {
        match form {
            Ok(word) => self.follow(text, awaited, word),
            Err(misreply) => self.end(Verdict::Halted(misreply.into())),
        }
    }

    // After a verdict: the same verdict, the same state.
    #[tactic(auto, unfolding(crate::specs::Moves::over_of))]
    pub(crate) fn over(self, verdict: Verdict) -> Handed
        ensures { result ≡ over_of self verdict }
    {
        Handed {
            session: self,
            request: Bus::none(),
            answer: Answer::Over(verdict),
        }
    }

    // A state with a verdict is not examined; any other is, before the reply is looked at. The kind is any byte of a host's (`form_of`).
    #[tactic(auto, using(crate::proofs::Laws::ready, crate::proofs::Laws::when_ended))]
    pub fn reply(self, text: &[u8], kind: u8, bytes: &[u8]) -> Handed
        ensures { result ≡ reply_of text.now self kind bytes.now }
    {
        match self.stage {
            Stage::Ended(verdict) => self.over(verdict),
            Stage::Open(awaited) => {
                if self.sound() {
                    self.replied(text, awaited, self.hand.form(kind, bytes))
                } else {
                    self.bad()
                }
            }
        }
    }
}
