// What each reply leads to. Each step asks for `Ready`: a type that holds it would stand before every field of the session, and document
// 01's form is methods of the session.
ghost use Rattle.std.specs.Prelude.{◌≡◌, ◌<◌};
ghost use Rattle.session.specs.Private.Ready.{Ready};
ghost use Rattle.session.specs.Stages.{having_read, counter_done_of, identity_done_of, flag_done_of, revision_done_of, poll_again_of, status_done_of, restore_of, banks_done_of, crc_done_of};

use crate::{Awaited, Handed, Position, Session};
use bus::Bus;
use counts::{ConfigNumber, LineNumber};
use guide::{Polled, Reason, Target, Verdict, Words};

impl Session {
    // What step 2 reads is kept until the revision is read: 23 to 28 are tried only then. The three that follow keep a word each and ask
    // for the next: as one function they would be told which word, which address or code and which stage, and be no plainer.
    #[tactic(auto, unfolding(crate::specs::Stages::at_read))]
    fn having_read(self, read: Words) -> Session
        ensures { result ≡ having_read self read }
    {
        self.moved(Position {
            read,
            ..self.position
        })
    }

    // Kept for 23, 25, 27 and 28.
    #[tactic(auto, unfolding(crate::specs::Moves::with_position, crate::specs::Stages::counter_done_of, crate::specs::Stages::with_counter))]
    pub(crate) fn counter_done(self, word: u32) -> Handed
        requires { Ready self }
        ensures { result ≡ counter_done_of self word }
    {
        let read = Words {
            counter: word,
            ..self.position.read
        };
        self.having_read(read)
            .read_block(Awaited::IdentityRead, Bus::IDENTITY)
    }

    // Kept for 24.
    #[tactic(auto, unfolding(crate::specs::Moves::with_position, crate::specs::Stages::identity_done_of, crate::specs::Stages::with_identity))]
    pub(crate) fn identity_done(self, word: u32) -> Handed
        requires { Ready self }
        ensures { result ≡ identity_done_of self word }
    {
        let read = Words {
            identity: word,
            ..self.position.read
        };
        self.having_read(read).point(Awaited::FlagAt, Bus::FLAG)
    }

    // Kept for 25 and 27.
    #[tactic(auto, unfolding(crate::specs::Moves::with_position, crate::specs::Stages::flag_done_of, crate::specs::Stages::with_flag))]
    pub(crate) fn flag_done(self, word: u32) -> Handed
        requires { Ready self }
        ensures { result ≡ flag_done_of self word }
    {
        let read = Words {
            flag: word,
            ..self.position.read
        };
        self.having_read(read)
            .read_block(Awaited::RevisionRead, Bus::REVISION)
    }

    // The words that step 2 read, with the last of them.
    #[tactic(auto, unfolding(crate::specs::Stages::revision_done_of, crate::specs::Stages::fit_held, crate::specs::Stages::fit_done_of, crate::specs::Stages::with_revision))]
    pub(crate) fn revision_done(self, text: &[u8], word: u32) -> Handed
        requires { Ready self }
        ensures { result ≡ revision_done_of text.now self word }
    {
        let read = Words {
            revision: word,
            ..self.position.read
        };
        match Target::of(self.file).fit(self.settings.kept(), read) {
            Ok(()) => self.put_line(text, LineNumber::first_write()),
            Err(reason) => self.end(Verdict::Halted(reason)),
        }
    }

    // Bit 0 was clear: one poll more is used.
    #[tactic(auto, unfolding(crate::specs::Moves::with_position, crate::specs::Stages::poll_again_of, crate::specs::Stages::at_polls))]
    fn poll_again(self) -> Handed
        requires { Ready self }
        ensures { result ≡ poll_again_of self }
    {
        let polls = self.position.polls + 1;
        if polls < self.settings.limit {
            let position = Position {
                polls,
                ..self.position
            };
            self.moved(position).read(Awaited::StatusRead)
        } else {
            self.end(Verdict::Halted(Reason::Program))
        }
    }

    // Step 5 follows a status that passed.
    #[tactic(auto, unfolding(crate::specs::Stages::status_done_of, crate::specs::Stages::polled_done_of))]
    pub(crate) fn status_done(self, word: u32) -> Handed
        requires { Ready self }
        ensures { result ≡ status_done_of self word }
    {
        match Polled::of(word) {
            Polled::Busy => self.poll_again(),
            Polled::Passed => self.point(Awaited::BanksAt, Bus::BANKS),
            Polled::Failed => self.end(Verdict::Halted(Reason::Program)),
        }
    }

    // The identifier of this configuration goes out.
    #[tactic(auto, unfolding(crate::specs::Moves::with_position, crate::specs::Stages::restore_of, crate::specs::Stages::at_config, guide::specs::Guide::id_in))]
    fn restore(self, number: ConfigNumber) -> Handed
        requires { Ready self × (number.0 < 8) }
        ensures { result ≡ restore_of self number }
    {
        let position = Position {
            config: number,
            ..self.position
        };
        let id = self.file.ids[number.0 as usize];
        let settings = self.settings;
        self.moved(position).put(
            Awaited::Restore,
            Bus::write(settings.address, settings.restore, 1, [id.0, 0, 0, 0]),
        )
    }

    // Step 6 goes through the configurations from N = 0.
    #[tactic(auto, unfolding(crate::specs::Stages::banks_done_of))]
    pub(crate) fn banks_done(self, word: u32) -> Handed
        requires { Ready self }
        ensures { result ≡ banks_done_of self word }
    {
        if guide::banks_right(self.file.configs, word) {
            self.restore(ConfigNumber(0))
        } else {
            self.end(Verdict::Halted(Reason::Banks))
        }
    }

    // DONE when all N passed.
    #[tactic(auto, unfolding(crate::specs::Stages::crc_done_of, crate::specs::Stages::restore_next_of, guide::specs::Guide::crc_in))]
    pub(crate) fn crc_done(self, word: u32) -> Handed
        requires { Ready self }
        ensures { result ≡ crc_done_of self word }
    {
        let config = self.position.config;
        if word != self.file.crcs[config.0 as usize] {
            return self.end(Verdict::Mismatch(config));
        }
        let next = config.0 + 1;
        if next < self.file.configs {
            self.restore(ConfigNumber(next))
        } else {
            self.end(Verdict::Done)
        }
    }
}
