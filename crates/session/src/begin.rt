// The beginning, with the summary that a check of the file gave (document 02, R-3).
ghost use Rattle.std.specs.Prelude.{◌≡◌, ◌<◌};
ghost use Rattle.session.specs.Begin.{new_position, fresh_of, first_of, start_of, refused_of, begin_with};

use crate::held::file_sound;
use crate::{Awaited, Handed, Position, Session, Settings, Stage};
use bus::Bus;
use counts::{ConfigNumber, LineNumber};
use guide::{Verdict, Words};
use summary::Summary;

impl Position {
    // With nothing read.
    #[tactic(auto, unfolding(crate::specs::Begin::new_position))]
    fn new(line: LineNumber, place: usize) -> Position
        ensures { result ≡ new_position line place }
    {
        Position {
            line,
            place,
            config: ConfigNumber(0),
            polls: 0,
            read: Words {
                counter: 0,
                identity: 0,
                flag: 0,
                revision: 0,
            },
        }
    }
}

impl Session {
    // With no request put out.
    #[tactic(auto, unfolding(crate::specs::Begin::fresh_of))]
    fn fresh(settings: Settings, file: Summary, stage: Stage, position: Position) -> Session
        ensures { result ≡ fresh_of settings file stage position }
    {
        Session {
            settings,
            file,
            stage,
            hand: Bus::none(),
            position,
            sent: 0,
            burned: false,
        }
    }

    #[tactic(auto, unfolding(crate::specs::Begin::first_of))]
    fn first_request(self) -> Handed
        requires { self.sent < 4294967295 }
        ensures { result ≡ first_of self }
    {
        if self.settings.wanted {
            self.point(Awaited::CaptureAt, Bus::CAPTURE)
        } else {
            self.point(Awaited::CounterAt, Bus::COUNTER)
        }
    }
}

impl Settings {
    // The first request, for a file that says this.
    #[tactic(auto, unfolding(crate::specs::Begin::fresh_of, crate::specs::Begin::start_of))]
    fn start(self, file: Summary) -> Handed
        ensures { result ≡ start_of self file }
    {
        let position = Position::new(LineNumber::first_write(), file.line5);
        Session::fresh(self, file, Stage::Open(Awaited::CaptureAt), position).first_request()
    }

    // An ended state, of which only the settings and the verdict say anything.
    #[tactic(auto, unfolding(crate::specs::Begin::refused_of))]
    pub(crate) fn refused(self, verdict: Verdict) -> Handed
        ensures { result ≡ refused_of self verdict }
    {
        let position = Position::new(LineNumber(0), 0);
        Session::fresh(self, Summary::none(), Stage::Ended(verdict), position).over(verdict)
    }

    // Settings come first: a bad setting with a bad summary is 14. Of a summary nothing but k, n and the identifiers under k is looked at.
    #[tactic(auto, unfolding(crate::specs::Begin::begin_with))]
    pub fn begin_with(self, file: Summary) -> Handed
        ensures { result ≡ begin_with self file }
    {
        if self.allowed() {
            if file_sound(file) {
                self.start(file)
            } else {
                self.refused(Verdict::State)
            }
        } else {
            self.refused(Verdict::Setting)
        }
    }
}
