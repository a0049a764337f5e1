// Document 01, "15 STATE", which a dry run never meets, since it keeps a host's rules: for each reason a state in which one thing is
// spoiled, or a text that is not the session's own, and what `reply` hands back. Beside them stands what is not 15. The file on
// standard input is accepted, of production, with k = 2 and so n = 738; its line 1 has the identity of the page's examples.
// Each reason spoils another field, so they stand line by line: a list of closures would be no plainer.
use crate::said::say_handed;
use crate::summaries;
use bus::Bus;
use counts::ConfigId;
use session::{Handed, Session, Settings};

// The device's addresses, to write and to read by.
const DEVICE: u8 = 0xC0;

const DEVICE_READ: u8 = 0xC1;

// What is told of a session: where its lines are printed, how it began, and the file that it began with.
#[derive(Drop)]
struct Station<'a, R: Print> {
    rt: &'a R,
    begun: Session,
    file: &'a [u8],
}

// A text that has this line at the held place. Nothing else of it is looked at.
fn with_line(s: Session, line: &[u8]) -> [u8; 128] {
    let mut text = [0u8; 128];
    text::put_bytes(&mut text, s.position.place, line);
    text
}

impl<R: Print> Station<'_, R> {
    fn say(&self, words: &str, handed: Handed) {
        say_handed(self.rt, words, handed);
    }

    // Of a write: done, with no bytes, while this text is lent.
    fn acknowledge_with(&self, words: &str, s: Session, text: &[u8]) {
        self.say(words, s.reply(text, 1, b""));
    }

    // The same while the file is lent.
    fn acknowledge(&self, words: &str, s: Session) {
        self.acknowledge_with(words, s, self.file);
    }

    // No polls used are under a limit of 0, so that two reasons hold there.
    fn held_settings(&self) {
        let mut s = self.begun;
        s.settings.limit = 0;
        self.acknowledge("poll limit 0", s);
        s.settings.limit = 10000;
        self.acknowledge("poll limit 10000", s);
        s.settings.limit = 10001;
        self.acknowledge("poll limit 10001", s);
        s = self.begun;
        s.settings.restore = Bus::ACT;
        self.acknowledge("RESTORE_CFG E7", s);
        s = self.begun;
        s.settings.rule = 0;
        self.acknowledge("rule 0", s);
        s.settings.rule = 2;
        self.acknowledge("rule 2", s);
        s.settings.rule = 3;
        self.acknowledge("rule 3", s);
    }

    // Even, 10 to EE hex. The next request goes to the address that is held.
    fn held_address(&self) {
        let mut s = self.begun;
        s.settings.address = 0x0E;
        self.acknowledge("address 0E", s);
        s.settings.address = 0x10;
        self.acknowledge("address 10", s);
        s.settings.address = 0xC1;
        self.acknowledge("address C1", s);
        s.settings.address = 0xEE;
        self.acknowledge("address EE", s);
        s.settings.address = 0xF0;
        self.acknowledge("address F0", s);
    }

    // With k = 0 and 9 stands the n that is right for it. No configuration in hand is under k = 0, so that two reasons hold there too.
    fn held_file(&self) {
        let mut s = self.begun;
        s.file.configs = 0;
        s.file.lines = 12;
        self.acknowledge("k = 0, n = 12", s);
        s.file.configs = 9;
        s.file.lines = 3279;
        self.acknowledge("k = 9, n = 3279", s);
        s.file.configs = 2;
        s.file.lines = 739;
        self.acknowledge("k = 2, n = 739", s);
        s.file.lines = 686;
        self.acknowledge("k = 2, n = 686, as of a legacy file", s);
    }

    fn held_position(&self) {
        let mut s = self.begun;
        s.position.line.0 = 4;
        self.acknowledge("line in hand 4", s);
        s.position.line.0 = 738;
        self.acknowledge("line in hand 738, which is n", s);
        s.position.line.0 = 739;
        self.acknowledge("line in hand 739", s);
        s = self.begun;
        s.position.config.0 = 1;
        self.acknowledge("configuration in hand 1", s);
        s.position.config.0 = 2;
        self.acknowledge("configuration in hand 2, which is k", s);
        s = self.begun;
        s.position.polls = 9;
        self.acknowledge("polls used 9", s);
        s.position.polls = 10;
        self.acknowledge("polls used 10, which is the limit", s);
    }

    fn held_identifier(&self) {
        let high = ConfigId(16);
        let mut summary = self.begun.file;
        summary.ids[1] = high;
        let mut s = self.begun;
        s.file = summary;
        self.acknowledge("identifier 16 at N = 1", s);
        summary = self.begun.file;
        summary.ids[2] = high;
        s.file = summary;
        self.acknowledge("identifier 16 at N = 2, which is not under k", s);
    }

    // The bound is 738 + 10 + 3 x 2 + 9.
    fn held_count(&self) {
        let mut s = self.begun;
        s.sent = 763;
        self.acknowledge("count 763, which is the bound", s);
        s.sent = 764;
        self.acknowledge("count 764", s);
    }

    // No reason of the page's.
    fn held_other(&self) {
        let mut s = self.begun;
        s.position.place = 65537;
        self.acknowledge("a place past the end, and no line due", s);
        s = self.begun;
        s.burned = true;
        self.acknowledge("a burn mark, and no burn put out", s);
    }

    // The state is looked at before the reply.
    fn state_first(&self) {
        let mut s = self.begun;
        s.position.polls = 10;
        self.say(
            "polls used 10, and not acknowledged",
            s.reply(self.file, 0, b""),
        );
    }

    // After a verdict no state is looked at.
    fn ended(&self) {
        let over = self.begun.reply(self.file, 0, b"");
        self.say("not acknowledged", over);
        let mut s = over.session;
        self.acknowledge("after this verdict, acknowledged", s);
        s.settings.limit = 0;
        self.acknowledge("after this verdict, poll limit 0", s);
    }

    fn refused(&self, settings: Settings) {
        let over = settings.begin(b"\n");
        self.say("begun with one empty line", over);
        self.acknowledge("after this verdict, acknowledged", over.session);
    }

    // Step 2 up to the read of the revision, of a new device that fits the file.
    fn revision_awaited(&self) -> Session {
        let flag = pec::of(&[DEVICE, Bus::DATA, DEVICE_READ, 0, 0, 0, 0]);
        let mut handed = self.begun.reply(self.file, 1, b"");
        let mut s = handed.session;
        handed = s.reply(self.file, 1, &[0x1C, 0, 0, 0, 0x6A]);
        s = handed.session;
        handed = s.reply(self.file, 1, &[4, 0, 0x81, 0xD2, 0x49, 0x3C]);
        s = handed.session;
        handed = s.reply(self.file, 1, b"");
        s = handed.session;
        handed = s.reply(self.file, 1, &[0, 0, 0, 0, flag]);
        handed.session
    }

    // The reply to the read of the revision, whose high byte is given.
    fn tell_revision(&self, words: &str, s: Session, text: &[u8], high: u8) -> Session {
        let last = pec::of(&[DEVICE, Bus::REVISION, DEVICE_READ, 4, 0, 0, 0, high]);
        let handed = s.reply(text, 1, &[4, 0, 0, 0, high, last]);
        self.say(words, handed);
        handed.session
    }

    // The same reply, with a text that has this line where line 5 is due.
    fn tell_with(&self, words: &str, s: Session, line: &[u8]) -> Session {
        let text = with_line(s, line);
        self.tell_revision(words, s, &text, 6)
    }

    // 15 leaves the state as given.
    fn unfit_texts(&self, awaited: Session) -> Session {
        let mut s = self.tell_revision("line 5 due, an empty text", awaited, b"", 6);
        s = self.tell_with("line 5 due, a wrong CRC there", s, b"0005C0C77E0044\n");
        self.tell_with("line 5 due, the burn there", s, b"0005C0E70800DA\n")
    }

    fn place_at_end(&self, awaited: Session) {
        let mut s = awaited;
        let file = self.file;
        s.position.place = file.len();
        self.tell_revision("line 5 due, the place at the end", s, self.file, 6);
        s.position.place = 65537;
        self.tell_revision("line 5 due, the place past the end", s, self.file, 6);
    }

    // A verdict comes before what is due.
    fn verdict_first(&self, awaited: Session) {
        self.say(
            "line 5 due, an empty text, and not acknowledged",
            awaited.reply(b"", 0, b""),
        );
        self.tell_revision(
            "line 5 due, an empty text, and revision 05",
            awaited,
            b"",
            5,
        );
    }

    // The page asks for no more than a line in form: another file's goes out.
    fn fit_texts(&self, awaited: Session) -> Session {
        self.tell_with(
            "line 5 due, another write line there",
            awaited,
            b"0005C0C77E0045\n",
        );
        self.tell_revision("line 5 due, the right text", awaited, self.file, 6)
    }

    // Line n and no other is the burn.
    fn line_n_due(&self, out: Session) {
        let mut s = out;
        s.position.line.0 = 737;
        let other = with_line(s, b"0005C0C77E0045\n");
        let burn = with_line(s, b"0005C0E70800DA\n");
        self.acknowledge_with("line 738 due, another write line there", s, &other);
        self.acknowledge_with("line 738 due, the burn there", s, &burn);
        self.line_n_elsewhere(s, &burn);
    }

    // The burn goes out with the address in use and its own PEC, and the file's line still says C0.
    fn line_n_elsewhere(&self, due: Session, burn: &[u8]) {
        let mut s = due;
        s.settings.address = 0x12;
        let moved = with_line(s, b"000512E708003B\n");
        self.acknowledge_with("address 12, line 738 due, the burn there", s, burn);
        self.acknowledge_with(
            "address 12, line 738 due, a burn that says 12 there",
            s,
            &moved,
        );
    }

    fn before_reply(&self) {
        self.acknowledge("acknowledged", self.begun);
        self.held_settings();
        self.held_address();
        self.held_file();
        self.held_position();
        self.held_identifier();
        self.held_count();
        self.held_other();
        self.state_first();
        self.ended();
    }

    fn line_due(&self) {
        let awaited = self.revision_awaited();
        let same = self.unfit_texts(awaited);
        self.place_at_end(same);
        self.verdict_first(same);
        self.line_n_due(self.fit_texts(same));
    }
}

pub(crate) fn run(rt: &(impl Input + Print)) {
    // One byte more than a file may have, so that a longer one is seen to be longer.
    let mut space = [0u8; 65537];
    let n = streams::fill(&mut rt.reader(), &mut space);
    let file = &space[..n];
    let settings = Settings {
        wanted: false,
        limit: 10,
        restore: 0xF2,
        rule: 1,
        address: DEVICE,
    };
    let handed = settings.begin(file);
    let begun = handed.session;
    let station = Station { rt, begun, file };
    station.say("begun", handed);
    station.before_reply();
    station.refused(settings);
    station.line_due();
    summaries::run(rt, settings, begun.file, file);
}
