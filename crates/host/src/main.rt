// A host's morning and its loop at the socket, against a simulated regulator, for the file on standard input: one run that ends well, two
// that do not, two that the house rule decides, two that the address decides, four boards on the one check, and one that is lent another
// text.
#![tactic(auto)]

mod device;

use session::{Answer, Session, Settings};
use summary::{Summary, Told};

// A simulated regulator. It judges nothing, and answers at its address, in form while it lasts (specs/Statements.antt).
#[derive(Clone, Copy)]
struct Regulator {
    pub address: u8,
    // What it holds once it is programmed.
    pub file: Summary,
    pub counter: u32,
    pub flag: u32,
    pub banks: u32,
    // The register that was pointed to last, and the CRC of the configuration that was restored last.
    pub register: u16,
    pub crc: u32,
    // Status reads that will be answered with bit 0 clear, and those that were.
    pub busy: u32,
    pub waited: u32,
    // So many more requests are acknowledged, and so many were heard.
    pub lasts: u32,
    pub heard: u32,
    // How often the burn was heard.
    pub burns: u32,
}

// What comes back: nothing, that a write was taken, or the bytes that were read, of which there are two sizes; no Option is plainer.
#[derive(Clone, Copy)]
enum Reply {
    Silent,
    Took,
    Word([u8; 5]),
    Block([u8; 6]),
}

// What a run leaves.
#[derive(Clone, Copy)]
struct Run {
    pub answer: Answer,
    pub session: Session,
    pub regulator: Regulator,
}

// No session puts out more requests: 12 + 363 x 8 lines, 10,000 polls, 3 x 8 and 9 (docs/PROMISES.md, `Demand3.bound`).
const MOST: u32 = 12949;

// The loop to copy. Begin with the summary that the morning's check gave; then carry each request to the device and its reply back, with
// the file that was checked, until there is no request. In the place of `exchange` stands the station's bus.
fn program(settings: Settings, summary: Summary, file: &[u8], device: Regulator) -> Run {
    let mut handed = settings.begin_with(summary);
    let mut regulator = device;
    for _ in 0..MOST {
        if handed.request.used == 0 {
            break;
        }
        let reply = regulator.exchange(handed.request);
        handed = handed.session.reply(file, reply.kind(), reply.bytes());
    }
    Run {
        answer: handed.answer,
        session: handed.session,
        regulator,
    }
}

// What could not be written is passed over, here and below, and what comes behind it is tried all the same.
fn say_report(rt: &impl Print, report: Option<Told>) {
    let _ = match report {
        None => print!(rt; "waiting"),
        Some(told) if told.number == 0 => print!(rt; "DONE"),
        Some(told) => print!(rt; "verdict {}", told.number),
    };
}

// What the session reports, and what the regulator saw of it.
fn say_run(rt: &impl Print, run: Run) {
    let burn = if run.session.burned {
        "put out"
    } else {
        "not put out"
    };
    let seen = run.regulator;
    let _ = print!(rt; "  session: ");
    say_report(rt, run.answer.report());
    let _ = println!(rt; ", requests {}, burn {burn}", run.session.sent);
    let _ = print!(rt; "  regulator: requests {}", seen.heard);
    let _ = println!(rt; ", busy polls {}, burns {}", seen.waited, seen.burns);
}

// What the morning's check says: whether there is anything to begin with.
fn say_checked(rt: &impl Print, told: Told) {
    let number = told.number;
    let line = told.line.0;
    let place = told.place.0;
    let _ = if number == 0 {
        println!(rt; "checked in the morning: accepted")
    } else {
        println!(rt; "checked in the morning: refused, number {number}, line {line}, place {place}")
    };
}

// One regulator after the other, each in its own way. Settings, summary and text stay three, as a station holds them: the loop to copy
// is called with them, and with a struct it would not be plainer.
fn boards(rt: &impl Print, settings: Settings, summary: Summary, file: &[u8]) {
    let fitting = Regulator::fitting(summary, 0xC0);

    let _ = println!(rt; "a regulator that fits the file");
    say_run(rt, program(settings, summary, file, fitting));

    let _ = println!(rt; "a regulator that acknowledges 200 requests and no more");
    let failing = Regulator {
        lasts: 200,
        ..fitting
    };
    say_run(rt, program(settings, summary, file, failing));

    let _ = println!(rt; "a regulator whose counter shows 29");
    let strange = Regulator {
        counter: 29,
        ..fitting
    };
    say_run(rt, program(settings, summary, file, strange));

    let _ = println!(rt; "a regulator with one place more than the file needs, under rule 2");
    let scarce = fitting.left_with(summary.configs as u32 + 1);
    let keeping = Settings {
        rule: 2,
        ..settings
    };
    say_run(rt, program(keeping, summary, file, scarce));

    let _ = println!(rt; "the same regulator, under rule 1");
    say_run(rt, program(settings, summary, file, scarce));
}

// One that does not answer at C0.
fn elsewhere(rt: &impl Print, settings: Settings, summary: Summary, file: &[u8]) {
    let _ = println!(rt; "a regulator that fits the file, at address 20");
    let strapped = Regulator::fitting(summary, 0x20);
    let moved = Settings {
        address: 0x20,
        ..settings
    };
    say_run(rt, program(moved, summary, file, strapped));

    let _ = println!(rt; "the same regulator, asked at address C0");
    say_run(rt, program(settings, summary, file, strapped));
}

// A summary serves as many boards as there are, and is of one text.
fn on_one_check(rt: &impl Print, settings: Settings, summary: Summary, file: &[u8]) {
    let fitting = Regulator::fitting(summary, 0xC0);

    let _ = println!(rt; "four boards on the one check, the third with a counter of 29");
    let strange = Regulator {
        counter: 29,
        ..fitting
    };
    say_run(rt, program(settings, summary, file, fitting));
    say_run(rt, program(settings, summary, file, fitting));
    say_run(rt, program(settings, summary, file, strange));
    say_run(rt, program(settings, summary, file, fitting));

    let _ = println!(rt; "a regulator that fits the file, while another text is lent");
    say_run(rt, program(settings, summary, b"another text\n", fitting));
}

// The morning's check, and where it accepts, the boards.
fn morning(rt: &impl Print, file: &[u8]) {
    let checked = image::check(file);
    say_checked(rt, checked.told());
    if checked.answer.is_err() {
        return;
    }
    let settings = Settings {
        wanted: true,
        limit: 10,
        restore: device::RESTORE,
        rule: 1,
        address: 0xC0,
    };
    boards(rt, settings, checked.summary, file);
    elsewhere(rt, settings, checked.summary, file);
    on_one_check(rt, settings, checked.summary, file);
}

fn main(rt: HostRuntime) {
    // One byte more than a file may have, so that a longer one is seen to be longer.
    let mut space = [0u8; 65537];
    let n = streams::fill(&mut rt.reader(), &mut space);
    morning(&rt, &space[..n]);
}
