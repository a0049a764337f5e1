// The session (document 01, "The session"): a value whose calls hand the next value back with its request.
#![tactic(auto)]

mod answers;
mod at_once;
mod begin;
mod exits;
mod held;
mod lines;
mod replies;
mod stages;

use bus::Request;
use counts::{ConfigNumber, LineNumber};
use guide::{Verdict, Words};
use summary::Summary;

#[derive(Clone, Copy)]
pub struct Settings {
    // Whether step 1 is wanted.
    pub wanted: bool,
    // At most so many polls in step 4.
    pub limit: u16,
    // The RESTORE_CFG command code.
    pub restore: u8,
    // The house rule, 1 or 2: how many of the device's places are kept free for field service (document 02, R-13).
    pub rule: u8,
    // The device's write address: even, 10 to EE hex. It is read by one more (document 02, R-2).
    pub address: u8,
}

// The request whose reply is awaited, in the order of the six steps.
#[derive(Clone, Copy)]
pub enum Awaited {
    CaptureAt,
    CaptureRead,
    CaptureWrite,
    CaptureApply,
    CounterAt,
    CounterRead,
    IdentityRead,
    FlagAt,
    FlagRead,
    RevisionRead,
    LineOut,
    StatusAt,
    StatusRead,
    BanksAt,
    BanksRead,
    Restore,
    CrcAt,
    CrcRead,
}

// A reply is awaited, or a verdict stands. No Result is plainer: DONE is a verdict too, and no error.
#[derive(Clone, Copy)]
pub enum Stage {
    Open(Awaited),
    Ended(Verdict),
}

// What a call says: a request is out, the session is over, or the state is refused (15), which is no verdict. A Result of an Option is
// no plainer, since neither would say which is which.
#[derive(Clone, Copy)]
pub enum Answer {
    Next,
    Over(Verdict),
    BadState,
}

// Where the session is in the file and with the device, and what it has read.
#[derive(Clone, Copy)]
pub struct Position {
    // The write line last put out, 5 before any.
    pub line: LineNumber,
    // Where the line that is due begins in the text.
    pub place: usize,
    pub config: ConfigNumber,
    // Those answered with bit 0 clear.
    pub polls: u16,
    // What step 2 has read so far.
    pub read: Words,
}

#[derive(Clone, Copy)]
pub struct Session {
    pub settings: Settings,
    pub file: Summary,
    pub stage: Stage,
    // The request in hand: the reply is judged by it.
    pub hand: Request,
    pub position: Position,
    // The requests put out so far.
    pub sent: u32,
    // Whether the burn was one of them.
    pub burned: bool,
}

#[derive(Clone, Copy)]
pub struct Handed {
    pub session: Session,
    pub request: Request,
    pub answer: Answer,
}
