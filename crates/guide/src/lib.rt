// The guide's words: verdicts, and its decisions as functions on numbers. The guide itself stands in specs/.
#![tactic(auto)]

mod fits;
mod found;
mod numbers;
mod requests;

use counts::{ConfigNumber, Kind};
pub use fits::kind_wanted;
pub use found::banks_right;
pub use requests::{cleared, line_request, point};
use summary::Refusal;

// Why a session that had begun is halted, by document 01's number.
#[derive(Clone, Copy, PartialEq, Eq)]
pub enum Reason {
    Nack = 20,
    Shape = 21,
    Pec = 22,
    Counter = 23,
    Identity = 24,
    Flag = 25,
    Old = 26,
    OtherKind = 27,
    Places = 28,
    Program = 29,
    Banks = 30,
}

// How a session can end: DONE, a refused beginning (14, the file's refusal, or 15 for a summary), 31 with its N, or 20 to 30. No Result is
// plainer: the six ways are verdicts alike.
#[derive(Clone, Copy)]
pub enum Verdict {
    Done,
    Setting,
    File(Refusal),
    Mismatch(ConfigNumber),
    Halted(Reason),
    State,
}

// What a file asks of the device that it is for: its kind, its identity and a place for each configuration.
#[derive(Clone, Copy, PartialEq, Eq)]
pub struct Target {
    pub kind: Kind,
    pub identity: u32,
    pub configs: u8,
}

// The words that step 2 reads, in its order.
#[derive(Clone, Copy, PartialEq, Eq)]
pub struct Words {
    pub counter: u32,
    pub identity: u32,
    pub flag: u32,
    pub revision: u32,
}

// What a status read in step 4 comes to: bit 0 is clear, or it is 1 and the others of 5..0 are right, or wrong.
#[derive(Clone, Copy, PartialEq, Eq)]
pub enum Polled {
    Busy,
    Passed,
    Failed,
}
