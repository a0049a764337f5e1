// A dry run: its input taken apart, and the lines that it writes made into a lent buffer.
#![tactic(auto)]

mod front;
mod lines;
mod parts;
mod run;
mod words;

pub use front::file_in_front;
pub use lines::{put_checked, put_count, put_report, put_request};
pub use parts::parse;
pub use run::write_run;
use session::Settings;

// How many bytes the settings have.
const SETTINGS_BYTES: usize = 6;

// How many bytes a length has.
pub const LENGTH_BYTES: usize = 4;

// Where the file starts: behind the settings and its length.
pub const FILE_AT: usize = SETTINGS_BYTES + LENGTH_BYTES;

// What stands at the front of an input that is whole: the settings, and the place behind the file.
#[derive(Clone, Copy)]
pub struct Header {
    pub settings: Settings,
    pub behind: usize,
}

// Why an input is not run.
#[derive(Clone, Copy)]
pub enum Unfit {
    CutShort,
    TooLong,
}
