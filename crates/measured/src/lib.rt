// Entries for bench/ alone: functions of the delivery that C or Rust could not call by themselves. Nothing delivered uses them.
#![tactic(auto)]

ghost use Rattle.std.specs.Prelude.{◌≡◌};
ghost use Rattle.pec.specs.Lent.{run_with};
ghost use Rattle.measured.specs.Replies.{fed_of, sent_after};
ghost use Rattle.measured.specs.Begin.{summary_with, sent_at_begin};

use counts::{ConfigId, Kind};
use dryrun::FILE_AT;
use session::{Session, Settings};
use summary::Summary;
use tape::Replies;

// The register after some bytes, by a table that the caller has made once.
#[unsafe(no_mangle)]
pub extern "C" fn measured_run_with(table: &[u8; 256], register: u8, bytes: &[u8]) -> u8
    ensures { result ≡ run_with table.now register bytes.now }
{
    pec::run_with(table, register, bytes)
}

// The session once it was given so many of the replies from a place of the input on, or those that there are.
#[tactic(auto, using(crate::proofs::Turns::after_step), unfolding(crate::specs::Replies::fed_by, crate::specs::Replies::fed_of))]
fn fed(begun: Session, input: &[u8], file: &[u8], from: usize, replies: u32) -> Session
    ensures { result ≡ fed_of input.now file.now replies from begun }
{
    let mut s = begun;
    for reply in (Replies { input, at: from }).take(replies as usize) {
        let Ok((kind, bytes)) = reply else {
            return s;
        };
        s = s.reply(file, kind, bytes).session;
    }
    s
}

// The requests put out in a dry run of which only so many replies are given; 0 where the input is not whole.
#[unsafe(no_mangle)]
#[tactic(auto, using(dryrun::proofs::Inside::header_within), unfolding(crate::specs::Replies::sent_after, crate::specs::Replies::sent_by))]
pub extern "C" fn measured_replies(input: &[u8], replies: u32) -> u32
    ensures { result ≡ sent_after input.now replies }
{
    let Ok(header) = dryrun::parse(input) else {
        return 0;
    };
    let file = &input[FILE_AT..header.behind];
    let begun = header.settings.begin(file);
    fed(begun.session, input, file, header.behind, replies).sent
}

// The summary of a production file with this n and k, this place of line 5 and these identifiers.
#[tactic(auto, unfolding(crate::specs::Begin::summary_with))]
fn summary_with(lines: u32, configs: u8, line5: usize, ids: &[u8; 8]) -> Summary
    ensures { result ≡ summary_with lines configs line5 ids.now }
{
    Summary {
        kind: Kind::Production,
        identity: 0x49D28100,
        lines,
        configs,
        line5,
        // One by one: with `map` the proof did not close.
        ids: [
            ConfigId(ids[0]),
            ConfigId(ids[1]),
            ConfigId(ids[2]),
            ConfigId(ids[3]),
            ConfigId(ids[4]),
            ConfigId(ids[5]),
            ConfigId(ids[6]),
            ConfigId(ids[7]),
        ],
        crcs: [0xE0CD9882; 8],
    }
}

// The requests that a begin with such a summary puts out: 1, or 0 where it is refused.
#[unsafe(no_mangle)]
#[tactic(auto, unfolding(crate::specs::Begin::sent_at_begin))]
pub extern "C" fn measured_begin(lines: u32, configs: u8, line5: usize, ids: &[u8; 8]) -> u32
    ensures { result ≡ sent_at_begin lines configs line5 ids.now }
{
    let settings = Settings {
        wanted: false,
        limit: 1,
        restore: 0xF2,
        rule: 1,
        address: 0xC2,
    };
    let summary = summary_with(lines, configs, line5, ids);
    settings.begin_with(summary).session.sent
}
