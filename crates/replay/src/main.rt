// A dry run: what a station would send for the settings, the file and the replies on standard input, and how the session stands.
// Each line that it writes is made by `dryrun`, and each request and verdict by `session`.
#![tactic(auto)]

use dryrun::FILE_AT;
use std::io;
use tape::Replies;

#[tactic(auto, using(dryrun::proofs::Inside::header_within))]
fn main(rt: HostRuntime) {
    // One byte more than there is room for, so that a longer input is seen to be longer.
    let mut space = [0u8; 265611];
    let n = streams::fill(&mut rt.reader(), &mut space);
    let input = &space[..n];
    // What could not be written is passed over.
    let _ = match dryrun::parse(input) {
        Ok(header) => {
            let at = header.behind;
            let file = &input[FILE_AT..at];
            let begun = header.settings.begin(file);
            dryrun::write_run(&mut io::writer(&rt), begun, file, Replies { input, at })
        }
        Err(unfit) => println!(rt; "{unfit}"),
    };
}
