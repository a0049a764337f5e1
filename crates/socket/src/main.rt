// A dry run of a station that checks a file in the morning and begins at the socket with its summary (document 02, R-3): what it would send
// while it lends the text and gets the replies on standard input, and how the session stands. Each line that it writes is made by
// `dryrun`, what is checked by `image`, and each request and verdict by `session`.
#![tactic(auto)]

use dryrun::{FILE_AT, LENGTH_BYTES, Unfit};
use std::io;
use summary::Told;
use tape::Replies;

// What could not be written is passed over.
#[tactic(auto, using(text::proofs::Laws::puts_inside, text::proofs::Laws::puts_taken))]
fn say_checked(rt: &impl Print, told: Told) {
    let mut line = [0u8; 112];
    let n = dryrun::put_checked(&mut line, told);
    let _ = rt.write_all(&line[..n]);
}

// The morning's check, and behind it the socket: the text that is lent may be another than the file that was checked.
#[tactic(auto, using(dryrun::proofs::Inside::front_within, dryrun::proofs::Inside::header_within))]
fn at_the_socket(rt: &impl Print, input: &[u8]) -> Result<(), Unfit> {
    let behind = dryrun::file_in_front(input)?;
    let file = &input[LENGTH_BYTES..behind];
    let input = &input[behind..];
    let header = dryrun::parse(input)?;
    let at = header.behind;
    let text = &input[FILE_AT..at];
    let checked = image::check(file);
    say_checked(rt, checked.told());
    let begun = header.settings.begin_with(checked.summary);
    let _ = dryrun::write_run(&mut io::writer(rt), begun, text, Replies { input, at });
    Ok(())
}

fn main(rt: HostRuntime) {
    // One byte more than there is room for, so that a longer input is seen to be longer.
    let mut space = [0u8; 331215];
    let n = streams::fill(&mut rt.reader(), &mut space);
    if let Err(unfit) = at_the_socket(&rt, &space[..n]) {
        let _ = println!(rt; "{unfit}");
    }
}
