// Runs the examples of document 01 that are marked to be run and compared through the proved functions, and then every reason of its
// refusal 15, a reply's and a begin's, and prints what comes out: a line each. The file `stdout` beside src/ has the page's answers.
#![tactic(auto)]

mod said;
mod states;
mod summaries;

use counts::Kind;
use guide::{Polled, Reason, Target, Words};

// No Display of `Kind`: `show` writes the words by `text`, and here alone they are printed. What could not be written is passed over, here
// and below, and what comes behind it is tried all the same.
fn say_kind(rt: &impl Print, kind: Kind) {
    let _ = match kind {
        Kind::Legacy => println!(rt; "legacy"),
        Kind::Production => println!(rt; "production"),
    };
}

fn say_number(rt: &impl Print, reason: Reason) {
    let _ = println!(rt; "{}", reason.number());
}

// The kind wanted, or what 23 to 28 say of a file of this kind with one configuration whose identity and revision are right, where so many
// places are kept free.
fn judge(rt: &impl Print, kind: Kind, kept: u8, counter: u32, flag: u32) {
    let target = Target {
        kind,
        identity: 0x49D28100,
        configs: 1,
    };
    let read = Words {
        counter,
        identity: 0x49D28100,
        flag,
        revision: 0x06000000,
    };
    match target.fit(kept, read) {
        Err(reason) => say_number(rt, reason),
        Ok(()) => match guide::kind_wanted(counter, flag) {
            Some(wanted) => say_kind(rt, wanted),
            None => {
                let _ = println!(rt; "none");
            }
        },
    }
}

// Document 02, R-13: with two places kept free, k + 2 may not be more than the counter, and nothing else is judged otherwise.
fn kept_free(rt: &impl Print) {
    let _ = print!(rt; "k = 1, two kept, counter 2, flag 0, legacy file: ");
    judge(rt, Kind::Legacy, 2, 2, 0);
    let _ = print!(rt; "k = 1, two kept, counter 3, flag 0, legacy file: ");
    judge(rt, Kind::Legacy, 2, 3, 0);
    let _ = print!(rt; "k = 1, two kept, counter 2, flag FFFE0001, legacy file: ");
    judge(rt, Kind::Legacy, 2, 2, 0xFFFE0001);
    let _ = print!(rt; "two kept, counter 28, flag 0: ");
    judge(rt, Kind::Production, 2, 28, 0);
    let _ = print!(rt; "two kept, counter 29: ");
    judge(rt, Kind::Production, 2, 29, 0);
}

fn judge_status(rt: &impl Print, status: u32) {
    let _ = match Polled::of(status) {
        Polled::Busy => println!(rt; "again"),
        Polled::Passed => println!(rt; "passes"),
        Polled::Failed => println!(rt; "{}", Reason::Program.number()),
    };
}

fn judge_banks(rt: &impl Print, word: u32) {
    let _ = print!(rt; "k = 2, banks {word:08X}: ");
    let _ = if guide::banks_right(2, word) {
        println!(rt; "passes")
    } else {
        println!(rt; "{}", Reason::Banks.number())
    };
}

fn count(rt: &impl Print, kind: Kind, lines: u32) {
    let _ = print!(rt; "{lines} lines: {} ", kind.configs(lines));
    say_kind(rt, kind);
}

fn judged(rt: &impl Print) {
    let _ = print!(rt; "counter 27, flag 0: ");
    judge(rt, Kind::Legacy, 0, 27, 0);
    let _ = print!(rt; "counter 28, flag 0: ");
    judge(rt, Kind::Production, 0, 28, 0);
    let _ = print!(rt; "counter 27, flag 1: ");
    judge(rt, Kind::Legacy, 0, 27, 1);
    let _ = print!(rt; "counter 29: ");
    judge(rt, Kind::Legacy, 0, 29, 0);
    let _ = print!(rt; "counter 0, flag 0, legacy file: ");
    judge(rt, Kind::Legacy, 0, 0, 0);
    kept_free(rt);
    let _ = print!(rt; "status 41: ");
    judge_status(rt, 0x41);
    let _ = print!(rt; "status 09: ");
    judge_status(rt, 0x09);
    for banks in [0x00000011, 0x00000111, 0x00000010] {
        judge_banks(rt, banks);
    }
    count(rt, Kind::Production, 738);
    count(rt, Kind::Legacy, 349);
}

fn main(rt: HostRuntime) {
    judged(&rt);
    states::run(&rt);
}
