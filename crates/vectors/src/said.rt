// What a call of the session handed back, on one line: number, N, line and place, or that a reply is awaited; the request; count and burn.
use bus::Request;
use session::Handed;
use summary::Told;

// What could not be written is passed over, here and below, and what comes behind it is tried all the same.
fn say_report(rt: &impl Print, report: Option<Told>) {
    let _ = match report {
        None => print!(rt; "waiting"),
        Some(told) => {
            let line = told.line.0;
            let place = told.place.0;
            print!(rt;
                "{} config {} line {line} at {place}",
                told.number, told.config.0
            )
        }
    };
}

// All eight bytes, used or not.
fn say_request(rt: &impl Print, q: Request) {
    let _ = print!(rt; " request ");
    for byte in q.bytes {
        let _ = print!(rt; "{byte:02X}");
    }
    let does = if q.reads { "reads" } else { "writes" };
    let _ = print!(rt; " used {} {does}", q.used);
}

pub(crate) fn say_handed(rt: &impl Print, words: &str, handed: Handed) {
    let s = handed.session;
    let _ = print!(rt; "{words}: ");
    say_report(rt, handed.answer.report());
    say_request(rt, handed.request);
    let _ = println!(rt; ", count {} burn {}", s.sent, u8::from(s.burned));
}
