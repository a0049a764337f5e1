// What a dry run writes from the beginning on.
ghost use Rattle.std.specs.Prelude.{OnOk};
ghost use Rattle.std.specs.Io.KnownBytes.{Appends};
ghost use Rattle.dryrun.specs.Run.{request_lines, end_lines, run_lines};

use crate::lines::{put_count, put_report, put_request};
use bus::Request;
use session::Handed;
use std::io::{self, Write};
use tape::Replies;

// A request of zeros is none.
#[tactic(auto, using(text::proofs::Laws::puts_inside, text::proofs::Laws::puts_taken), unfolding(crate::specs::Run::request_lines))]
fn write_request<W: Write>(out: &mut W, q: Request) -> io::Result<()>
    ensures { OnOk result (Appends (W.contents out.old) (W.contents out.new) (request_lines q)) }
{
    if q.used == 0 {
        return Ok(());
    }
    let mut line = [0u8; 32];
    let n = put_request(&mut line, q);
    out.write_all(&line[..n])
}

// How the session stands, and what it has put out. The second line is tried also where the first could not be written.
#[tactic(auto, using(text::proofs::Laws::puts_inside, text::proofs::Laws::puts_taken))]
fn write_end<W: Write>(out: &mut W, last: Handed) -> io::Result<()>
    ensures { OnOk result (Appends (W.contents out.old) (W.contents out.new) (end_lines last)) }
{
    let mut verdict = [0u8; 112];
    let n = put_report(&mut verdict, last.answer.report());
    let said = out.write_all(&verdict[..n]);
    let mut count = [0u8; 64];
    let m = put_count(&mut count, last.session.sent, last.session.burned);
    said.and(out.write_all(&count[..m]))
}

// The line of each request that is put out, one call for each of the replies with the text that is lent, and how the session stands
// where they end. A line that could not be written keeps none behind it from being tried; the first failure is handed back.
pub fn write_run<W: Write>(
    out: &mut W,
    begun: Handed,
    text: &[u8],
    replies: Replies<'_>,
) -> io::Result<()>
    ensures { OnOk result (Appends (W.contents out.old) (W.contents out.new)
        (run_lines text.now replies.entry.input.now replies.entry.at begun)) }
{
    let mut handed = begun;
    let mut written = write_request(out, handed.request);
    for reply in replies {
        let Ok((kind, bytes)) = reply else {
            break;
        };
        handed = handed.session.reply(text, kind, bytes);
        written = written.and(write_request(out, handed.request));
    }
    written.and(write_end(out, handed))
}
