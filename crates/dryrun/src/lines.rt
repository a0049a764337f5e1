// The lines that a dry run writes.
ghost use Rattle.std.specs.Prelude.{◌≡◌};
ghost use Rattle.text.specs.Text.{Puts};
ghost use Rattle.text.specs.Private.Pieces.{PutsIfRoom};
ghost use Rattle.dryrun.specs.Lines.{verb, at_most8, used_hex, request_line, told_where, checked_line, report_line, mark, count_line};

use bus::Request;
use summary::Told;
use text::Page;

// Whether it reads, in a word.
#[tactic(auto, unfolding(crate::specs::Lines::verb, text::specs::Text::bytes_of))]
fn put_verb(page: &mut Page, reads: bool)
    ensures { PutsIfRoom page.old (verb reads) page.new }
{
    if reads {
        page.bytes(b"read ");
    } else {
        page.bytes(b"write ");
    }
}

// The used bytes. A request has eight bytes, also where more are said to be used. By index: over a slice of them the invariant's proof
// did not close.
fn put_used(page: &mut Page, bytes: [u8; 8], used: u8)
    ensures { PutsIfRoom page.old (used_hex bytes (at_most8 used)) page.new }
{
    for i in 0..used.min(8) as usize {
        page.hex::<2>(bytes[i] as u32);
    }
}

// The line of a request that was put out.
pub fn put_request(out: &mut [u8; 32], q: Request) -> usize
    ensures { Puts out.old 0 (request_line q) out.new result }
{
    let mut page = Page { room: out, at: 0 };
    put_verb(&mut page, q.reads);
    put_used(&mut page, q.bytes, q.used);
    page.bytes(b"\n");
    page.at
}

// Of which line what is told is, and of which place in it.
fn put_where(page: &mut Page, told: Told)
    ensures { PutsIfRoom page.old (told_where told) page.new }
{
    page.bytes(b" line ");
    page.decimal(told.line.0 as u64);
    page.bytes(b" at ");
    page.decimal(told.place.0 as u64);
    page.bytes(b"\n");
}

// What a check told.
pub fn put_checked(out: &mut [u8; 112], told: Told) -> usize
    ensures { Puts out.old 0 (checked_line told) out.new result }
{
    let mut page = Page { room: out, at: 0 };
    page.bytes(b"checked ");
    page.decimal(told.number as u64);
    put_where(&mut page, told);
    page.at
}

#[tactic(auto, unfolding(crate::specs::Lines::report_line, text::specs::Text::bytes_of))]
fn put_standing(page: &mut Page, report: Option<Told>)
    ensures { PutsIfRoom page.old (report_line report) page.new }
{
    match report {
        None => page.bytes(b"waiting\n"),
        Some(told) => {
            page.bytes(b"verdict ");
            page.decimal(told.number as u64);
            page.bytes(b" config ");
            page.decimal(told.config.0 as u64);
            put_where(page, told);
        }
    }
}

// How the session stands.
pub fn put_report(out: &mut [u8; 112], report: Option<Told>) -> usize
    ensures { Puts out.old 0 (report_line report) out.new result }
{
    let mut page = Page { room: out, at: 0 };
    put_standing(&mut page, report);
    page.at
}

#[tactic(auto, unfolding(crate::specs::Lines::mark, text::specs::Text::bytes_of))]
fn put_mark(page: &mut Page, burned: bool)
    ensures { PutsIfRoom page.old (mark burned) page.new }
{
    if burned {
        page.bytes(b"1\n");
    } else {
        page.bytes(b"0\n");
    }
}

// The requests put out so far, and whether the burn was one of them.
pub fn put_count(out: &mut [u8; 64], sent: u32, burned: bool) -> usize
    ensures { Puts out.old 0 (count_line sent burned) out.new result }
{
    let mut page = Page { room: out, at: 0 };
    page.bytes(b"count ");
    page.decimal(sent as u64);
    page.bytes(b" burn ");
    put_mark(&mut page, burned);
    page.at
}
