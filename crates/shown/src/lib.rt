// What the printing program writes of a file (document 01, "The printing program"), made into a lent buffer.
#![tactic(auto)]

ghost use Rattle.std.specs.Prelude.{◌≤◌};
ghost use Rattle.text.specs.Text.{Puts};
ghost use Rattle.text.specs.Private.Pieces.{PutsIfRoom};
ghost use Rattle.shown.specs.Shown.{kind_name, row_of, rows_to, head_of, accepted_text, refused_text, shown};

use counts::{ConfigId, Kind};
use summary::{Refusal, Summary};
use text::Page;

#[tactic(auto, unfolding(crate::specs::Shown::kind_name, text::specs::Text::bytes_of))]
fn put_kind(page: &mut Page, kind: Kind)
    ensures { PutsIfRoom page.old (kind_name kind) page.new }
{
    match kind {
        Kind::Legacy => page.bytes(b"legacy"),
        Kind::Production => page.bytes(b"production"),
    }
}

// The line of one configuration: its identifier and its CRC.
fn put_row(page: &mut Page, id: ConfigId, crc: u32)
    ensures { PutsIfRoom page.old (row_of id crc) page.new }
{
    page.hex::<1>(id.0 as u32);
    page.bytes(b" ");
    page.hex::<8>(crc);
    page.bytes(b"\n");
}

// The lines of all configurations. By index: for a zip of the two arrays the invariant needs what is left of both, and is no plainer.
fn put_rows(page: &mut Page, s: Summary)
    requires { s.configs ≤ 8 }
    ensures { PutsIfRoom page.old (rows_to s s.configs) page.new }
{
    for n in 0..s.configs as usize {
        put_row(page, s.ids[n], s.crcs[n]);
    }
}

// The first line of an accepted file.
fn put_head(page: &mut Page, s: Summary)
    ensures { PutsIfRoom page.old (head_of s) page.new }
{
    page.bytes(b"ok ");
    put_kind(page, s.kind);
    page.bytes(b" ");
    page.hex::<8>(s.identity);
    page.bytes(b" ");
    page.decimal(s.lines as u64);
    page.bytes(b" ");
    page.decimal(s.configs as u64);
    page.bytes(b"\n");
}

fn put_accepted(out: &mut [u8; 160], s: Summary) -> usize
    requires { s.configs ≤ 8 }
    ensures { Puts out.old 0 (accepted_text s) out.new result }
{
    let mut page = Page { room: out, at: 0 };
    put_head(&mut page, s);
    put_rows(&mut page, s);
    page.at
}

fn put_refused(out: &mut [u8; 160], r: Refusal) -> usize
    ensures { Puts out.old 0 (refused_text r) out.new result }
{
    let told = r.told();
    let mut page = Page { room: out, at: 0 };
    page.bytes(b"refused ");
    page.decimal(told.number as u64);
    page.bytes(b" line ");
    page.decimal(told.line.0 as u64);
    page.bytes(b" at ");
    page.decimal(told.place.0 as u64);
    page.bytes(b"\n");
    page.at
}

// Writes what the program prints of a file at the start of the buffer, and answers how many bytes that is.
#[tactic(auto, using(image::proofs::AcceptedHolds::sound), unfolding(crate::specs::Shown::shown, crate::specs::Shown::answer_text))]
pub fn show(text: &[u8], out: &mut [u8; 160]) -> usize
    ensures { Puts out.old 0 (shown text.now) out.new result }
{
    let checked = image::check(text);
    match checked.answer {
        Ok(()) => put_accepted(out, checked.summary),
        Err(r) => put_refused(out, r),
    }
}
