// The identifier and CRC lines of the configurations, found by the ends of the lines before them.
ghost use Rattle.std.specs.Prelude.{◌≡◌, ◌+◌, ◌*◌, ◌<◌, ◌≤◌, cond, Some, None};
ghost use Rattle.counts.specs.Counts.{step_of};
ghost use Rattle.cuts.specs.Lines.{place_of};
ghost use Rattle.line.specs.Reading.{next_line};
ghost use Rattle.image.specs.Private.Walk.{line_in, off_spot, off_spots, no_spots, off_at, spots_with, spots_to, same_in};

use crate::Spots;
use crate::says::{crc_of, id_of, is_c6};
use counts::{ConfigId, ConfigNumber, Kind, LineNumber};
use line::{Line, NextLine};

// The line that was taken, and a line of zeros where none was, which is read of no text whose lines are good (`line_in`, `line_no_lem`).
#[tactic(auto, unfolding(crate::specs::Private::Walk::line_in))]
fn line_in(found: NextLine) -> Line
    ensures { result ≡ line_in found }
{
    match found {
        Ok(Some((line, _))) => line,
        _ => Line {
            command: 0,
            count: 0,
            bytes: [0; 4],
            crc: 0,
        },
    }
}

// The line that starts at a place.
pub(crate) fn line_at(s: &[u8], at: usize, n: LineNumber) -> Line
    ensures { result ≡ line_in (next_line n at s.now) }
{
    line_in(line::next_at(s, at, n))
}

// Whether a configuration's identifier line or its CRC line is not C6.
#[tactic(auto, unfolding(crate::specs::Private::Walk::off_spot))]
fn off_spot(id: Line, crc: Line) -> bool
    ensures { result ≡ off_spot id crc }
{
    !is_c6(id) || !is_c6(crc)
}

// The spots with those of one configuration more, if they are C6, and the place of the next one's first line. Eleven lines stand before
// an identifier line (document 01, "The whole file").
#[tactic(auto, using(crate::proofs::SpotPlaces::place_more), unfolding(crate::specs::Private::Walk::line_at))]
fn spots_with(s: &[u8], kind: Kind, n: usize, at: usize, spots: Spots) -> Option<(Spots, usize)>
    requires { (n < 8) × (at ≡ place_of (step_of kind * n) s.now) }
    ensures { result ≡ cond (off_at kind s.now n) None (Some (spots_with kind s.now spots n, place_of (step_of kind * (n + 1)) s.now)) }
{
    let config = ConfigNumber(n as u8);
    let id_at = cuts::skip(s, at, 11);
    let id_line = line_at(s, id_at, kind.identifier_line(config));
    let crc_at = cuts::skip(s, id_at, kind.lines_to_crc() as usize);
    let crc_line = line_at(s, crc_at, kind.crc_line(config));
    if off_spot(id_line, crc_line) {
        return None;
    }
    let next = cuts::skip(s, crc_at, kind.lines_behind_crc() as usize);
    let mut more = spots;
    more.ids[n] = id_of(id_line);
    more.crcs[n] = crc_of(crc_line);
    Some((more, next))
}

// Before the first configuration.
#[tactic(auto, unfolding(crate::specs::Private::Walk::no_spots))]
fn no_spots() -> Spots
    ensures { result ≡ no_spots }
{
    Spots {
        ids: [ConfigId(0); 8],
        crcs: [0; 8],
    }
}

// The spots of the first k configurations, if all are C6. By a range: n is the configuration's number in the formulas, and its place in
// both arrays.
pub(crate) fn spots_of(s: &[u8], kind: Kind, k: usize) -> Option<Spots>
    requires { k ≤ 8 }
    ensures { result ≡ cond (off_spots kind s.now k) None (Some (spots_to kind s.now k)) }
{
    let mut spots = no_spots();
    let mut at: usize = 0;
    for n in 0..k {
        let (more, next) = spots_with(s, kind, n, at, spots)?;
        spots = more;
        at = next;
    }
    Some(spots)
}

// Whether two of the first k identifiers are equal: the search over pairs is left at the first, by a label (document 01, "Where each form
// belongs"). The list and k stay two, as a summary and the definition have them.
#[tactic(auto, using(crate::proofs::Pairs::in_found), unfolding(crate::specs::Private::Walk::same_in, crate::specs::Tests::some_below, crate::specs::Private::Walk::same_at))]
pub(crate) fn same_in(ids: [ConfigId; 8], k: usize) -> bool
    requires { k ≤ 8 }
    ensures { result ≡ same_in ids k }
{
    let mut same = false;
    'pairs: for i in 0..k {
        for j in 0..i {
            if ids[i] == ids[j] {
                same = true;
                break 'pairs;
            }
        }
    }
    same
}
