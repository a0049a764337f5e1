// The pass over the lines: each good line is taken out, and the first faulty one's refusal is handed on.
ghost use Rattle.std.specs.Prelude.{◌≡◌, length, ◌+◌, ◌<◌, ◌≤◌, ◌^◌};
ghost use Rattle.cuts.specs.Lines.{lines_of};
ghost use Rattle.counts.specs.Counts.{line_number};
ghost use Rattle.line.specs.Reading.{next_line};
ghost use Rattle.image.specs.Private.Walk.{start, with_number, facts_with, facts_from};

use crate::Facts;
use counts::LineNumber;
use line::Line;
use summary::{Refusal, is_burn};

// The facts with one good line more.
#[tactic(auto, unfolding(crate::specs::Private::Walk::facts_with))]
fn facts_with(f: Facts, l: Line) -> Facts
    requires { f.lines + 1 < 2 ^ 32 }
    ensures { result ≡ facts_with f l }
{
    Facts {
        lines: f.lines + 1,
        early: f.burnt || f.early,
        burnt: is_burn(l),
    }
}

// The line at a place, behind the lines of these facts.
#[tactic(auto, unfolding(crate::specs::Private::Walk::with_number))]
fn line_after(s: &[u8], at: usize, f: Facts) -> Result<Option<(Line, usize)>, Refusal>
    requires { f.lines + 1 < 2 ^ 32 }
    ensures { result ≡ with_number (line_number (f.lines + 1)) (next_line (line_number (f.lines + 1)) at s.now) }
{
    let n = LineNumber(f.lines + 1);
    line::next_at(s, at, n).map_err(|refusal| Refusal::Line(n, refusal))
}

// The facts of all lines, or the refusal of the first faulty one.
#[tactic(auto, unfolding(crate::specs::Private::Walk::start))]
pub(crate) fn facts_of(s: &[u8]) -> Result<Facts, Refusal>
    requires { length s.now ≤ 65536 }
    ensures { result ≡ facts_from start (lines_of s.now) }
{
    let mut facts = Facts {
        lines: 0,
        early: false,
        burnt: false,
    };
    let mut at: usize = 0;
    while let Some((line, next)) = line_after(s, at, facts)? {
        facts = facts_with(facts, line);
        at = next;
    }
    Ok(facts)
}
