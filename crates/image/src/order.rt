// The tests of the whole file in the order of document 01, "Numbers for a file", less 12, which is unused (request R-9).
ghost use Rattle.std.specs.Prelude.{◌≡◌, ◌≤◌};
ghost use Rattle.image.specs.Tests.{too_long};
ghost use Rattle.image.specs.Check.{answer_of};
ghost use Rattle.image.specs.Private.Walk.{burn_amiss_in};
ghost use Rattle.image.specs.Private.Rest.{AllGood, Counted, CountsAs, TriesAs, said_as};

use crate::config_lines::{line_at, same_in, spots_of};
use crate::device::known_device;
use crate::says::identity_of;
use crate::walk::facts_of;
use crate::{Facts, Spots};
use counts::{Kind, LineNumber};
use summary::{Refusal, Summary, Whole};

// More bytes than a file may have. A function of its own, so that no written answer names the test: a wrong one is refused for what it says.
#[tactic(auto, unfolding(crate::specs::Tests::too_long))]
fn too_long(s: &[u8]) -> bool
    ensures { result ≡ too_long s.now }
{
    65536 < s.len()
}

// The last line is not the burn, or an earlier one is.
#[tactic(auto, unfolding(crate::specs::Private::Walk::burn_amiss_in))]
fn burn_amiss(f: Facts) -> bool
    ensures { result ≡ burn_amiss_in f }
{
    !f.burnt || f.early
}

// Of a text whose lines are good: 7 for under 13 lines, 8, 9, 7 for n, or its kind and k.
fn counted(s: &[u8], facts: Facts) -> Result<(Kind, u8), Whole>
    requires { AllGood s.now facts }
    ensures { CountsAs s.now facts result }
{
    if facts.lines < 13 {
        return Err(Whole::Count);
    }
    let second = line_at(s, cuts::skip(s, 0, 1), LineNumber(2));
    let Some(kind) = Kind::of_revision(second.bytes[0]) else {
        return Err(Whole::Revision);
    };
    if !known_device(line_at(s, 0, LineNumber(1))) {
        return Err(Whole::Device);
    }
    let configs = kind.configs(facts.lines);
    if configs == 0 {
        return Err(Whole::Count);
    }
    Ok((kind, configs))
}

// 10, 11, 13, or what the lines of the configurations say, which are read before the first of the three is tried.
#[tactic(auto, using(crate::proofs::RestOfTests::few_configs, crate::proofs::RestOfTests::spot_stops, crate::proofs::RestOfTests::same_stops, crate::proofs::RestOfTests::accepts))]
fn tried(s: &[u8], facts: Facts, kind: Kind, k: u8) -> Result<Spots, Whole>
    requires { Counted s.now facts kind k × (1 ≤ k) }
    ensures { TriesAs s.now kind k result }
{
    let read = spots_of(s, kind, k as usize);
    if burn_amiss(facts) {
        return Err(Whole::Burn);
    }
    let Some(spots) = read else {
        return Err(Whole::Spot);
    };
    if same_in(spots.ids, k as usize) {
        return Err(Whole::Same);
    }
    Ok(spots)
}

// 1; then 2 to 6 of the first faulty line, handed on; then the tests of the whole file; and what a file says that passes them.
pub(crate) fn summary_of(s: &[u8]) -> Result<Summary, Refusal>
    ensures { result ≡ said_as s.now (answer_of s.now) }
{
    if too_long(s) {
        return Err(Whole::Size.into());
    }
    let facts = facts_of(s)?;
    let (kind, configs) = counted(s, facts)?;
    let spots = tried(s, facts, kind, configs)?;
    // Read first: the check does not follow an array from one struct's field straight into another's.
    let ids = spots.ids;
    let crcs = spots.crcs;
    Ok(Summary {
        kind,
        identity: identity_of(line_at(s, 0, LineNumber(1))),
        lines: facts.lines,
        configs,
        line5: cuts::skip(s, 0, 4),
        ids,
        crcs,
    })
}
