// The packet error code (PEC) of SMBus, run from a table of 256 entries (document 01, "The PEC"). The table is a static, which stands in
// one place and is lent; an array that is a constant would be stored anew wherever it is used.
#![tactic(auto)]

mod remainders;

ghost use Rattle.std.specs.Prelude.{◌≡◌};
ghost use Rattle.pec.specs.Pec.{step, pec_from, pec};
ghost use Rattle.pec.specs.Lent.{IsTable, step_with, run_with};

use remainders::TABLE;

// The table where it stands, lent for good: what every run goes by.
pub fn lent() -> &'static [u8; 256]
    ensures { IsTable result.now }
{
    &TABLE
}

// A copy of it.
pub fn table() -> [u8; 256]
    ensures { IsTable result }
{
    *lent()
}

// The register after one more byte, by a lent table.
#[tactic(auto, unfolding(crate::specs::Lent::step_with))]
pub fn step_with(table: &[u8; 256], register: u8, byte: u8) -> u8
    ensures { result ≡ step_with table.now register byte }
{
    table[(register ^ byte) as usize]
}

// The register after some bytes, by a lent table.
#[tactic(auto, using(crate::proofs::Laws::one_byte_more), unfolding(crate::specs::Lent::run_with))]
pub fn run_with(table: &[u8; 256], register: u8, bytes: &[u8]) -> u8
    ensures { result ≡ run_with table.now register bytes.now }
{
    let mut c = register;
    for byte in bytes {
        c = step_with(table, c, *byte);
    }
    c
}

// The register after one more byte, by the table that stands here: another promise than `step_with`'s, which holds for any table.
#[tactic(auto, using(crate::proofs::Laws::step_right))]
pub fn step(register: u8, byte: u8) -> u8
    ensures { result ≡ step register byte }
{
    step_with(lent(), register, byte)
}

// The register after some bytes, by the table that stands here, as `step`.
#[tactic(auto, using(crate::proofs::Laws::run_right))]
pub fn run(register: u8, bytes: &[u8]) -> u8
    ensures { result ≡ pec_from register bytes.now }
{
    run_with(lent(), register, bytes)
}

// The PEC of some bytes.
pub fn of(bytes: &[u8]) -> u8
    ensures { result ≡ pec bytes.now }
{
    run(0, bytes)
}
