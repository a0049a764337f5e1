// Steps 4 and 5: what the status and the banks come to.
ghost use Rattle.std.specs.Prelude.{◌≡◌, ◌<◌};
ghost use Rattle.guide.specs.Judged.{polled_of, bank_in, reports_in, bank_right, banks_right};

use crate::Polled;
use counts::{Bank, ConfigNumber};

impl Polled {
    // Bits above 5 are not judged, and no other bit while bit 0 is clear.
    #[tactic(auto, unfolding(crate::specs::Judged::polled_of))]
    pub fn of(status: u32) -> Polled
        ensures { result ≡ polled_of status }
    {
        if status % 2 == 0 {
            Polled::Busy
        } else if status % 64 == 1 {
            Polled::Passed
        } else {
            Polled::Failed
        }
    }
}

// The bank's part of the register: bank b is bits 4b+3 to 4b.
#[tactic(auto, using(crate::proofs::BankShift::bank_shifted))]
fn bank_shows(word: u32, bank: Bank) -> u32
    requires { bank.0 < 8 }
    ensures { result ≡ bank_in word bank }
{
    (word >> (4 * bank.0)) % 16
}

// Whether one of the first k configurations reports in this bank. `ConfigNumber::bank` alone says in which each does.
// With `any` the proof did not close.
#[tactic(auto, using(crate::proofs::Banks::reports_below), unfolding(crate::specs::Judged::reports_in))]
fn reports_in(configs: u8, bank: Bank) -> bool
    ensures { result ≡ reports_in configs bank }
{
    for n in 0..configs {
        if ConfigNumber(n).bank() == bank {
            return true;
        }
    }
    false
}

// 0001 where a configuration reports, 0000 elsewhere.
#[tactic(auto, unfolding(crate::specs::Judged::bank_right))]
fn bank_right(configs: u8, word: u32, bank: Bank) -> bool
    requires { bank.0 < 8 }
    ensures { result ≡ bank_right configs word bank.0 }
{
    bank_shows(word, bank) == u32::from(reports_in(configs, bank))
}

// All eight banks that the register shows. With `all` the proof did not close.
#[tactic(auto, using(crate::proofs::Banks::every_on, crate::proofs::Banks::every_stop), unfolding(crate::specs::Judged::every_below, crate::specs::Judged::banks_right))]
pub fn banks_right(configs: u8, word: u32) -> bool
    ensures { result ≡ banks_right configs word }
{
    for b in 0..8 {
        if !bank_right(configs, word, Bank(b)) {
            return false;
        }
    }
    true
}
