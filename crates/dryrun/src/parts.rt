// The input: a byte whether step 1 is wanted, two bytes poll limit, a byte RESTORE_CFG code, a byte house rule, a byte write address,
// four bytes file length, the file, then replies as `tape` reads them. Numbers are lowest byte first.
ghost use Rattle.std.specs.Prelude.{◌≡◌, ◌≤◌, length};
ghost use Rattle.dryrun.specs.Parts.{settings_of, input_of};

use crate::front::behind_file;
use crate::{Header, SETTINGS_BYTES, Unfit};
use session::Settings;
use tape::replies_whole;

#[tactic(auto, unfolding(crate::specs::Parts::settings_of, crate::specs::Parts::pair))]
fn settings_in(input: &[u8]) -> Settings
    requires { 6 ≤ length input.now }
    ensures { result ≡ settings_of input.now }
{
    Settings {
        wanted: 0 < input[0],
        limit: u16::from_le_bytes([input[1], input[2]]),
        restore: input[3],
        rule: input[4],
        address: input[5],
    }
}

// Room for 200,000 bytes of replies.
#[tactic(auto, using(crate::proofs::Inside::input_right, crate::proofs::Inside::behind_within), unfolding(crate::proofs::Inside::run_of))]
pub fn parse(input: &[u8]) -> Result<Header, Unfit>
    ensures { result ≡ input_of input.now }
{
    let behind = behind_file(input, SETTINGS_BYTES)?;
    if 200000 < input.len() - behind {
        return Err(Unfit::TooLong);
    }
    if !replies_whole(input, behind) {
        return Err(Unfit::CutShort);
    }
    Ok(Header {
        settings: settings_in(input),
        behind,
    })
}
