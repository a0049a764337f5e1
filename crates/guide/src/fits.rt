// Step 2: whether the device is the one that the file is for, 23 to 28 in document 01's order.
ghost use Rattle.std.specs.Prelude.{◌≡◌};
ghost use Rattle.guide.specs.Guide.{target_of};
ghost use Rattle.guide.specs.Judged.{kind_wanted, fit_of};

use crate::{Reason, Target, Words};
use counts::Kind;
use summary::Summary;

// The kind of file that a device with this counter and this flag wants.
#[tactic(auto, unfolding(crate::specs::Judged::kind_wanted))]
pub fn kind_wanted(counter: u32, flag: u32) -> Option<Kind>
    ensures { result ≡ kind_wanted counter flag }
{
    if flag == 0 && counter < 28 {
        Some(Kind::Legacy)
    } else if flag == 0xFFFE0001 || counter == 28 {
        Some(Kind::Production)
    } else {
        None
    }
}

impl Target {
    // Of a file that says this.
    pub fn of(file: Summary) -> Target
        ensures { result ≡ target_of file }
    {
        Target {
            kind: file.kind,
            identity: file.identity,
            configs: file.configs,
        }
    }

    // Whether a device of which this was read is the one asked for, where so many of its places are kept free.
    #[tactic(auto, using(crate::proofs::SameKind::kinds_compared), unfolding(crate::specs::Judged::fit_of, crate::specs::Judged::fit_kind))]
    pub fn fit(self, kept: u8, read: Words) -> Result<(), Reason>
        ensures { result ≡ fit_of self kept read }
    {
        if 28 < read.counter {
            return Err(Reason::Counter);
        }
        if read.identity != self.identity {
            return Err(Reason::Identity);
        }
        let wanted = kind_wanted(read.counter, read.flag).ok_or(Reason::Flag)?;
        if read.revision / 16777216 < 6 {
            return Err(Reason::Old);
        }
        if self.kind != wanted {
            return Err(Reason::OtherKind);
        }
        if read.counter < self.configs as u32 + kept as u32 {
            return Err(Reason::Places);
        }
        Ok(())
    }
}
