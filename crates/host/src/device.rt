// The simulated regulator: what it answers, and what a request changes in it.
ghost use Rattle.std.specs.Prelude.{◌≡◌};
ghost use Rattle.host.specs.Replies.{kind_of, handed, word_reply, block_reply, value_of, read_reply, heard_reply, device_reply};

use crate::{Regulator, Reply};
use bus::{Bus, Request};
use counts::{ConfigId, Kind};
use summary::Summary;

// The command that restores a configuration is a setting, since its code stood in a figure of the guide (document 01).
pub(crate) const RESTORE: u8 = 0xF2;

impl Reply {
    // The number that the session takes it by.
    #[tactic(auto, unfolding(crate::specs::Replies::kind_of))]
    pub(crate) fn kind(self) -> u8
        ensures { result ≡ kind_of self }
    {
        match self {
            Reply::Silent => 0,
            Reply::Took | Reply::Word(_) | Reply::Block(_) => 1,
        }
    }

    #[tactic(auto, unfolding(crate::specs::Replies::handed))]
    pub(crate) fn bytes(&self) -> &[u8]
        ensures { result.now ≡ handed self.now }
    {
        match self {
            Reply::Silent | Reply::Took => &[],
            Reply::Word(bytes) => bytes,
            Reply::Block(bytes) => bytes,
        }
    }

    // To a read of C5: four bytes, lowest first, and the PEC of the address, the command, the read address and these.
    #[tactic(auto, unfolding(crate::specs::Replies::word_reply, bus::specs::Bus::word_bytes))]
    fn word(address: u8, command: u8, w: u32) -> Reply
        ensures { result ≡ word_reply address command w }
    {
        let [a, b, c, d] = w.to_le_bytes();
        let again = Bus::read_address(address);
        let covered = [address, command, again, a, b, c, d];
        Reply::Word([a, b, c, d, pec::of(&covered)])
    }

    // To a read of AD or AE: the same with a 4 before the four bytes. As one function the two, of different sizes, are no plainer.
    #[tactic(auto, unfolding(crate::specs::Replies::block_reply, bus::specs::Bus::word_bytes))]
    fn block(address: u8, command: u8, w: u32) -> Reply
        ensures { result ≡ block_reply address command w }
    {
        let [a, b, c, d] = w.to_le_bytes();
        let again = Bus::read_address(address);
        let covered = [address, command, again, 4, a, b, c, d];
        Reply::Block([4, a, b, c, d, pec::of(&covered)])
    }
}

// The bank register where k configurations report.
fn banks_of(k: u8) -> u32 {
    match k {
        1..=8 => 0x11111111 >> (32 - 4 * u32::from(k)),
        _ => 0,
    }
}

// A new part has 28 places, and a legacy file is for one that has fewer left.
fn counter_of(kind: Kind) -> u32 {
    match kind {
        Kind::Legacy => 27,
        Kind::Production => 28,
    }
}

// What a part shows at the flag once it has fewer than 28 places left.
fn flag_of(kind: Kind) -> u32 {
    match kind {
        Kind::Legacy => 0,
        Kind::Production => 0xFFFE0001,
    }
}

// The CRC of the configuration with this identifier.
fn crc_of(ids: [ConfigId; 8], crcs: [u32; 8], id: u8) -> u32 {
    ids.iter()
        .zip(crcs.iter())
        .find(|(held, _)| held.0 == id)
        .map_or(0, |(_, crc)| *crc)
}

fn is_burn(bytes: [u8; 8]) -> bool {
    matches!(bytes, [_, Bus::ACT, 8, 0, ..])
}

impl Regulator {
    // A part at this address that takes this file, and is busy for two polls after the burn.
    pub(crate) fn fitting(file: Summary, address: u8) -> Regulator {
        Regulator {
            address,
            file,
            counter: counter_of(file.kind),
            flag: 0,
            banks: banks_of(file.configs),
            register: 0,
            crc: 0,
            busy: 2,
            waited: 0,
            lasts: u32::MAX,
            heard: 0,
            burns: 0,
        }
    }

    // The same part with so many places left.
    pub(crate) fn left_with(self, places: u32) -> Regulator {
        Regulator {
            counter: places,
            flag: flag_of(self.file.kind),
            ..self
        }
    }

    // What the register that was pointed to shows.
    #[tactic(auto, unfolding(crate::specs::Replies::value_of))]
    fn value(&self) -> u32
        ensures { result ≡ value_of self.now }
    {
        match self.register {
            Bus::COUNTER => self.counter,
            Bus::FLAG => self.flag,
            Bus::STATUS => u32::from(self.busy == 0),
            Bus::BANKS => self.banks,
            Bus::CRC => self.crc,
            _ => 0,
        }
    }

    #[tactic(auto, unfolding(crate::specs::Replies::read_reply))]
    fn read(&self, command: u8) -> Reply
        ensures { result ≡ read_reply self.now command }
    {
        match command {
            Bus::IDENTITY => Reply::block(self.address, command, self.file.identity),
            Bus::REVISION => Reply::block(self.address, command, 0x06000000),
            _ => Reply::word(self.address, command, self.value()),
        }
    }

    #[tactic(auto, unfolding(crate::specs::Replies::heard_reply))]
    fn answered(&self, request: Request) -> Reply
        ensures { result ≡ heard_reply self.now request }
    {
        if self.lasts == 0 {
            Reply::Silent
        } else if request.reads {
            self.read(request.bytes[1])
        } else {
            Reply::Took
        }
    }

    // A poll that was answered busy is one less.
    fn polled(&mut self) {
        if self.register == Bus::STATUS && 0 < self.busy {
            self.busy -= 1;
            self.waited = self.waited.wrapping_add(1);
        }
    }

    fn written(&mut self, bytes: [u8; 8]) {
        match bytes[1] {
            Bus::POINT => self.register = u16::from_le_bytes([bytes[2], bytes[3]]),
            RESTORE => self.crc = crc_of(self.file.ids, self.file.crcs, bytes[2]),
            _ => {}
        }
        if is_burn(bytes) {
            self.burns = self.burns.wrapping_add(1);
        }
    }

    // What a request that is heard changes.
    fn after(&mut self, request: Request) {
        self.heard = self.heard.wrapping_add(1);
        if self.lasts == 0 {
            return;
        }
        self.lasts -= 1;
        if request.reads {
            self.polled();
        } else {
            self.written(request.bytes);
        }
    }

    // The request goes to the device, and its reply comes back. What is for another address it does not hear.
    #[tactic(auto, unfolding(crate::specs::Replies::device_reply))]
    pub(crate) fn exchange(&mut self, request: Request) -> Reply
        ensures { result ≡ device_reply self.old request }
    {
        let bytes = request.bytes;
        if bytes[0] == self.address {
            let reply = self.answered(request);
            self.after(request);
            reply
        } else {
            Reply::Silent
        }
    }
}
