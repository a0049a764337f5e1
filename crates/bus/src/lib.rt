// The bus: its codes and registers, the requests, and the form of a reply. It knows no device: every request is made for an address
// that it is given (document 02, R-2).
#![tactic(auto)]

ghost use Rattle.std.specs.Prelude.{◌≡◌, cond, ltb, ◌+◌, ◌≤◌, length, take};
ghost use Rattle.bus.specs.declared.Request.{Request};
ghost use Rattle.bus.specs.Bus.{write_of, write_with, read_address, read_of, no_request, reserved};
ghost use Rattle.bus.specs.ReplyForm.{sealed_of, read_form, form_of};

// What is handed to the host: eight bytes, of which `used` are sent or, of a read, ask; the others are zeros. The count stands beside
// them, since a state holds a request as it is, with any count (`no_request`; `at_most8` of a dry run).
#[derive(Clone, Copy, PartialEq, Eq)]
pub struct Request {
    pub bytes: [u8; 8],
    pub used: u8,
    pub reads: bool,
}

// A name for what belongs to the bus: its codes, its registers, and the constructors of its requests.
#[derive(Clone, Copy)]
pub struct Bus {}

// A data byte that goes out, or a zero in its place. Byte by byte: a copy of so many bytes would be a call of memcpy, which an archive for C
// would then need from outside.
fn kept(place: usize, count: usize, byte: u8) -> u8
    ensures { result ≡ cond (ltb place count) byte 0 }
{
    if place < count { byte } else { 0 }
}

impl Bus {
    // Command codes. The guide's direct memory access is three: C7 sets the register's address, C5 reads or writes there, C6 does
    // and moves the address on by one, which is its sequential access.
    pub const POINT: u8 = 0xC7;

    pub const DATA: u8 = 0xC5;

    pub const SEQUENTIAL: u8 = 0xC6;

    // E7 has no name in the guide. It makes the device act: 02 00 applies what step 1 wrote, 08 00 burns.
    pub const ACT: u8 = 0xE7;

    pub const IDENTITY: u8 = 0xAD;

    pub const REVISION: u8 = 0xAE;

    // Lines 3 and 4 of a file, which are not interpreted.
    pub const NOTE_3: u8 = 0x01;

    pub const NOTE_4: u8 = 0x02;

    // Register addresses. Bit 5 of 00A2 is packet capture, which step 1 disables.
    pub const CAPTURE: u16 = 0x00A2;

    pub const COUNTER: u16 = 0x0035;

    pub const FLAG: u16 = 0xBD87;

    pub const STATUS: u16 = 0x007E;

    pub const BANKS: u16 = 0x007F;

    pub const CRC: u16 = 0x0094;

    // A write of the first `count` of four data bytes, with the PEC of all that goes out before it, by a lent table: a caller that
    // has made the table already does not make it again. Behind the PEC stand zeros. Address, command and data stay apart, as the page
    // names what goes out.
    #[tactic(auto, using(crate::proofs::Laws::laid))]
    pub fn write_with(
        address: u8,
        table: &[u8; 256],
        command: u8,
        count: usize,
        four: [u8; 4],
    ) -> Request
        ensures { result ≡ write_with address table.now command (take count four) }
    {
        let [a, b, c, d] = four;
        let body = [address, command, a, b, c, d];
        let sent = 2 + count.min(4);
        let code = pec::run_with(table, 0, &body[..sent]);
        let mut bytes = [
            address,
            command,
            kept(0, count, a),
            kept(1, count, b),
            kept(2, count, c),
            kept(3, count, d),
            0,
            0,
        ];
        bytes[sent] = code;
        Request {
            bytes,
            used: sent as u8 + 1,
            reads: false,
        }
    }

    // The same by the table of `pec`: another promise than `write_with`'s, which holds for any table.
    pub fn write(address: u8, command: u8, count: usize, four: [u8; 4]) -> Request
        ensures { result ≡ write_of address command (take count four) }
    {
        Bus::write_with(address, pec::lent(), command, count, four)
    }

    // The address that a device is read by, one more than the one that it is written to by.
    #[tactic(auto, unfolding(crate::specs::Bus::read_address))]
    pub fn read_address(address: u8) -> u8
        ensures { result ≡ read_address address }
    {
        address.wrapping_add(1)
    }

    // A read whose reply has so many bytes: 5 for a register, 6 for a block. The count is no byte of the bus.
    #[tactic(auto, unfolding(crate::specs::Bus::read_of, crate::specs::Bus::eight))]
    pub fn read(address: u8, command: u8, count: u8) -> Request
        ensures { result ≡ read_of address command count }
    {
        let again = Bus::read_address(address);
        Request {
            bytes: [address, command, again, count, 0, 0, 0, 0],
            used: 4,
            reads: true,
        }
    }

    // A request of zeros, which is none: it comes with a verdict. No Option: document 01 has zeros put out (`no_request`).
    #[tactic(auto, unfolding(crate::specs::Bus::no_request, crate::specs::Bus::eight))]
    pub fn none() -> Request
        ensures { result ≡ no_request }
    {
        Request {
            bytes: [0; 8],
            used: 0,
            reads: false,
        }
    }

    // Whether RESTORE_CFG may not be this code, which the guide uses for something else (14 SETTING).
    #[tactic(auto, unfolding(crate::specs::Bus::reserved, promise::specs::Lists::is_in))]
    pub fn reserved(command: u8) -> bool
        ensures { result ≡ reserved command }
    {
        matches!(
            command,
            Bus::DATA | Bus::SEQUENTIAL | Bus::POINT | Bus::ACT | Bus::IDENTITY | Bus::REVISION
        )
    }
}

// Why a reply is not in form: 20, 21 or 22.
#[derive(Clone, Copy, PartialEq, Eq)]
pub enum Misreply {
    Unanswered,
    Misshapen,
    Miscoded,
}

// The word at this place, lowest byte first, if the byte behind it is the PEC of what was asked and the bytes before it.
#[tactic(auto, unfolding(crate::specs::ReplyForm::word_at, crate::specs::ReplyForm::sealed_of))]
fn sealed(asked: [u8; 8], bytes: &[u8], at: usize) -> Result<u32, Misreply>
    requires { (at ≤ 1) × (length bytes.now ≡ at + 5) }
    ensures { result ≡ sealed_of asked bytes.now at }
{
    let last = at + 4;
    let start = pec::of(&asked[..3]);
    if pec::run(start, &bytes[..last]) == bytes[last] {
        Ok(u32::from_le_bytes([bytes[at], bytes[at + 1], bytes[at + 2], bytes[at + 3]]))
    } else {
        Err(Misreply::Miscoded)
    }
}

// A read's reply has as many bytes as it was asked for: five, or six of which the first is 4.
#[tactic(auto, unfolding(crate::specs::ReplyForm::read_form))]
fn read_form(asked: [u8; 8], bytes: &[u8]) -> Result<u32, Misreply>
    ensures { result ≡ read_form asked bytes.now }
{
    match bytes {
        _ if bytes.len() != asked[3] as usize => Err(Misreply::Misshapen),
        [_, _, _, _, _] => sealed(asked, bytes, 0),
        [4, _, _, _, _, _] => sealed(asked, bytes, 1),
        _ => Err(Misreply::Misshapen),
    }
}

impl Request {
    // The form of a reply to this request, tried at each reply before anything is read from it: the word that it tells, 0 for a write.
    // A host's kind is any byte, and one over 1 is 21 (`form_of`), so it stays a number.
    #[tactic(auto, unfolding(crate::specs::ReplyForm::form_of, crate::specs::ReplyForm::done_form))]
    pub fn form(self, kind: u8, bytes: &[u8]) -> Result<u32, Misreply>
        ensures { result ≡ form_of self kind bytes.now }
    {
        match kind {
            0 => Err(Misreply::Unanswered),
            1 if self.reads => read_form(self.bytes, bytes),
            1 if bytes.is_empty() => Ok(0),
            _ => Err(Misreply::Misshapen),
        }
    }
}
