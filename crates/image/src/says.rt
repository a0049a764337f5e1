// What a line says, by its data bytes.
ghost use Rattle.std.specs.Prelude.{◌≡◌};
ghost use Rattle.image.specs.Says.{identity_of, id_of, crc_of, is_c6};

use bus::Bus;
use counts::ConfigId;
use line::Line;

// The device identity, highest byte first.
#[tactic(auto, unfolding(crate::specs::Says::identity_of, crate::specs::Says::word))]
pub(crate) fn identity_of(l: Line) -> u32
    ensures { result ≡ identity_of l }
{
    u32::from_be_bytes(l.bytes)
}

// The identifier: the line's tenth digit.
#[tactic(auto, unfolding(crate::specs::Says::id_of))]
pub(crate) fn id_of(l: Line) -> ConfigId
    ensures { result ≡ id_of l }
{
    ConfigId(l.bytes[0] % 16)
}

// The configuration CRC, lowest byte first.
#[tactic(auto, unfolding(crate::specs::Says::crc_of, crate::specs::Says::word))]
pub(crate) fn crc_of(l: Line) -> u32
    ensures { result ≡ crc_of l }
{
    u32::from_le_bytes(l.bytes)
}

// Identifier and CRC lines carry this command.
#[tactic(auto, unfolding(crate::specs::Says::is_c6))]
pub(crate) fn is_c6(l: Line) -> bool
    ensures { result ≡ is_c6 l }
{
    l.command == Bus::SEQUENTIAL
}
