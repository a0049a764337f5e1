// The 29 accepted identities (document 01, "The whole file").
ghost use Rattle.std.specs.Prelude.{◌≡◌};
ghost use Rattle.promise.specs.Lists.{is_in};
ghost use Rattle.image.specs.Parts.{parts};
ghost use Rattle.image.specs.Tests.{known_device};

use line::Line;

// Whether a middle byte is that of an accepted part: an arm for each row of the guide's table "Supported Devices", in its order, with
// the part's name and whole identity behind it. docs/PARTS.md has the rows to sign, and tests/check-parts compares.
#[tactic(auto, unfolding(promise::specs::Lists::is_in))]
fn known_part(middle: u8) -> bool
    ensures { result ≡ is_in middle parts }
{
    match middle {
        0x81 => true, // ISL69260  0x49D28100
        0x90 => true, // RAA228113 0x49D29000
        0xAF => true, // RAA228234 0x49D2AF00
        0xAE => true, // RAA228236 0x49D2AE00
        0x8F => true, // RAA228924 0x49D28F00
        0x8E => true, // RAA228926 0x49D28E00
        0xB4 => true, // RAA228928 0x49D2B400
        0xB2 => true, // RAA228929 0x49D2B200
        0xB3 => true, // RAA228930 0x49D2B300
        0xB5 => true, // RAA228931 0x49D2B500
        0xB6 => true, // RAA228932 0x49D2B600
        0x82 => true, // RAA229126 0x49D28200
        0x97 => true, // RAA229130 0x49D29700
        0x98 => true, // RAA229131 0x49D29800
        0x96 => true, // RAA229132 0x49D29600
        0x88 => true, // RAA229325 0x49D28800
        0x8A => true, // RAA229613 0x49D28A00
        0x9B => true, // RAA229620 0x49D29B00
        0x9C => true, // RAA229621 0x49D29C00
        0x8B => true, // RAA229625 0x49D28B00
        0x8D => true, // RAA229628 0x49D28D00
        0xA4 => true, // RAA229629 0x49D2A400
        0xA2 => true, // RAA229631 0x49D2A200
        0x9D => true, // RAA229638 0x49D29D00
        0x7F => true, // RAA229724 0x49D27F00
        0xB1 => true, // RAA229725 0x49D2B100
        0x80 => true, // RAA229726 0x49D28000
        0x86 => true, // RAA229817 0x49D28600
        0x87 => true, // RAA229828 0x49D28700
        _ => false,
    }
}

// Whether line 1 holds one of them.
#[tactic(auto, unfolding(crate::specs::Tests::known_device))]
pub(crate) fn known_device(l: Line) -> bool
    ensures { result ≡ known_device l }
{
    match l.bytes {
        [0x49, 0xD2, middle, 0] => known_part(middle),
        _ => false,
    }
}
