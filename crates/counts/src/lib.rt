// The four counts that the guide keeps apart, the place in a line, the two kinds of file, and the file's own formulas between the
// counts (document 01, "The whole file"). Nothing else turns one count into another.
#![tactic(auto)]

ghost use Rattle.std.specs.Prelude.{◌≡◌, ◌+◌, ◌-◌};
ghost use Rattle.counts.specs.Counts.{kind_of, line_count, configs_of, up_to8, identifier_line, crc_line, bank_of, first_line, step_of, crc_place};

// A line of the file, counted from 1; 0 where a refusal names no line.
#[derive(Clone, Copy, PartialEq, Eq)]
pub struct LineNumber(pub u32);

// A place in a line, in bytes, counted from 1; 0 where a refusal names no line (request R-1). No formula leads to it or from it.
#[derive(Clone, Copy, PartialEq, Eq)]
pub struct Place(pub usize);

// A configuration of the file, counted from 0.
#[derive(Clone, Copy, PartialEq, Eq)]
pub struct ConfigNumber(pub u8);

// A bank of the device, counted from 0.
#[derive(Clone, Copy, PartialEq, Eq)]
pub struct Bank(pub u8);

// What the file calls a configuration, 0 to 15.
#[derive(Clone, Copy, PartialEq, Eq)]
pub struct ConfigId(pub u8);

#[derive(Clone, Copy, PartialEq, Eq)]
pub enum Kind {
    Legacy,
    Production,
}

impl Kind {
    // The kind of file that the revision's first byte says.
    #[tactic(auto, unfolding(crate::specs::Counts::kind_of))]
    pub fn of_revision(first: u8) -> Option<Kind>
        ensures { result ≡ kind_of first }
    {
        match first {
            0..=1 => Some(Kind::Legacy),
            6..=7 => Some(Kind::Production),
            _ => None,
        }
    }

    // The lines that each configuration takes.
    fn step(self) -> u16
        ensures { result ≡ step_of self }
    {
        match self {
            Kind::Legacy => 337,
            Kind::Production => 363,
        }
    }

    // The CRC line of configuration 0.
    fn crc_place(self) -> u16
        ensures { result ≡ crc_place self }
    {
        match self {
            Kind::Legacy => 276,
            Kind::Production => 290,
        }
    }

    // The lines of a file of so many configurations.
    pub fn lines(self, configs: u8) -> u32
        ensures { result ≡ line_count self configs }
    {
        12 + self.step() as u32 * configs as u32
    }

    // The configurations of a file of so many lines: 1 to 8, and 0 where the lines fit none. No Option: `configs_of` says the number,
    // and that promise stays.
    #[tactic(auto, unfolding(crate::specs::Counts::configs_of))]
    pub fn configs(self, lines: u32) -> u8
        ensures { result ≡ configs_of self lines }
    {
        let step = self.step() as u32;
        if lines % step == 12 && lines / step <= 8 {
            (lines / step) as u8
        } else {
            0
        }
    }

    // The line with a configuration's identifier.
    pub fn identifier_line(self, config: ConfigNumber) -> LineNumber
        ensures { result ≡ identifier_line self config }
    {
        LineNumber(self.step() as u32 * config.0 as u32 + 12)
    }

    // The line with a configuration's CRC.
    pub fn crc_line(self, config: ConfigNumber) -> LineNumber
        ensures { result ≡ crc_line self config }
    {
        LineNumber(self.step() as u32 * config.0 as u32 + self.crc_place() as u32)
    }

    // From a configuration's identifier line to its CRC line.
    pub fn lines_to_crc(self) -> u32
        ensures { result ≡ crc_place self - 12 }
    {
        self.crc_place() as u32 - 12
    }

    // From a configuration's CRC line to the eleventh line before the next identifier line.
    pub fn lines_behind_crc(self) -> u32
        ensures { result ≡ step_of self + 1 - crc_place self }
    {
        self.step() as u32 + 1 - self.crc_place() as u32
    }
}

impl ConfigNumber {
    // Configuration N reports in bank N, whatever its identifier.
    pub fn bank(self) -> Bank
        ensures { result ≡ bank_of self }
    {
        Bank(self.0)
    }
}

impl LineNumber {
    // The first write line.
    pub fn first_write() -> LineNumber
        ensures { result ≡ first_line }
    {
        LineNumber(5)
    }
}
