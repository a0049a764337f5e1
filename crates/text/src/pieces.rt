// The pieces that a page takes.
ghost use Rattle.text.specs.Text.{hex, decimal};
ghost use Rattle.text.specs.Page.{PutsOn};

use crate::{Page, put_bytes, put_decimal, put_hex};

impl Page<'_> {
    // Bytes as they stand.
    pub fn bytes(&mut self, bytes: &[u8])
        ensures { PutsOn self.old bytes.now self.new }
    {
        self.at = put_bytes(self.room, self.at, bytes);
    }

    // A number in so many hex digits.
    pub fn hex<const WIDTH: usize>(&mut self, n: u32)
        ensures { PutsOn self.old (hex WIDTH n) self.new }
    {
        self.at = put_hex::<WIDTH>(self.room, self.at, n);
    }

    // A number in decimal, with no zeros before it.
    pub fn decimal(&mut self, n: u64)
        ensures { PutsOn self.old (decimal n) self.new }
    {
        self.at = put_decimal(self.room, self.at, n);
    }
}
