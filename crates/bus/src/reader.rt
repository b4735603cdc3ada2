// The display's reader: it holds the packet that it reads and where it stands.
ghost use Rattle.std.specs.Prelude.{◌≡◌};
ghost use Rattle.bus.specs.Reading.{Hands, place_after};

use crate::packet;
use crate::packet::Step;

#[derive(Clone, Copy)]
pub struct Reader<'a> {
    pub packet: &'a [u8],
    pub at: usize,
}

impl<'a> Reader<'a> {
    // A reader that stands at a packet's start.
    pub fn open(packet: &'a [u8]) -> Reader<'a>
        ensures { (result.packet ≡ packet.entry) × (result.at ≡ 0) }
    {
        Reader { packet, at: 0 }
    }

    // The next row, and its text: the reader moves on, unless it is refused.
    pub fn advance(&mut self, row: &mut [u8], text: &mut [u8]) -> Step
        ensures { Hands self.old.packet.now self.old.at row.old text.old result row.new text.new × ((self.new.packet ≡ self.old.packet) × (self.new.at ≡ place_after self.old.at result)) }
    {
        let at = self.at;
        let x = packet::hand_out(self.packet, at, row, text);
        self.at = packet::next_place(x, at);
        x
    }

    // The same of a reader by value, which stays where it stands.
    pub fn next(self, row: &mut [u8], text: &mut [u8]) -> Step
        ensures { Hands self.entry.packet.now self.entry.at row.old text.old result row.new text.new }
    {
        packet::hand_out(self.packet, self.at, row, text)
    }
}

// For whoever holds the packet and the place apart: a reader is made there, and asked once.
pub fn read_at(packet: &[u8], at: usize, row: &mut [u8], text: &mut [u8]) -> Step
    ensures { Hands packet.now at row.old text.old result row.new text.new }
{
    Reader { packet, at }.next(row, text)
}
