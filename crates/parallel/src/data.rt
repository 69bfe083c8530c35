// Reads and writes of data A and B (01, 'Mode 0').
ghost use Rattle.std.specs.Prelude.{◌≡◌};
ghost use Rattle.parallel.specs.Data.{read_data, write_data};

use crate::Parallel;
use port::{Buffer, Pair};

impl Parallel {
    // The byte that a read of the data register of a pair's own port gives.
    #[tactic(auto, unfolding(crate::specs::Data::read_data))]
    pub fn byte(self, pair: Pair) -> u8
        ensures { result ≡ (read_data self pair).byte }
    {
        let port = self.own(pair);
        if self.rules(pair).way.inputs() {
            let oldest = port.cells.oldest(self.link(pair).held);
            bits::chosen(oldest, port.cells.latch, port.direction)
        } else {
            bits::chosen(self.pins(pair), port.cells.latch, port.direction)
        }
    }

    // What that read leaves: in submode 00 it removes the oldest element.
    #[tactic(auto, using(crate::specs::Buffers::read_moves))]
    #[inline]
    pub fn read(self, pair: Pair) -> Parallel
        ensures { result ≡ (read_data self pair).parallel }
    {
        self.stepped(pair, Buffer::read)
    }

    // A write of the data register of a pair's own port.
    #[tactic(auto, using(crate::specs::Buffers::write_moves))]
    pub fn write(self, pair: Pair, v: u8) -> Parallel
        ensures { result ≡ write_data self pair v }
    {
        self.stepped(pair, |buffer, rules| buffer.written(rules, v))
    }
}
