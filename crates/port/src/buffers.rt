// A port's cells with the pair that moves them: what an edge of the pair's first pin, a data read and a data write change (01, 'Mode 0').
ghost use Rattle.std.specs.Prelude.{◌≡◌};
ghost use Rattle.port.specs.Buffers.{buffer_edge, buffer_read, buffer_written};

use crate::{Buffer, Rules};

impl Buffer {
    // An asserted edge of H1, with what the port's pins show.
    #[tactic(auto, unfolding(crate::specs::Buffers::buffer_edge))]
    pub fn edge(self, rules: Rules, pins: u8) -> Buffer
        ensures { result ≡ buffer_edge self rules pins }
    {
        let on = rules.accepts(self.link.held, self.link.strobe.asserted);
        Buffer {
            cells: self.cells.moved(on, rules.way, self.link.held, pins),
            link: self.link.first_edge(rules),
        }
    }

    // A data read: in mode 0 the pair moves its own port's cells, so `on`, which is of the public contract of `Cells::drawn`, holds.
    #[tactic(auto, unfolding(crate::specs::Buffers::buffer_read))]
    pub fn read(self, rules: Rules) -> Buffer
        ensures { result ≡ buffer_read self rules }
    {
        if rules.way.inputs() {
            Buffer {
                cells: self.cells.drawn(true, self.link.held),
                link: self.link.read(rules),
            }
        } else {
            self
        }
    }

    // A data write, `on` as for a read (`Cells::put`).
    #[tactic(auto, unfolding(crate::specs::Buffers::buffer_written))]
    pub fn written(mut self, rules: Rules, v: u8) -> Buffer
        ensures { result ≡ buffer_written self rules v }
    {
        if rules.way.outputs() {
            Buffer {
                cells: self.cells.put(true, rules.enabled, self.link.held, v),
                link: self.link.written(rules),
            }
        } else {
            self.cells.latch = v;
            self
        }
    }
}
