// What the pins of ports A and B and the handshake pins show, and levels that come to the handshake pins (01, 'Registers', 'Mode 0').
ghost use Rattle.std.specs.Prelude.{◌≡◌};
ghost use Rattle.parallel.specs.Buffers.{edged};
ghost use Rattle.parallel.specs.Pins.{pins_of, asserts_of, second_edge, with_first, with_second, first_pin, second_pin, parallel_pinned, second_level};

use crate::Parallel;
use event::map;
use port::{Buffer, Link, Pair};

// A pin goes from one outside level to another: it comes to be asserted.
#[tactic(auto, unfolding(crate::specs::Pins::asserts_of))]
pub fn asserts(old: bool, new: bool, sense: bool) -> bool
    ensures { result ≡ asserts_of old new sense }
{
    (old != new) & (new == sense)
}

impl Parallel {
    // The eight pins of a pair's own port.
    #[tactic(auto, unfolding(crate::specs::Pins::pins_of))]
    pub fn pins(self, pair: Pair) -> u8
        ensures { result ≡ pins_of self pair }
    {
        let port = self.own(pair);
        bits::chosen(port.outside, port.cells.latch, port.direction)
    }

    // An asserted edge of H2 or H4. A pair is taken and put back here and where its control register is written, with other arguments: a
    // function over a closure for both is no plainer.
    #[tactic(auto, unfolding(crate::specs::Pins::second_edge))]
    fn second_edge(self, pair: Pair) -> Parallel
        ensures { result ≡ second_edge self pair }
    {
        self.with_link(pair, self.link(pair).second_edge(self.rules(pair)))
    }

    // H1 or H3 at a level: a field other than H2 and H4 have, so that one function for both would take a closure.
    #[tactic(auto, unfolding(crate::specs::Pins::with_first))]
    pub fn with_first(self, pair: Pair, level: bool) -> Parallel
        ensures { result ≡ with_first self pair level }
    {
        let link = Link {
            level1: level,
            ..self.link(pair)
        };
        self.with_link(pair, link)
    }

    // H2 or H4 at a level.
    #[tactic(auto, unfolding(crate::specs::Pins::with_second))]
    fn with_second(self, pair: Pair, level: bool) -> Parallel
        ensures { result ≡ with_second self pair level }
    {
        let link = Link {
            level2: level,
            ..self.link(pair)
        };
        self.with_link(pair, link)
    }

    // A pair's buffer after a level that is an asserted edge of H1 or H3, or is none.
    #[tactic(auto, unfolding(crate::specs::Buffers::edged))]
    #[inline(always)]
    fn edged(self, pair: Pair, edge: bool) -> Buffer
        ensures { result ≡ edged self pair edge }
    {
        let buffer = self.buffer(pair);
        if edge {
            buffer.edge(self.rules(pair), self.pins(pair))
        } else {
            buffer
        }
    }

    // A level comes to H1 or H3. Whether it is an edge is asked of the buffer alone: with two ways for ports and pairs the compiler copies
    // them as a whole (docs/PERFORMANCE.md).
    #[tactic(auto, unfolding(crate::specs::Pins::first_pin), using(crate::specs::Buffers::level_moves))]
    #[inline(always)]
    pub fn first_pin(self, pair: Pair, level: bool) -> Parallel
        ensures { result ≡ first_pin self pair level }
    {
        let edge = asserts(self.link(pair).level1, level, pair.first_sense(self.pgcr));
        let next = self.with_first(pair, level);
        next.with_buffer(pair, next.edged(pair, edge))
    }

    // A level comes to H2 or H4.
    #[tactic(auto, unfolding(crate::specs::Pins::second_pin))]
    pub fn second_pin(self, pair: Pair, level: bool) -> Parallel
        ensures { result ≡ second_pin self pair level }
    {
        let link = self.link(pair);
        if asserts(link.level2, level, pair.second_sense(self.pgcr)) {
            self.with_second(pair, level).second_edge(pair)
        } else {
            self.with_second(pair, level)
        }
    }

    // A level comes to any pin, as far as it concerns ports A and B and the pairs.
    #[tactic(auto, unfolding(crate::specs::Pins::parallel_pinned))]
    pub fn pin(mut self, pin: u8, level: bool) -> Parallel
        ensures { result ≡ parallel_pinned self pin level }
    {
        match pin {
            map::PA0..=map::PA7 => {
                self.a.outside = bits::with_bit(self.a.outside, pin, level);
                self
            }
            map::PB0..=map::PB7 => {
                self.b.outside = bits::with_bit(self.b.outside, pin - map::PB0, level);
                self
            }
            map::H1 => self.first_pin(Pair::H12, level),
            map::H2 => self.second_pin(Pair::H12, level),
            map::H3 => self.first_pin(Pair::H34, level),
            map::H4 => self.second_pin(Pair::H34, level),
            _ => self,
        }
    }

    // The level of H2 or H4.
    #[tactic(auto, unfolding(crate::specs::Pins::second_level))]
    pub fn second_level(self, pair: Pair) -> bool
        ensures { result ≡ second_level self pair }
    {
        self.link(pair)
            .second_level(self.rules(pair), pair.second_sense(self.pgcr))
    }
}
