// A pair by its name, its own port, and what the registers say of it (01, 'Mode 0').
ghost use Rattle.std.specs.Prelude.{◌≡◌};
ghost use Rattle.parallel.specs.Buffers.{buffer_of, with_buffer};
ghost use Rattle.port.specs.declared.Buffer.{Buffer};
ghost use Rattle.parallel.specs.Parts.{with_links, link_of, with_link, own_port, rules_at};

use crate::Parallel;
use port::{Buffer, Link, Pair, Port, Rules};

impl Parallel {
    // A pair.
    #[tactic(auto, unfolding(crate::specs::Parts::link_of))]
    pub(crate) fn link(self, pair: Pair) -> Link
        ensures { result ≡ link_of self pair }
    {
        pair.pick(self.h12, self.h34)
    }

    // Another pair in its place.
    #[tactic(auto, unfolding(crate::specs::Parts::with_link))]
    pub(crate) fn with_link(mut self, pair: Pair, link: Link) -> Parallel
        ensures { result ≡ with_link self pair link }
    {
        match pair {
            Pair::H12 => self.h12 = link,
            Pair::H34 => self.h34 = link,
        }
        self
    }

    // Other pairs in the places of both.
    pub fn with_links(mut self, one: Link, two: Link) -> Parallel
        ensures { result ≡ with_links self one two }
    {
        self.h12 = one;
        self.h34 = two;
        self
    }

    // A pair's own port: A of H1 and H2, B of H3 and H4.
    #[tactic(auto, unfolding(crate::specs::Parts::own_port))]
    pub(crate) fn own(self, pair: Pair) -> Port
        ensures { result ≡ own_port self pair }
    {
        pair.pick(self.a, self.b)
    }

    // A pair with the cells of its own port.
    pub fn buffer(self, pair: Pair) -> Buffer
        ensures { result ≡ buffer_of self pair }
    {
        Buffer {
            cells: self.own(pair).cells,
            link: self.link(pair),
        }
    }

    // Others in their place: other fields than `with_link` sets.
    #[tactic(auto, unfolding(crate::specs::Buffers::with_buffer))]
    pub fn with_buffer(mut self, pair: Pair, buffer: Buffer) -> Parallel
        ensures { result ≡ with_buffer self pair buffer }
    {
        match pair {
            Pair::H12 => {
                self.a.cells = buffer.cells;
                self.h12 = buffer.link;
            }
            Pair::H34 => {
                self.b.cells = buffer.cells;
                self.h34 = buffer.link;
            }
        }
        self
    }

    // A pair's buffer after a step that the pair's rules guide.
    pub(crate) fn stepped<F: FnOnce(Buffer, Rules) -> Buffer>(self, pair: Pair, step: F) -> Parallel
        requires { F.IsAlwaysCallable step }
        ensures { (b : Buffer) × F.post step (buffer_of self pair) (rules_at self pair) b × (result ≡ with_buffer self pair b) }
    {
        self.with_buffer(pair, step(self.buffer(pair), self.rules(pair)))
    }

    // What the registers say of a pair.
    #[tactic(auto, unfolding(crate::specs::Parts::rules_at))]
    pub fn rules(self, pair: Pair) -> Rules
        ensures { result ≡ rules_at self pair }
    {
        Rules::of(pair, self.pgcr, self.link(pair).control)
    }
}
