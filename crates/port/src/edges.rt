// Edges of a pair's pins, and H2 restarted (01, 'Mode 0').
ghost use Rattle.std.specs.Prelude.{◌≡◌};
ghost use Rattle.port.specs.Edges.{restarted_of, flushed_of, first_edge, second_edge};

use crate::{Link, Rules};

impl Link {
    // H2 restarted, the elements kept.
    #[tactic(auto, unfolding(crate::specs::Edges::restarted_of))]
    pub(crate) fn restarted(mut self, rules: Rules) -> Link
        ensures { result ≡ restarted_of self rules }
    {
        self.strobe = rules.begun(self.held);
        self
    }

    // Emptied, edge flags cleared and H2 restarted.
    #[tactic(auto, unfolding(crate::specs::Edges::flushed_of))]
    pub(crate) fn flushed(mut self, rules: Rules) -> Link
        ensures { result ≡ flushed_of self rules }
    {
        self.held = 0;
        self.flag1 = false;
        self.flag2 = false;
        self.restarted(rules)
    }

    // An asserted edge of H1.
    #[tactic(auto, unfolding(crate::specs::Edges::first_edge))]
    pub fn first_edge(mut self, rules: Rules) -> Link
        ensures { result ≡ first_edge self rules }
    {
        if rules.accepts(self.held, self.strobe.asserted) {
            self.held = rules.way.moved_count(self.held);
            return self.restarted(rules);
        }
        if rules.enabled & rules.way.direct() {
            self.flag1 = true;
        }
        self
    }

    // An asserted edge of H2.
    #[tactic(auto, unfolding(crate::specs::Edges::second_edge))]
    pub fn second_edge(mut self, rules: Rules) -> Link
        ensures { result ≡ second_edge self rules }
    {
        if rules.enabled & rules.handshake.senses() {
            self.flag2 = true;
        }
        self
    }
}
