// Writes of PGCR, of a pair's control register and of PSR (01, 'Mode 0').
ghost use Rattle.std.specs.Prelude.{◌≡◌};
ghost use Rattle.port.specs.Switching.{begins_of, pgcr_written, control_written, flags_cleared_of};

use crate::control::{handshake_field, mode, submode_field};
use crate::{Link, Pair, Rules};

impl Link {
    // Readiness begins, where it now holds.
    #[tactic(auto, unfolding(crate::specs::Switching::begins_of))]
    fn begins(mut self, rules: Rules) -> Link
        ensures { result ≡ begins_of self rules }
    {
        if rules.ready(self.held) {
            self.strobe = self.strobe.readied(rules);
        }
        self
    }

    // PGCR is written.
    #[tactic(auto, unfolding(crate::specs::Switching::pgcr_written))]
    pub fn pgcr_written(self, pair: Pair, old: u8, new: u8) -> Link
        ensures { result ≡ pgcr_written self pair old new }
    {
        let same = mode(old) == mode(new);
        let on = pair.enabled(new);
        if same & (pair.enabled(old) == on) {
            return self;
        }
        let rules = Rules::of(pair, new, self.control);
        if same & on {
            self.begins(rules)
        } else {
            self.flushed(rules)
        }
    }

    // The control register is written.
    #[tactic(auto, unfolding(crate::specs::Switching::control_written))]
    pub fn control_written(mut self, pair: Pair, pgcr: u8, v: u8) -> Link
        ensures { result ≡ control_written self pair pgcr v }
    {
        let old = self.control;
        let rules = Rules::of(pair, pgcr, v);
        self.control = v;
        if submode_field(old) != submode_field(v) {
            return self.flushed(rules);
        }
        let was = handshake_field(old);
        let is = handshake_field(v);
        if was == is {
            return self;
        }
        if (was >= 4) | (is >= 4) {
            self.flag2 = false;
        }
        self.restarted(rules)
    }

    // Ones written to PSR clear edge flags.
    pub fn flags_cleared(mut self, one: bool, two: bool) -> Link
        ensures { result ≡ flags_cleared_of self one two }
    {
        self.flag1 = self.flag1 & !one;
        self.flag2 = self.flag2 & !two;
        self
    }
}
