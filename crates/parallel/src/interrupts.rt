// Statuses, PSR, the port interrupt request and the port acknowledge (01, 'Interrupts', 'Registers').
ghost use Rattle.std.specs.Prelude.{◌≡◌};
ghost use Rattle.interrupt.specs.Enabling.{any_of};
ghost use Rattle.parallel.specs.Interrupts.{first_status_of, second_status_of, statuses_of, psr_of, enabled_of, port_acknowledge};

use crate::Parallel;
use interrupt::Flags;
use interrupt::answering::acknowledge;
use port::Pair;

impl Parallel {
    // H1S or H3S.
    #[tactic(auto, unfolding(crate::specs::Interrupts::first_status_of))]
    fn first_status(self, pair: Pair) -> bool
        ensures { result ≡ first_status_of self pair }
    {
        self.link(pair).first_status(self.rules(pair))
    }

    // H2S or H4S.
    #[tactic(auto, unfolding(crate::specs::Interrupts::second_status_of))]
    fn second_status(self, pair: Pair) -> bool
        ensures { result ≡ second_status_of self pair }
    {
        self.link(pair).second_status(self.rules(pair))
    }

    // H1S to H4S.
    #[tactic(auto, unfolding(crate::specs::Interrupts::statuses_of))]
    fn statuses(self) -> Flags
        ensures { result ≡ statuses_of self }
    {
        Flags {
            h1: self.first_status(Pair::H12),
            h2: self.second_status(Pair::H12),
            h3: self.first_status(Pair::H34),
            h4: self.second_status(Pair::H34),
        }
    }

    // PSR.
    #[tactic(auto, unfolding(crate::specs::Interrupts::psr_of))]
    pub fn psr(self) -> u8
        ensures { result ≡ psr_of self }
    {
        let set = self.statuses();
        bits::packed(
            self.second_level(Pair::H34),
            self.h34.level1,
            self.second_level(Pair::H12),
            self.h12.level1,
            set.h4,
            set.h3,
            set.h2,
            set.h1,
        )
    }

    // The statuses that are set and enabled.
    #[tactic(auto, unfolding(crate::specs::Interrupts::enabled_of))]
    fn enabled(self) -> Flags
        ensures { result ≡ enabled_of self }
    {
        self.statuses()
            .enabled(self.h12.control, self.h34.control, self.psrr)
    }

    // An enabled status is set.
    #[tactic(auto, unfolding(crate::specs::Interrupts::enabled_of))]
    pub fn requests(self) -> bool
        ensures { result ≡ any_of (enabled_of self) }
    {
        self.enabled().any()
    }

    // A port acknowledge, which changes nothing.
    #[tactic(auto, unfolding(crate::specs::Interrupts::port_acknowledge))]
    pub fn acknowledge(self) -> Option<u8>
        ensures { result ≡ port_acknowledge self }
    {
        acknowledge(self.psrr, self.pivr, self.enabled())
    }
}
