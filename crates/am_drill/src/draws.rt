//! Numbers that follow from one number.
ghost use Rattle.std.specs.Prelude.{◌≡◌, ◌<◌, ◌%◌};
ghost use Rattle.am_drill.specs.Draws.{given, next, seed};

use std::marker::Model;

/// Draws from a linear congruential generator. Contracts see the number that the next draw is made from.
#[derive(Drop)]
pub struct Draws {
    state: u64,
}

/// The number below which the states are.
const STATES: u64 = 2_147_483_648;

impl Model for Draws {
    ghost use Rattle.std.specs.Prelude.{ℕ, ◌<◌};

    ghost Value = { ℕ };

    ghost view = { λ d. d.state };

    ghost invariant = { λ d. d.state < 2147483648 };
}

impl Draws {
    /// The draws that begin with a number. Takes no memory.
    #[tactic(auto, unfolding(crate::specs::Draws::seed))]
    pub fn new(number: u64) -> Draws
        ensures { result ≡ seed number }
    {
        Draws {
            state: number % STATES,
        }
    }

    /// A draw below this number. Takes no memory.
    pub fn below(&mut self, most: u32) -> u32
        requires some { 0 < most }
        ensures drawn { result ≡ given self.new % most }
        ensures below { result < most }
        ensures goes_on { self.new ≡ next self.old }
    {
        self.advance();
        (self.value() % u64::from(most)) as u32
    }

    // Makes one draw.
    #[tactic(auto, unfolding(crate::specs::Draws::next))]
    fn advance(&mut self)
        ensures { self.new ≡ next self.old }
    {
        self.state = (self.state * 1_103_515_245 + 12_345) % STATES;
    }

    // What the last draw gave.
    #[tactic(auto, unfolding(crate::specs::Draws::given))]
    fn value(&self) -> u64
        ensures { result ≡ given self.now }
    {
        self.state / 65_536
    }
}
