//! Numbers that are drawn one behind another.
ghost use Rattle.std.specs.Prelude.{◌≡◌, ◌<◌};
ghost use Rattle.load_schedules.specs.Draws.{answer, next_state};

use std::marker::Model;

const MULTIPLIER: u64 = 6_364_136_223_846_793_005;

const INCREMENT: u64 = 1_442_695_040_888_963_407;

/// Numbers that are still to be drawn. Contracts see the state that they are drawn from.
#[derive(Drop)]
pub(crate) struct Draws {
    state: u64,
}

impl Model for Draws {
    ghost use Rattle.std.specs.Prelude.{ℕ};

    ghost Value = { ℕ };

    ghost view = { λ d. d.state };
}

impl Draws {
    /// The draws that begin with this state.
    pub(crate) fn new(state: u64) -> Self
        ensures { result ≡ state }
    {
        Draws { state }
    }

    /// Draws a number below the limit.
    #[tactic(auto, unfolding(crate::specs::Draws::next_state, crate::specs::Draws::answer))]
    pub(crate) fn below(&mut self, limit: u64) -> u64
        requires { 0 < limit }
        ensures state { self.new ≡ next_state self.old }
        ensures answer { result ≡ answer limit self.new }
        ensures below { result < limit }
    {
        self.state = self.state.wrapping_mul(MULTIPLIER).wrapping_add(INCREMENT);
        (self.state >> 33) % limit
    }
}
