//! Where the numbers of a generated song come from.

ghost use Rattle.std.specs.Prelude.{◌≡◌, ◌<◌};
ghost use Rattle.ft_xmwrite.specs.Generate.{draw};

use std::marker::Model;

/// Draws numbers, one after the other, from a state of 32 bits. Before each, the state becomes
/// `1664525 * state + 1013904223`, modulo 2 ^ 32.
#[derive(Drop)]
pub struct Draws {
    state: u32,
}

impl Model for Draws {
    ghost use Rattle.std.specs.Prelude.{ℕ};

    ghost Value = { ℕ };

    ghost view = { λ draws. draws.state };
}

impl Draws {
    /// Begins with this state.
    pub fn new(state: u32) -> Draws
        ensures { result ≡ state }
    {
        Draws { state }
    }

    /// A number below `n`: the high 16 bits of the next state, modulo `n`.
    #[tactic(auto, unfolding(crate::specs::Generate::draw, crate::specs::Generate::next))]
    pub fn draw(&mut self, n: u32) -> u32
        requires { 0 < n }
        ensures value { result ≡ (draw n self.old).0 }
        ensures state { self.new ≡ (draw n self.old).1 }
        ensures below { result < n }
    {
        self.state = self
            .state
            .wrapping_mul(1_664_525)
            .wrapping_add(1_013_904_223);
        self.state / 65536 % n
    }
}
