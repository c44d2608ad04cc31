// The generator of the source, `TinyPrng`, and the shuffle of a cut order by it.
#![tactic(auto)]

ghost use Rattle.std.specs.Prelude.{◌≡◌, ℕ, ◌<◌};
ghost use Rattle.model.specs.TinyPrng.{next_state, value_of, index_of};

pub mod shuffle; // The shuffle of a cut order

use std::marker::Model;

// ---- by value

// The state after a step.
#[tactic(auto, unfolding(model::specs::TinyPrng::next_state))]
fn next_state(state: u64) -> u64
    ensures { result ≡ next_state state }
{
    state.wrapping_add(0x9E37_79B9_7F4A_7C15)
}

// The value of a state that a step has reached.
#[tactic(auto, unfolding(model::specs::TinyPrng::value_of))]
fn value_of(state: u64) -> u64
    ensures { result ≡ value_of state }
{
    let a = (state ^ (state >> 30)).wrapping_mul(0xBF58_476D_1CE4_E5B9);
    let b = (a ^ (a >> 27)).wrapping_mul(0x94D0_49BB_1331_11EB);
    b ^ (b >> 31)
}

// ---- lent and advanced in place

// A contract sees a generator as its state.
#[derive(Drop)]
pub struct TinyPrng {
    state: u64,
}

impl Model for TinyPrng {
    ghost Value = { ℕ };

    ghost view = { λ g. g.state };
}

impl TinyPrng {
    pub fn new(seed: u64) -> Self
        ensures { result ≡ seed }
    {
        Self { state: seed }
    }

    // The state, to go on from by `new`.
    pub fn state(&self) -> u64
        ensures { result ≡ self.now }
    {
        self.state
    }

    pub fn next_u64(&mut self) -> u64
        ensures value { result ≡ value_of (next_state self.old) }
        ensures state { self.new ≡ next_state self.old }
    {
        let state = next_state(self.state);
        *self = Self { state };
        value_of(state)
    }

    // The next value, brought below a bound, as a place in a list.
    #[tactic(auto, unfolding(model::specs::TinyPrng::index_of))]
    pub fn next_index(&mut self, upper: usize) -> usize
        requires { 0 < upper }
        ensures value { result ≡ index_of (next_state self.old) upper }
        ensures state { self.new ≡ next_state self.old }
    {
        (self.next_u64() % upper as u64) as usize
    }
}
