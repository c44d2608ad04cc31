// The shuffle of a cut order.

ghost use Rattle.std.specs.Prelude.{◌≡◌};
ghost use Rattle.generator.specs.Shuffle.{shuffled};

use crate::TinyPrng;

// shuffle_cut_order, of an order that is sorted already: numbers stand for the cuts' keys.
pub fn shuffle_cut_order(order: &mut [u32], seed: u64)
    ensures { order.new ≡ shuffled 0 seed order.old }
{
    let mut prng = TinyPrng::new(seed);
    for index in (1..order.len()).rev() {
        order.swap(index, prng.next_index(index + 1));
    }
}
