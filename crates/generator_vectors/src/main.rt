// Writes published outputs of SplitMix64, from the seeds 1234567 and 0, one to a line, and the shuffles of ten numbers at
// the seeds 0 and 1.
#![tactic(auto)]

use generator::{TinyPrng, shuffle};
use std::io;

fn write_outputs(rt: &impl Print, seed: u64, count: usize) -> io::Result<()> {
    let mut prng = TinyPrng::new(seed);
    for _ in 0..count {
        println!(rt; "{}", prng.next_u64())?;
    }
    Ok(())
}

fn write_shuffle(rt: &impl Print, seed: u64) -> io::Result<()> {
    let mut order = [0u32, 1, 2, 3, 4, 5, 6, 7, 8, 9];
    shuffle::shuffle_cut_order(&mut order, seed);
    for n in order {
        print!(rt; "{n} ")?;
    }
    println!(rt)
}

fn main(rt: HostRuntime) -> io::Result<()> {
    write_outputs(&rt, 1234567, 5)?;
    write_outputs(&rt, 0, 3)?;
    write_shuffle(&rt, 0)?;
    write_shuffle(&rt, 1)
}
