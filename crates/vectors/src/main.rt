// Replays a corpus from standard input: pairs of a project file and the text that the published Rust printed for it, each behind its length in four
// bytes, the lowest first. Says how many of the planner's texts are equal, and the first pair that differs.
#![tactic(auto)]

ghost use Rattle.std.specs.Prelude.{◌≡◌, length};
ghost use Rattle.vectors.specs.Replay.{first_part, behind_part, is_equal, no_pairs, replayed, zeros};

use std::io;
use words::append::Buffer;

// What a replay found: how many pairs there are and how many are equal, and the number of the first that differs, counted from one on.
#[derive(Default, Drop)]
struct Tally {
    pairs: usize,
    equal: usize,
    first_other: Option<usize>,
}

// The part that a corpus begins with, and what is behind it. Where the corpus ends before the part does, the part is what there is.
fn split_part(corpus: &[u8]) -> (&[u8], &[u8])
    ensures part { result.0.now ≡ first_part corpus.now }
    ensures behind { result.1.now ≡ behind_part corpus.now }
{
    match corpus.split_first_chunk() {
        Some((size, rest)) => rest.split_at(rest.len().min(u32::from_le_bytes(*size) as usize)),
        None => (&[], &[]),
    }
}

// Whether the text is the planner's for the file.
fn is_equal(file: &[u8], text: &[u8]) -> bool
    ensures { result ≡ is_equal file.now text.now }
{
    let mut printed = Buffer::<65_536>::new();
    text::put_answer(file, &mut printed);
    printed.as_slice() == text
}

// It goes on while there is a pair; how long a pair is, its own words say.
fn replay(corpus: &[u8]) -> Tally
    ensures { result ≡ replayed (length corpus.now) no_pairs corpus.now }
{
    let mut tally = Tally::default();
    let mut rest = corpus;
    while !rest.is_empty() {
        let (file, behind) = split_part(rest);
        let (text, behind) = split_part(behind);
        tally.pairs += 1;
        if is_equal(file, text) {
            tally.equal += 1;
        } else {
            tally.first_other = tally.first_other.or(Some(tally.pairs));
        }
        rest = behind;
    }
    tally
}

fn tell(rt: &impl Print, tally: Tally) -> io::Result<()> {
    let Tally {
        pairs,
        equal,
        first_other,
    } = tally;
    println!(rt; "{equal} of {pairs} equal")?;
    if let Some(pair) = first_other {
        println!(rt; "the first that differs is pair {pair}")?;
    }
    Ok(())
}

// Room for a corpus. Its length is said by a contract, so that no proof has to count it.
fn room() -> [u8; 1_048_576]
    ensures empty { result ≡ zeros 1_048_576 }
    ensures size { 1_048_576 ≡ length result }
{
    [0; 1_048_576]
}

fn main(rt: HostRuntime) -> io::Result<()> {
    let mut corpus = room();
    let size = reading::read_full(&mut rt.stdin(), &mut corpus)?;
    tell(&rt, replay(&corpus[..size]))
}
