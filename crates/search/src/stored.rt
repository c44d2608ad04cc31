// A candidate at rest in 130 words of the workspace. Word 0: how many sheets. Word 1: how many cuts are placed. Words 2 to 65: the boards. From word 66: the
// insertions, then the unused cuts, at most 64 together.

ghost use Rattle.std.specs.Prelude.{◌≡◌, ◌+◌, ◌*◌, ◌≤◌, length, get_or};
ghost use Rattle.lists.specs.Parts.{patch};
ghost use Rattle.search.specs.Slots.{slot_words, slot_of, unpacked, stored_in, store_in, Storable};

use candidate::Candidate;
use words::copying;
use words::word_list::WordList;

// The words of a slot.
pub const STORED: usize = 130;

// Slots that follow one another: the first, and how many they are. What stands in them, and how many they may be, is said by the clauses of the
// functions that use them.
#[derive(Clone, Copy)]
pub struct Slots {
    pub base: usize,
    pub count: usize,
}

pub fn store_at(ws: &mut [u32], slot: usize, c: &Candidate)
    requires { (slot_words * slot + slot_words ≤ length ws.old) × Storable c.now }
    ensures { ws.new ≡ store_in ws.old slot c.now }
{
    let at = STORED * slot;
    let placed = c.insertions.len();
    ws[at] = c.sheets as u32;
    ws[at + 1] = placed as u32;
    copying::put_words(ws, at + 2, &c.boards);
    copying::put_words(ws, at + 66, c.insertions.as_slice());
    copying::put_words(ws, at + 66 + placed, c.unused.as_slice());
}

// A slot's candidate of so many cuts.
fn load(block: &[u32], cuts: usize) -> Candidate
    requires { (length block.now ≡ slot_words) × (get_or block.now 1 0 ≤ cuts) × (cuts ≤ 64) }
    ensures { result ≡ unpacked cuts block.now }
{
    let placed = block[1] as usize;
    let mut boards = [0u32; 64];
    boards.copy_from_slice(&block[2..66]);
    Candidate {
        boards,
        sheets: block[0] as usize,
        insertions: WordList::of(&block[66..66 + placed]),
        unused: WordList::of(&block[66 + placed..66 + cuts]),
    }
}

pub fn load_at(ws: &[u32], slot: usize, cuts: usize) -> Candidate
    requires { (slot_words * slot + slot_words ≤ length ws.now) × (get_or (slot_of ws.now slot) 1 0 ≤ cuts) × (cuts ≤ 64) }
    ensures { result ≡ stored_in ws.now slot cuts }
{
    let at = STORED * slot;
    load(&ws[at..at + STORED], cuts)
}

// One slot over another.
pub fn copy_stored(ws: &mut [u32], from: usize, to: usize)
    requires { (slot_words * from + slot_words ≤ length ws.old) × (slot_words * to + slot_words ≤ length ws.old) }
    ensures { ws.new ≡ patch ws.old (slot_words * to) (slot_of ws.old from) }
{
    let at = STORED * from;
    ws.copy_within(at..at + STORED, STORED * to);
}
