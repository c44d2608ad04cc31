// What the search makes of candidates. One has its least fit sheet taken apart (`compact_worst_bin_for_repair`). The child of two has the boards of the
// first and the fittest sheet of the second (`crossover_child_from_donor_bin`).

ghost use Rattle.std.specs.Prelude.{◌≡◌, ◌==◌, [], map, ◌≤◌, ◌<◌, ◌+◌, length, position};
ghost use Rattle.candidate.specs.Stands.{placed_words, unused_numbers, candidate_in, Stands};
ghost use Rattle.candidate.specs.Entries.{cut_of};
ghost use Rattle.candidate.specs.OnSheets.{IsBestDonor};
ghost use Rattle.candidate.specs.Donated.{place_among, with_insertions, with_unused_cuts, donated, others_than, sheet_of};
ghost use Rattle.candidate.specs.Children.{IsChildOf};
ghost use Rattle.candidate.specs.Compact.{put_back, apart, Compacted};

use super::{evaluation, placing};
use crate::Candidate;
use model::BaselineGuillotineHeuristic;
use project::problem::ProblemInstance;
use sheet::free_rects::FreeRects;

// ---- compaction

// The board at an index becomes the last of the first `count`, and those behind it move down by one.
fn return_stock(boards: &mut [u32; 64], count: usize, index: usize)
    requires { (index < count) × (count ≤ 64) }
    ensures { boards.new ≡ put_back boards.old count index }
{
    boards[index..count].rotate_left(1);
}

// The insertions on a board are taken out, and their cuts put behind the unused ones.
fn take_apart(c: &mut Candidate, board: u32)
    requires { length (placed_words c.old) + length (unused_numbers c.old) ≤ 64 }
    ensures { c.new ≡ apart c.old board }
{
    let insertions = c.insertions.take();
    for word in insertions.as_slice() {
        if crate::board_of(*word) == board {
            c.unused.push(crate::cut_of(*word));
        } else {
            c.insertions.push(*word);
        }
    }
}

// A candidate of one sheet stays as it is.
pub fn compact_worst_bin_for_repair(inst: &ProblemInstance<'_>, c: &mut Candidate)
    requires { Stands inst.now [] c.old }
    ensures { Compacted inst.now c.old c.new }
{
    if c.sheets < 2 {
        return;
    }
    let stock = inst.stock().len();
    let areas = evaluation::sheet_areas(inst, c);
    let index = evaluation::worst_bin_index(areas.as_slice());
    take_apart(c, c.boards[index]);
    return_stock(&mut c.boards, stock, index);
    c.sheets -= 1;
}

// ---- crossover: what the parents give

// The cuts on a donor's board are put behind the insertions, on the same board, with a heuristic.
#[tactic(auto, using(crate::proofs::variation::Pushes::no_insertions))]
fn donor_insertions(
    c: &mut Candidate,
    donor: &Candidate,
    board: u32,
    h: BaselineGuillotineHeuristic,
)
    requires { (board < 64) × (length (placed_words c.old) + length (placed_words donor.now) ≤ 64) }
    ensures { c.new ≡ with_insertions c.old (donated (placed_words donor.now) board h) }
{
    for word in donor.insertions.as_slice() {
        if crate::board_of(*word) == board {
            c.push_insertion(board, crate::cut_of(*word), h);
        }
    }
}

// The cuts that are not placed are put behind the unused ones, in the catalogue's order.
#[tactic(auto, using(crate::proofs::variation::Pushes::no_others, crate::proofs::variation::Pushes::others_few))]
fn others_unused(c: &mut Candidate, cuts: usize)
    requires { length (unused_numbers c.old) + cuts ≤ 64 }
    ensures { c.new ≡ with_unused_cuts c.old (others_than (map cut_of (placed_words c.old)) cuts) }
{
    let keys = evaluation::placed_cuts(c);
    for cut in 0..cuts as u32 {
        if !keys.as_slice().contains(&cut) {
            c.push_unused(cut);
        }
    }
}

// The index of a board, if it is there, by the library's search.
fn place_among(boards: &[u32], board: u32) -> Option<usize>
    ensures { result ≡ position (λ b. b == board) boards.now }
{
    boards.iter().position(|b| *b == board)
}

// ---- crossover: the child

// Gives the sheet that was made its boards: its own first, then the other boards of the first parent in their order.
fn child_sheet(left: &Candidate, made: &mut Candidate, board: u32)
    requires { place_among board left.now.boards < 64 }
    ensures { made.new ≡ sheet_of left.now made.old board }
{
    let from = place_among(&left.boards, board).unwrap();
    made.boards = left.boards;
    crate::move_board(&mut made.boards, from, 0);
    made.sheets = 1;
}

// The child of a donor's sheet, by its index, if there is one: the insertions have to find their places on the bare board.
fn child_of_sheet(
    free: &mut [FreeRects; 64],
    inst: &ProblemInstance<'_>,
    left: &Candidate,
    right: &Candidate,
    index: usize,
    h: BaselineGuillotineHeuristic,
) -> Option<Candidate>
    requires { Stands inst.now [] left.now × Stands inst.now [] right.now × IsBestDonor (candidate_in inst.now right.now).bins index }
    ensures { IsChildOf inst.now h left.now right.now result }
{
    let cuts = inst.cuts().len();
    let board = right.boards[index];
    let mut child = Candidate::new();
    donor_insertions(&mut child, right, board, h);
    if !placing::rebuild(free, inst, &[board], child.insertions.as_slice()) {
        return None;
    }
    child_sheet(left, &mut child, board);
    others_unused(&mut child, cuts);
    Some(child)
}

pub fn crossover_child_from_donor_bin(
    free: &mut [FreeRects; 64],
    inst: &ProblemInstance<'_>,
    left: &Candidate,
    right: &Candidate,
    h: BaselineGuillotineHeuristic,
) -> Option<Candidate>
    requires { Stands inst.now [] left.now × Stands inst.now [] right.now }
    ensures { IsChildOf inst.now h left.now right.now result }
{
    if right.sheets == 0 {
        return None;
    }
    let areas = evaluation::sheet_areas(inst, right);
    let index = evaluation::best_donor_bin_index(areas.as_slice());
    child_of_sheet(free, inst, left, right, index, h)
}
