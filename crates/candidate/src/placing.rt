// Cuts placed on the sheets of a candidate (`place_cut_first_fit`, `reinsert_unused_first_fit`), and the sheets of a candidate
// rebuilt from its insertions. A sheet's free rectangles are at its board's number, so that nothing moves when sheets come and go.

ghost use Rattle.std.specs.Prelude.{◌≡◌, [], ◌<◌};
ghost use lib.ListN.{length, take};
ghost use Rattle.model.specs.Sheet.{new_sheet};
ghost use Rattle.lists.specs.Elements.{All};
ghost use Rattle.candidate.specs.Entries.{board_of, cut_of};
ghost use Rattle.candidate.specs.Stands.{Stands};
ghost use Rattle.candidate.specs.Bins.{with_bin, Shown};
ghost use Rattle.candidate.specs.Fitting.{Fillable, InsertsOnBoard, Boards, TriesBoards};
ghost use Rattle.candidate.specs.Placing.{Next, PlacesCut, PlacesCuts, Reinserts};
ghost use Rattle.candidate.specs.Rebuilding.{OpensBoards, Makable, InsertsWord, InsertsAll, Rebuildable, Rebuilds};

use crate::Candidate;
use model::{BaselineGuillotineHeuristic, CutInstance, StockInstance};
use project::problem::ProblemInstance;
use sheet::free_rects::FreeRects;

// The free rectangles and the problem are two parameters: with one struct of both, each function that changes the rectangles would have to say that
// the problem stays.

// ---- one board

fn insert_on_board(
    free: &mut [FreeRects; 64],
    kerf_width: u32,
    stock: StockInstance,
    board: usize,
    cut: CutInstance,
    h: BaselineGuillotineHeuristic,
) -> bool
    requires { Fillable kerf_width free.old board }
    ensures { InsertsOnBoard kerf_width stock.pattern (record { cut = cut; heuristic = h }) board free.old free.new result }
{
    let sheet = &mut free[board];
    sheet::try_insert(sheet, kerf_width, stock.pattern, cut, h).is_some()
}

#[tactic(auto, unfolding(model::specs::Sheet::new_sheet))]
fn open_board(free: &mut [FreeRects; 64], stock: StockInstance, board: usize)
    requires { board < 64 }
    ensures { free.new ≡ with_bin free.old board (new_sheet stock) }
{
    let sheet = &mut free[board];
    sheet.open(stock.width, stock.length);
}

// ---- placing a cut

// The first of the boards that takes the cut, the sheets' before the available ones; past the last board, if none does.
// A board that is no sheet's yet is made bare before it is tried.
fn first_fit(
    free: &mut [FreeRects; 64],
    inst: &ProblemInstance<'_>,
    boards: &[u32],
    sheets: usize,
    cut: CutInstance,
    h: BaselineGuillotineHeuristic,
) -> usize
    requires { Boards inst.now boards.now sheets × All (Fillable inst.now.kerf_width free.old) (take sheets boards.now) }
    ensures { TriesBoards inst.now (record { cut = cut; heuristic = h }) boards.now sheets free.old free.new result }
{
    let kerf_width = inst.kerf_width();
    let count = inst.stock().len();
    for j in 0..count {
        let board = boards[j] as usize;
        let s = inst.board(board);
        if sheets <= j {
            open_board(free, s, board);
        }
        if insert_on_board(free, kerf_width, s, board, cut, h) {
            return j;
        }
    }
    count
}

fn place_cut_first_fit(
    free: &mut [FreeRects; 64],
    inst: &ProblemInstance<'_>,
    c: &mut Candidate,
    cut: u32,
    h: BaselineGuillotineHeuristic,
)
    requires { Next inst.now free.old c.old cut }
    ensures { PlacesCut inst.now h c.old cut free.new c.new }
{
    let instance = inst.cut(cut as usize);
    let j = first_fit(free, inst, &c.boards, c.sheets, instance, h);
    c.take_place(inst.stock().len(), j, cut, h);
}

// The cuts of an order, one after the other.
pub fn place_cuts(
    free: &mut [FreeRects; 64],
    inst: &ProblemInstance<'_>,
    c: &mut Candidate,
    order: &[u32],
    h: BaselineGuillotineHeuristic,
)
    requires { Stands inst.now order.now c.old × Shown inst.now free.old c.old }
    ensures { PlacesCuts inst.now h c.old order.now free.new c.new }
{
    for cut in order {
        place_cut_first_fit(free, inst, c, *cut, h);
    }
}

pub fn reinsert_unused_first_fit(
    free: &mut [FreeRects; 64],
    inst: &ProblemInstance<'_>,
    c: &mut Candidate,
    h: BaselineGuillotineHeuristic,
)
    requires { Stands inst.now [] c.old × Shown inst.now free.old c.old }
    ensures { Reinserts inst.now h c.old free.new c.new }
{
    let unused = c.unused.take();
    place_cuts(free, inst, c, unused.as_slice(), h);
}

// ---- the sheets of a candidate, from its insertions

fn open_boards(free: &mut [FreeRects; 64], inst: &ProblemInstance<'_>, boards: &[u32])
    requires { All (λ b. b < length inst.now.stock) boards.now }
    ensures { OpensBoards inst.now boards.now free.old free.new }
{
    for board in boards {
        let board = *board as usize;
        open_board(free, inst.board(board), board);
    }
}

// An insertion made again.
fn insert_again(
    free: &mut [FreeRects; 64],
    inst: &ProblemInstance<'_>,
    kerf_width: u32,
    word: u32,
) -> bool
    requires { Fillable kerf_width free.old (board_of word) × (board_of word < length inst.now.stock) × (cut_of word < length inst.now.cuts) }
    ensures { InsertsWord kerf_width inst.now word free.old free.new result }
{
    let board = crate::board_of(word) as usize;
    let s = inst.board(board);
    let cut = inst.cut(crate::cut_of(word) as usize);
    let h = crate::heuristic_of(word);
    insert_on_board(free, kerf_width, s, board, cut, h)
}

// The insertions, one after the other, each on its board: whether all found a place.
fn insert_all(free: &mut [FreeRects; 64], inst: &ProblemInstance<'_>, insertions: &[u32]) -> bool
    requires { Makable inst.now free.old insertions.now }
    ensures { InsertsAll inst.now insertions.now free.old free.new result }
{
    let kerf_width = inst.kerf_width();
    for word in insertions {
        if !insert_again(free, inst, kerf_width, *word) {
            return false;
        }
    }
    true
}

// The sheets on these boards rebuilt from the insertions: whether every insertion found a place.
pub fn rebuild(
    free: &mut [FreeRects; 64],
    inst: &ProblemInstance<'_>,
    boards: &[u32],
    insertions: &[u32],
) -> bool
    requires { Rebuildable inst.now boards.now insertions.now }
    ensures { Rebuilds inst.now boards.now insertions.now free.old free.new result }
{
    open_boards(free, inst, boards);
    insert_all(free, inst, insertions)
}
