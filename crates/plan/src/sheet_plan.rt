// One sheet's part of the plan. The sheet is made again from its board and its insertions; each piece is written as it is placed,
// then the waste, the guide's nodes, and the words before them, which count them.

ghost use Rattle.std.specs.Prelude.{◌≡◌, ◌+◌, ◌*◌, ◌≤◌, ◌<◌, length, take};
ghost use Rattle.model.specs.Sheet.{new_sheet};
ghost use Rattle.model.specs.Plan.{sheet_words};
ghost use Rattle.guide.specs.Nodes.{guide_nodes};
ghost use Rattle.candidate.specs.Stands.{bin_in};
ghost use Rattle.plan.specs.Replaying.{Replayed, Boardable, Replayable, Takeable, Takes, ReplaysWord, ReplaysSheet, WritesSheet, Finishable, Finishes};

use super::plan_words;
use candidate::fitness::SheetAreas;
use fits::choice;
use guide::saw;
use guide::subtree::{Guide, Node};
use model::{BaselineGuillotineHeuristic, CutInstance, Rect, StockInstance};
use project::problem::ProblemInstance;
use sheet::Inserted;
use sheet::free_rects::FreeRects;
use words::numbers;

// ---- a sheet made again

// The problem and the insertions stay while free rectangles and guide change, so they are no fields of one struct: each function would have to say which
// of them stay.

// How far a sheet is made: its pieces, and the placed area.
#[derive(Drop)]
pub struct Progress {
    pub pieces: usize,
    pub placed: u64,
}

// The bare board.
fn bare_board(
    free: &mut FreeRects,
    guide: &mut Guide,
    stock: StockInstance,
    kerf_width: u32,
) -> Progress
    requires { Boardable kerf_width stock }
    ensures { Replayed kerf_width (new_sheet stock) free.new guide.new.items result }
{
    let board = Rect {
        x: 0,
        y: 0,
        width: stock.width,
        length: stock.length,
    };
    free.open(stock.width, stock.length);
    guide::new_guide(guide, board);
    Progress {
        pieces: 0,
        placed: 0,
    }
}

// A piece that found its place: behind the others' words, and into the guide.
fn take_piece(
    pieces: &mut [u32],
    guide: &mut Guide,
    kerf_width: u32,
    cut: CutInstance,
    h: BaselineGuillotineHeuristic,
    inserted: Inserted,
    p: Progress,
) -> Progress
    requires { Takeable pieces.old guide.old.items inserted.free_rect inserted.fit p }
    ensures { Takes kerf_width cut h inserted.free_rect inserted.fit inserted.merged p pieces.old pieces.new guide.old.items guide.new.items result }
{
    let free_rect = inserted.free_rect;
    let placed = inserted.fit.rect;
    let direction = choice::split_direction(free_rect, placed, h.split);
    let merged = inserted.merged;
    guide::next_guide(guide, merged, free_rect, placed, cut, direction, kerf_width);
    plan_words::put_piece(pieces, 9 * p.pieces, cut, inserted.fit);
    Progress {
        pieces: p.pieces + 1,
        placed: p.placed + numbers::area(placed.width, placed.length),
    }
}

// Insertion i: only those on the board are the sheet's.
fn replay_word(
    pieces: &mut [u32],
    free: &mut FreeRects,
    guide: &mut Guide,
    inst: &ProblemInstance<'_>,
    insertions: &[u32],
    board: u32,
    i: usize,
    p: Progress,
) -> Progress
    requires { Replayable inst.now insertions.now board × (i < length insertions.now)
        × Replayed inst.now.kerf_width (bin_in inst.now (take i insertions.now) board) free.old guide.old.items p
        × (9 * length (bin_in inst.now insertions.now board).placed_pieces ≤ length pieces.old) }
    ensures { ReplaysWord inst.now insertions.now board i pieces.old pieces.new free.new guide.new.items result }
{
    let word = insertions[i];
    if candidate::board_of(word) != board {
        return p;
    }
    let kerf_width = inst.kerf_width();
    let s = inst.board(board as usize);
    let cut = inst.cut(candidate::cut_of(word) as usize);
    let h = candidate::heuristic_of(word);
    match sheet::try_insert(free, kerf_width, s.pattern, cut, h) {
        None => p,
        Some(inserted) => take_piece(pieces, guide, kerf_width, cut, h, inserted, p),
    }
}

// The whole making, from the bare board.
fn replay_sheet(
    pieces: &mut [u32],
    free: &mut FreeRects,
    guide: &mut Guide,
    inst: &ProblemInstance<'_>,
    insertions: &[u32],
    board: u32,
) -> Progress
    requires { Replayable inst.now insertions.now board
        × (9 * length (bin_in inst.now insertions.now board).placed_pieces ≤ length pieces.old) }
    ensures { ReplaysSheet inst.now.kerf_width (bin_in inst.now insertions.now board) pieces.old pieces.new free.new guide.new.items result }
{
    let s = inst.board(board as usize);
    let mut p = bare_board(free, guide, s, inst.kerf_width());
    for i in 0..insertions.len() {
        p = replay_word(pieces, free, guide, inst, insertions, board, i, p);
    }
    p
}

// ---- the sheet's words

// How many the sheet's words are, and its areas, which fitness needs.
#[derive(Drop)]
pub struct Body {
    pub size: usize,
    pub areas: SheetAreas,
}

// What follows the pieces, and the words before them.
fn finish_sheet(
    part: &mut [u32],
    rects: &[Rect],
    guide: &[Node],
    stock: StockInstance,
    p: Progress,
) -> Body
    requires { Finishable part.old rects.now guide.now stock p }
    ensures { Finishes part.old part.new rects.now guide.now stock p result }
{
    let behind = 10 + 9 * p.pieces;
    plan_words::put_waste(part, behind, rects);
    let nodes = behind + 4 * rects.len();
    plan_words::put_nodes(part, nodes, guide);
    let saw = saw::saw_of(guide);
    let area = numbers::area(stock.width, stock.length);
    let share = saw::used(p.placed, area);
    plan_words::put_head(
        part,
        stock,
        share,
        saw,
        p.pieces as u32,
        rects.len() as u32,
        guide.len() as u32,
    );
    Body {
        size: nodes + 8 * guide.len(),
        areas: SheetAreas {
            placed: p.placed,
            board: area,
        },
    }
}

// The sheet on a board, from its insertions among those of a candidate. Free rectangles and guide are lent to
// work in: what they held does not matter, and they are the sheet's then.
#[tactic(auto, using(trust::proofs::RoundTrip::sheet_length))]
pub fn write_sheet(
    part: &mut [u32],
    free: &mut FreeRects,
    guide: &mut Guide,
    inst: &ProblemInstance<'_>,
    insertions: &[u32],
    board: u32,
) -> Body
    requires { Replayable inst.now insertions.now board
        × (length (sheet_words (bin_in inst.now insertions.now board)) ≤ length part.old) }
    ensures written { WritesSheet (bin_in inst.now insertions.now board) part.old part.new result }
    ensures rects { free.new ≡ (bin_in inst.now insertions.now board).free_rects }
    ensures nodes { guide.new.items ≡ guide_nodes (bin_in inst.now insertions.now board).slicing_tree }
{
    let p = replay_sheet(&mut part[10..], free, guide, inst, insertions, board);
    let s = inst.board(board as usize);
    finish_sheet(part, free.as_slice(), guide.as_slice(), s, p)
}
