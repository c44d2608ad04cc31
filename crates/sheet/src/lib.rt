// A sheet: its free rectangles, and the insertion of a cut at its best place (`GuillotineSheet::try_insert`).
#![tactic(auto)]

ghost use Rattle.sheet.specs.Bounds.{Inside};
ghost use Rattle.sheet.specs.Insertions.{split_by, Insertable, At, Replaces, Inserts};

pub mod split; // What a split leaves of a free rectangle
pub mod free_rects; // A sheet's free rectangles, a vector of bounded length, and the split of one of them
mod adjacent; // Whether two free rectangles lie a kerf apart along a common side, and what they make
mod merging; // The merging of a sheet's free rectangles
mod best_place; // The best place of a cut among a sheet's free rectangles

use best_place::ScoredPlace;
use fits::choice;
use free_rects::FreeRects;
use model::{
    BaselineGuillotineHeuristic, CutInstance, Direction, FitResult, PatternDirection, Rect,
};

// Kerf, cut and heuristic are parameters of their own, here and in `candidate::placing`, as in the source.

// The free rectangle at the index gives way to what the piece leaves of it. Says whether free rectangles merged then.
fn insert_at(
    free: &mut FreeRects,
    kerf_width: u32,
    index: usize,
    free_rect: Rect,
    placed: Rect,
    direction: Direction,
) -> bool
    requires { Insertable kerf_width free.old × At free.old index free_rect × Inside placed free_rect }
    ensures { Replaces kerf_width (split_by kerf_width index free_rect placed direction free.old) free.new result }
{
    free.swap_remove(index);
    let fresh = free.len();
    free_rects::split_free_rect_in_direction(free, free_rect, placed, kerf_width, direction);
    merging::merge_free_rects(free, kerf_width, fresh)
}

// Where a cut was inserted, and whether free rectangles merged then.
#[derive(Clone, Copy)]
pub struct Inserted {
    pub index: usize,
    pub free_rect: Rect,
    pub fit: FitResult,
    pub merged: bool,
}

pub fn try_insert(
    free: &mut FreeRects,
    kerf_width: u32,
    stock_pattern: PatternDirection,
    cut: CutInstance,
    heuristic: BaselineGuillotineHeuristic,
) -> Option<Inserted>
    requires { Insertable kerf_width free.old }
    ensures { Inserts kerf_width stock_pattern cut heuristic free.old free.new result }
{
    let Some(
        ScoredPlace {
            index,
            free_rect,
            fit,
            ..
        },
    ) = best_place::best_fit(free.as_slice(), cut, stock_pattern, heuristic)
    else {
        return None;
    };
    let placed = fit.rect;
    let direction = choice::split_direction(free_rect, placed, heuristic.split);
    let merged = insert_at(free, kerf_width, index, free_rect, placed, direction);
    Some(Inserted {
        index,
        free_rect,
        fit,
        merged,
    })
}
