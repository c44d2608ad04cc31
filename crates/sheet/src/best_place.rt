// The best place of a cut among a sheet's free rectangles: the first fit of lowest score. A search that finds none reads two sides a rectangle.

ghost use Rattle.std.specs.Prelude.{◌∷◌, [], map};
ghost use Rattle.fits.specs.ByWays.{fits_by_ways};
ghost use Rattle.sheet.specs.Places.{IsNextFit, place_at, Scored, Over, FindsBest};

use fits::choice::Score;
use fits::patterns::Ways;
use fits::{choice, patterns};
use model::{BaselineGuillotineHeuristic, CutInstance, FitResult, PatternDirection, Rect};

// Sides, cut and pattern are parameters of their own, as in the source.

// The first rectangle from an index on in which a cut of these sides fits in one of the ways.
fn next_fit(free: &[Rect], ways: Ways, width: u32, length: u32, from: usize) -> Option<usize>
    ensures { IsNextFit free.now ways width length from result }
{
    for index in from..free.len() {
        if fits::lies_any_way(ways, width, length, free[index].width, free[index].length) {
            return Some(index);
        }
    }
    None
}

// A fit in a free rectangle, with the number of the rectangle among the sheet's, and the fit's score.
#[derive(Clone, Copy)]
pub struct ScoredPlace {
    pub index: usize,
    pub free_rect: Rect,
    pub fit: FitResult,
    pub score: Score,
}

// One more fit: it is taken where it is the first, or its score is lower.
fn consider_fit(
    best: Option<ScoredPlace>,
    index: usize,
    free_rect: Rect,
    fit: FitResult,
    heuristic: BaselineGuillotineHeuristic,
) -> Option<ScoredPlace>
    requires { Scored heuristic best }
    ensures { Over heuristic best (place_at index free_rect fit ∷ []) result }
{
    let score = choice::free_rect_choice_score(free_rect, fit.rect, heuristic.rect_choice);
    match best {
        Some(least) if score >= least.score => best,
        _ => Some(ScoredPlace {
            index,
            free_rect,
            fit,
            score,
        }),
    }
}

// The fits in one more rectangle.
fn consider_rect(
    mut best: Option<ScoredPlace>,
    index: usize,
    free_rect: Rect,
    ways: Ways,
    cut: CutInstance,
    heuristic: BaselineGuillotineHeuristic,
) -> Option<ScoredPlace>
    requires { Scored heuristic best }
    ensures { Over heuristic best (map (place_at index free_rect) (fits_by_ways ways cut free_rect heuristic.rotation)) result }
{
    for fit in fits::fits_by_ways(ways, cut, free_rect, heuristic.rotation) {
        if let Some(fit) = fit {
            best = consider_fit(best, index, free_rect, fit, heuristic);
        }
    }
    best
}

// The first fit of lowest score, by rectangle and then by fit. It passes over rectangles without a fit first: with one `for` over all, an attempt that
// finds nothing takes up to twice as long.
pub fn best_fit(
    free: &[Rect],
    cut: CutInstance,
    stock_pattern: PatternDirection,
    heuristic: BaselineGuillotineHeuristic,
) -> Option<ScoredPlace>
    ensures { FindsBest free.now cut stock_pattern heuristic result }
{
    let ways = patterns::ways_to_lie(cut, stock_pattern);
    let mut best = None;
    let mut next = next_fit(free, ways, cut.width, cut.length, 0);
    while let Some(index) = next {
        let free_rect = free[index];
        best = consider_rect(best, index, free_rect, ways, cut, heuristic);
        next = next_fit(free, ways, cut.width, cut.length, index + 1);
    }
    best
}
