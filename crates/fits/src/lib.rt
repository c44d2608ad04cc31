// The fits of a cut in a free rectangle: `fit_cut_in_rects` of the optimizer, with what it calls.
#![tactic(auto)]

ghost use Rattle.std.specs.Prelude.{◌≡◌, ◌&&◌, leb};
ghost use Rattle.model.specs.Fit.{upright_result, rotated_result, fit_cut_in_rects, cut_fits_stock};
ghost use Rattle.fits.specs.FitList.{fits_of};
ghost use Rattle.fits.specs.Orientation.{ways_to_lie};
ghost use Rattle.fits.specs.ByWays.{lies_any_way, fits_in_order};

pub mod patterns; // Patterns of cuts and boards, and the ways to lie that they leave open
pub mod choice; // How well a piece lies in a free rectangle, and in which direction the rest is split

use model::{CutInstance, FitResult, PatternDirection, Rect, RotationPreference, StockInstance};
use patterns::Ways;

// Whether a piece that may lie so is no larger than the free rectangle.
fn lies(may: bool, width: u32, length: u32, free_width: u32, free_length: u32) -> bool
    ensures { result ≡ (may && leb width free_width && leb length free_length) }
{
    may && width <= free_width && length <= free_length
}

// Whether a cut of these sides fits a free rectangle in one of the ways.
#[tactic(auto, unfolding(crate::specs::ByWays::lies_any_way, crate::specs::ByWays::lies_upright, crate::specs::ByWays::lies_rotated))]
pub fn lies_any_way(ways: Ways, width: u32, length: u32, free_width: u32, free_length: u32) -> bool
    ensures { result ≡ lies_any_way ways width length free_width free_length }
{
    lies(ways.upright, width, length, free_width, free_length)
        || lies(ways.rotated, length, width, free_width, free_length)
}

// The cut in the corner of the free rectangle. Both are parameters, as in the source.
fn upright_result(cut: CutInstance, free_rect: Rect) -> FitResult
    ensures { result ≡ upright_result cut free_rect }
{
    FitResult {
        rect: Rect {
            width: cut.width,
            length: cut.length,
            ..free_rect
        },
        pattern: cut.pattern,
        rotated: false,
    }
}

// The same with the cut turned.
fn rotated_result(cut: CutInstance, free_rect: Rect) -> FitResult
    ensures { result ≡ rotated_result cut free_rect }
{
    FitResult {
        rect: Rect {
            width: cut.length,
            length: cut.width,
            ..free_rect
        },
        pattern: patterns::rotate_pattern(cut.pattern),
        rotated: true,
    }
}

// The fits in the ways that are open, the preferred way first: what is left of `fit_cut_in_rects` once the ways are known.
#[tactic(auto, unfolding(crate::specs::ByWays::fits_in_order, crate::specs::ByWays::lies_upright, crate::specs::ByWays::lies_rotated, crate::specs::FitList::if_lies))]
pub fn fits_by_ways(
    ways: Ways,
    cut: CutInstance,
    free_rect: Rect,
    rotation: RotationPreference,
) -> [Option<FitResult>; 2]
    ensures { result ≡ fits_in_order ways cut free_rect rotation }
{
    let Rect { width, length, .. } = free_rect;
    let upright = lies(ways.upright, cut.width, cut.length, width, length).then_some(upright_result(
        cut, free_rect,
    ));
    let rotated = lies(ways.rotated, cut.length, cut.width, width, length).then_some(rotated_result(
        cut, free_rect,
    ));
    match rotation {
        RotationPreference::PreferUpright => [upright, rotated],
        RotationPreference::PreferRotated => [rotated, upright],
    }
}

#[tactic(auto, using(crate::proofs::Orientations::fits_by_ways_all))]
pub fn fit_cut_in_rects(
    cut: CutInstance,
    stock_pattern: PatternDirection,
    free_rect: Rect,
    rotation: RotationPreference,
) -> [Option<FitResult>; 2]
    ensures fits { fits_of result ≡ fit_cut_in_rects cut stock_pattern free_rect rotation }
    ensures order { result ≡ fits_in_order (ways_to_lie cut stock_pattern) cut free_rect rotation }
{
    let ways = patterns::ways_to_lie(cut, stock_pattern);
    fits_by_ways(ways, cut, free_rect, rotation)
}

#[tactic(auto, using(crate::proofs::Orientations::fits_stock))]
pub fn cut_fits_stock(cut: CutInstance, stock: StockInstance) -> bool
    ensures { result ≡ cut_fits_stock cut stock }
{
    let ways = patterns::ways_to_lie(cut, stock.pattern);
    lies_any_way(ways, cut.width, cut.length, stock.width, stock.length)
}
