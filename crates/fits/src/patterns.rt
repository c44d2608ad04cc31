// Patterns of cuts and boards, and the ways to lie that they leave open: the tests of `fit_cut_in_rects` that read no rectangle.

ghost use Rattle.std.specs.Prelude.{◌≡◌};
ghost use Rattle.model.specs.Fit.{pattern_matches, rotate_pattern, turning_matters};
ghost use Rattle.fits.specs.Orientation.{ways_to_lie};

use model::{CutInstance, PatternDirection};

#[tactic(auto, using(crate::proofs::patterns::Same::same_is, crate::proofs::patterns::Same::none_is), unfolding(model::specs::Fit::pattern_matches))]
fn pattern_matches(cut_pattern: PatternDirection, stock_pattern: PatternDirection) -> bool
    ensures { result ≡ pattern_matches cut_pattern stock_pattern }
{
    cut_pattern == PatternDirection::None
        || stock_pattern == PatternDirection::None
        || cut_pattern == stock_pattern
}

#[tactic(auto, unfolding(model::specs::Fit::rotate_pattern))]
pub fn rotate_pattern(pattern: PatternDirection) -> PatternDirection
    ensures { result ≡ rotate_pattern pattern }
{
    match pattern {
        PatternDirection::None => PatternDirection::None,
        PatternDirection::ParallelToWidth => PatternDirection::ParallelToLength,
        PatternDirection::ParallelToLength => PatternDirection::ParallelToWidth,
    }
}

// Whether a turned cut differs from the cut: not if it is square and of a pattern that turning leaves.
#[tactic(auto, using(crate::proofs::patterns::Same::same_is), unfolding(model::specs::Fit::turning_matters))]
fn turning_matters(cut: CutInstance) -> bool
    ensures { result ≡ turning_matters cut }
{
    cut.width != cut.length || rotate_pattern(cut.pattern) != cut.pattern
}

// The ways to lie that the patterns and the cut leave open on a board, whatever the free rectangle: both, either or none, so two flags.
#[derive(Clone, Copy)]
pub struct Ways {
    pub upright: bool,
    pub rotated: bool,
}

#[tactic(auto, unfolding(crate::specs::Orientation::ways_to_lie))]
fn may_rotate(cut: CutInstance, stock_pattern: PatternDirection) -> bool
    ensures { result ≡ (ways_to_lie cut stock_pattern).rotated }
{
    cut.can_rotate
        && turning_matters(cut)
        && pattern_matches(rotate_pattern(cut.pattern), stock_pattern)
}

#[tactic(auto, unfolding(crate::specs::Orientation::ways_to_lie))]
pub fn ways_to_lie(cut: CutInstance, stock_pattern: PatternDirection) -> Ways
    ensures { result ≡ ways_to_lie cut stock_pattern }
{
    Ways {
        upright: pattern_matches(cut.pattern, stock_pattern),
        rotated: may_rotate(cut, stock_pattern),
    }
}
