// How well a piece lies in a free rectangle, and in which direction the rest is split: `free_rect_choice_score` and
// `split_direction` of the optimizer, with what they call.

ghost use Rattle.std.specs.Prelude.{◌≡◌};
ghost use Rattle.model.specs.Choice.{free_rect_choice_score};
ghost use Rattle.model.specs.Split.{split_direction};
ghost use Rattle.model.specs.declared.GuillotineSplitHeuristic.{GuillotineSplitHeuristic};
ghost use Rattle.fits.specs.Numbers.{score_numbers};

use model::{Direction, GuillotineRectChoice, GuillotineSplitHeuristic, Rect};
use words::numbers;

// ---- the choice of a rectangle

// A score, compared field by field in this order; the lowest is best.
#[derive(Clone, Copy, PartialEq, Eq, PartialOrd, Ord)]
pub struct Score {
    pub first: u64,
    pub second: u64,
    pub third: u64,
    pub y: u32,
    pub x: u32,
}

#[tactic(auto, unfolding(model::specs::Choice::free_rect_choice_score, model::specs::Choice::area_waste, model::specs::Choice::short_side, model::specs::Choice::long_side))]
pub fn free_rect_choice_score(free_rect: Rect, placed: Rect, choice: GuillotineRectChoice) -> Score
    ensures { score_numbers result ≡ free_rect_choice_score free_rect placed choice }
{
    let whole = numbers::area(free_rect.width, free_rect.length);
    let part = numbers::area(placed.width, placed.length);
    let area = whole.saturating_sub(part);
    let width = free_rect.width.saturating_sub(placed.width);
    let length = free_rect.length.saturating_sub(placed.length);
    let short = u64::from(width.min(length));
    let long = u64::from(width.max(length));
    let (first, second, third) = match choice {
        GuillotineRectChoice::Area => (area, short, long),
        GuillotineRectChoice::ShortSide => (short, long, area),
        GuillotineRectChoice::LongSide => (long, short, area),
    };
    Score {
        first,
        second,
        third,
        y: free_rect.y,
        x: free_rect.x,
    }
}

// ---- the direction of a split

// The direction that leaves the larger of the two remainders larger; a tie is horizontal.
#[tactic(auto, unfolding(model::specs::Split::split_direction))]
fn maximize_area(free_rect: Rect, placed: Rect) -> Direction
    ensures { result ≡ split_direction free_rect placed GuillotineSplitHeuristic.MaximizeArea }
{
    let below = numbers::area(placed.width, free_rect.length.saturating_sub(placed.length));
    let beside = numbers::area(free_rect.width.saturating_sub(placed.width), placed.length);
    if below <= beside {
        Direction::Horizontal
    } else {
        Direction::Vertical
    }
}

#[tactic(auto, unfolding(model::specs::Split::split_direction))]
pub fn split_direction(free_rect: Rect, placed: Rect, split: GuillotineSplitHeuristic) -> Direction
    ensures { result ≡ split_direction free_rect placed split }
{
    match split {
        GuillotineSplitHeuristic::Horizontal => Direction::Horizontal,
        GuillotineSplitHeuristic::LongerAxis => {
            if free_rect.length < free_rect.width {
                Direction::Vertical
            } else {
                Direction::Horizontal
            }
        }
        GuillotineSplitHeuristic::MaximizeArea => maximize_area(free_rect, placed),
    }
}
