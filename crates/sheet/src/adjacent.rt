// Whether two free rectangles lie a kerf apart along a common side, and what they make: `merge_adjacent_rects`.

ghost use Rattle.std.specs.Prelude.{◌≡◌, ◌≤◌};
ghost use Rattle.lists.specs.Language.{option_of};
ghost use Rattle.model.specs.Refusal.{most_side};
ghost use Rattle.model.specs.Merge.{below, beside, stacked, joined, merge_adjacent_rects};
ghost use Rattle.sheet.specs.Bounds.{Small};

use model::Rect;

// That sides and kerf are in range is a clause and not a type, which would be opened at each sum.

// Whether the second rectangle lies right below the first, a kerf away.
fn below(a: Rect, b: Rect, kerf_width: u32) -> bool
    requires { Small a × (kerf_width ≤ most_side) }
    ensures { result ≡ below kerf_width a b }
{
    a.x == b.x && a.width == b.width && a.y + a.length + kerf_width == b.y
}

// The same to its right. One function for both would pick each field by the axis.
fn beside(a: Rect, b: Rect, kerf_width: u32) -> bool
    requires { Small a × (kerf_width ≤ most_side) }
    ensures { result ≡ beside kerf_width a b }
{
    a.y == b.y && a.length == b.length && a.x + a.width + kerf_width == b.x
}

// The first rectangle, the kerf and the second one below it.
fn stacked(a: Rect, b: Rect, kerf_width: u32) -> Rect
    requires { Small a × Small b × (kerf_width ≤ most_side) }
    ensures { result ≡ stacked kerf_width a b }
{
    Rect {
        length: a.length + kerf_width + b.length,
        ..a
    }
}

// The same beside it.
fn joined(a: Rect, b: Rect, kerf_width: u32) -> Rect
    requires { Small a × Small b × (kerf_width ≤ most_side) }
    ensures { result ≡ joined kerf_width a b }
{
    Rect {
        width: a.width + kerf_width + b.width,
        ..a
    }
}

#[tactic(auto, unfolding(model::specs::Merge::merge_adjacent_rects))]
pub fn merge_adjacent_rects(left: Rect, right: Rect, kerf_width: u32) -> Option<Rect>
    requires { Small left × Small right × (kerf_width ≤ most_side) }
    ensures { option_of result ≡ merge_adjacent_rects kerf_width left right }
{
    if below(left, right, kerf_width) {
        Some(stacked(left, right, kerf_width))
    } else if below(right, left, kerf_width) {
        Some(stacked(right, left, kerf_width))
    } else if beside(left, right, kerf_width) {
        Some(joined(left, right, kerf_width))
    } else if beside(right, left, kerf_width) {
        Some(joined(right, left, kerf_width))
    } else {
        None
    }
}
