// What a split leaves of a free rectangle (`split_horizontal`, `split_vertical`): the remainder below the piece and the one to its right.

ghost use Rattle.std.specs.Prelude.{◌≡◌, ◌+◌, ◌≤◌, option_to_list};
ghost use Rattle.model.specs.Refusal.{most_side};
ghost use Rattle.model.specs.Split.{bottom_remainder, right_remainder, bottom_width, right_length};
ghost use Rattle.sheet.specs.Remainders.{rest_behind};
ghost use Rattle.sheet.specs.Bounds.{Small, Inside};

use model::{Direction, Rect};

// A free rectangle and the piece in its corner are two parameters, here and in the crates above, as in the source. That the piece is inside is a clause.

// The remainders' other side: a horizontal split gives the bottom one the whole width, a vertical one the right one the whole length.
fn bottom_width(direction: Direction, free_rect: Rect, placed: Rect) -> u32
    ensures { result ≡ bottom_width direction free_rect placed }
{
    match direction {
        Direction::Horizontal => free_rect.width,
        Direction::Vertical => placed.width,
    }
}

fn right_length(direction: Direction, free_rect: Rect, placed: Rect) -> u32
    ensures { result ≡ right_length direction free_rect placed }
{
    match direction {
        Direction::Horizontal => placed.length,
        Direction::Vertical => free_rect.length,
    }
}

// What a side has left behind the piece and the kerf, as its start and length; none unless more than a kerf lies behind the piece.
fn rest_of_side(start: u32, side: u32, placed: u32, kerf_width: u32) -> Option<(u32, u32)>
    requires { (placed ≤ side) × (start + side ≤ most_side) }
    ensures { option_to_list result ≡ rest_behind kerf_width start side placed }
{
    let remaining = side - placed;
    if kerf_width < remaining {
        Some((start + placed + kerf_width, remaining - kerf_width))
    } else {
        None
    }
}

// What is left below the piece, if it is larger than the kerf.
#[tactic(auto, unfolding(model::specs::Split::bottom_remainder))]
pub fn bottom_remainder(
    free_rect: Rect,
    placed: Rect,
    kerf_width: u32,
    direction: Direction,
) -> Option<Rect>
    requires { Small free_rect × Inside placed free_rect }
    ensures { option_to_list result ≡ bottom_remainder kerf_width free_rect placed (bottom_width direction free_rect placed) }
{
    let (y, length) = rest_of_side(free_rect.y, free_rect.length, placed.length, kerf_width)?;
    Some(Rect {
        x: free_rect.x,
        y,
        width: bottom_width(direction, free_rect, placed),
        length,
    })
}

// What is left to its right, if it is larger than the kerf. One function for both sides would pick each field by the side.
#[tactic(auto, unfolding(model::specs::Split::right_remainder))]
pub fn right_remainder(
    free_rect: Rect,
    placed: Rect,
    kerf_width: u32,
    direction: Direction,
) -> Option<Rect>
    requires { Small free_rect × Inside placed free_rect }
    ensures { option_to_list result ≡ right_remainder kerf_width free_rect placed (right_length direction free_rect placed) }
{
    let (x, width) = rest_of_side(free_rect.x, free_rect.width, placed.width, kerf_width)?;
    Some(Rect {
        x,
        y: free_rect.y,
        width,
        length: right_length(direction, free_rect, placed),
    })
}
