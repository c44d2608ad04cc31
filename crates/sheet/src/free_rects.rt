// A sheet's free rectangles, a vector of bounded length, and the split of one of them (`split_free_rect_in_direction`).

ghost use Rattle.std.specs.Prelude.{◌≡◌, ◌∷◌, [], ◌++◌, ◌+◌, ◌≤◌, ◌<◌, length, set, option_to_list};
ghost use Rattle.lists.specs.Base.{swap_remove};
ghost use Rattle.model.specs.Types.{rect, no_rect};
ghost use Rattle.model.specs.Split.{split_free_rect};
ghost use Rattle.sheet.specs.Bounds.{Small, Inside};

use super::split;
use model::{Direction, Rect};
use std::marker::Model;

// A sheet of 64 pieces has at most 65 free rectangles.
pub const MOST_RECTS: usize = 65;

// The kit's `ArrayVec` in its place makes a plan up to 8 percent slower.
#[derive(Clone, Copy)]
pub struct FreeRects {
    rects: [Rect; MOST_RECTS],
    count: usize,
}

// Clauses see the rectangles that count. A value that may be copied gives its fields back, so the unused places are blank.
impl Model for FreeRects {
    ghost use Rattle.std.specs.Prelude.{List, length, take};
    ghost use Rattle.lists.specs.Padded.{Padded, padded};
    ghost use Rattle.lists.proofs.Padded.{array_back, count_back};
    ghost use Rattle.model.specs.declared.Rect.{Rect};
    ghost use Rattle.model.specs.Types.{no_rect};
    ghost use Rattle.sheet.specs.declared.free_rects.TheConstants.{MOST_RECTS};

    ghost Value = { List Rect };

    ghost view = { λ free. take free.count free.rects };

    ghost invariant = { λ free. Padded no_rect MOST_RECTS free.rects free.count };

    ghost inverse = { λ rects. record { rects = padded no_rect MOST_RECTS rects; count = length rects } };

    ghost inverse_ok = { λ free h i. record { rects = array_back no_rect MOST_RECTS free.rects free.count h i; count = count_back no_rect MOST_RECTS free.rects free.count h i } };
}

// What stands in an unused place.
const BLANK: Rect = Rect {
    x: 0,
    y: 0,
    width: 0,
    length: 0,
};

impl FreeRects {
    pub fn new() -> Self
        ensures { result ≡ [] }
    {
        FreeRects {
            rects: [BLANK; MOST_RECTS],
            count: 0,
        }
    }

    pub fn as_slice(&self) -> &[Rect]
        ensures value { result.now ≡ self.now }
        ensures within { length self.now ≤ MOST_RECTS }
    {
        &self.rects[..self.count]
    }

    pub fn len(&self) -> usize
        ensures value { result ≡ length self.now }
        ensures within { length self.now ≤ MOST_RECTS }
    {
        self.as_slice().len()
    }

    pub fn set(&mut self, index: usize, rect: Rect)
        requires { index < length self.old }
        ensures { self.new ≡ set self.old index rect }
    {
        self.rects[..self.count][index] = rect;
    }

    pub fn push(&mut self, rect: Rect)
        requires { length self.old < MOST_RECTS }
        ensures { self.new ≡ self.old ++ (rect ∷ []) }
    {
        self.rects[self.count] = rect;
        self.count += 1;
    }

    // The last rectangle takes the place of the one at the index.
    pub fn swap_remove(&mut self, index: usize)
        requires { index < length self.old }
        ensures { self.new ≡ swap_remove no_rect index self.old }
    {
        self.count -= 1;
        self.rects[index] = self.rects[self.count];
        self.rects[self.count] = BLANK;
    }

    // The bare board alone (`GuillotineSheet::new`).
    pub fn open(&mut self, width: u32, length: u32)
        ensures { self.new ≡ rect 0 0 width length ∷ [] }
    {
        let used = self.count.max(1);
        self.rects[1..used].fill(BLANK);
        self.rects[0] = Rect {
            x: 0,
            y: 0,
            width,
            length,
        };
        self.count = 1;
    }

    // What a split leaves of a rectangle, if anything, behind the last.
    fn push_remainder(&mut self, remainder: Option<Rect>)
        requires { length self.old < MOST_RECTS }
        ensures { self.new ≡ self.old ++ option_to_list remainder }
    {
        if let Some(rect) = remainder {
            self.push(rect);
        }
    }
}

// The bottom remainder is pushed first.
#[tactic(auto, unfolding(model::specs::Split::split_free_rect))]
pub fn split_free_rect_in_direction(
    free: &mut FreeRects,
    free_rect: Rect,
    placed: Rect,
    kerf_width: u32,
    direction: Direction,
)
    requires { (length free.old + 1 < MOST_RECTS) × Small free_rect × Inside placed free_rect }
    ensures { free.new ≡ free.old ++ split_free_rect direction kerf_width free_rect placed }
{
    let bottom = split::bottom_remainder(free_rect, placed, kerf_width, direction);
    let right = split::right_remainder(free_rect, placed, kerf_width, direction);
    free.push_remainder(bottom);
    free.push_remainder(right);
}
