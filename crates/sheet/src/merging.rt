// The merging of a sheet's free rectangles: `merge_free_rects`.

ghost use Rattle.std.specs.Prelude.{◌≡◌, ◌≤◌};
ghost use Rattle.model.specs.Refusal.{most_side};
ghost use Rattle.sheet.specs.Bounds.{Small};
ghost use Rattle.model.specs.Merge.{first_pair, merge_free_rects, merges_any};
ghost use Rattle.lists.specs.Elements.{All};
ghost use Rattle.sheet.specs.Merging.{pair_of, Scannable, touches};

use super::adjacent;
use super::free_rects::FreeRects;
use model::Rect;

// Two rectangles that merge, by their places, and what they make.
#[derive(Clone, Copy)]
struct FoundPair {
    left: usize,
    right: usize,
    merged: Rect,
}

// The first pair of rectangles that merge, by the left and then by the right one. Pairs within the first `fresh` are known not to merge.
#[tactic(auto, using(crate::proofs::merging::Scan::pair_left, crate::proofs::merging::Scan::right_skip, crate::proofs::merging::Scan::right_hit, crate::proofs::merging::Scan::right_end, crate::proofs::merging::Scan::pair_end))]
fn find_pair(free: &[Rect], kerf_width: u32, fresh: usize) -> Option<FoundPair>
    requires { Scannable kerf_width free.now fresh }
    ensures { pair_of result ≡ first_pair kerf_width free.now }
{
    let mut found = None;
    'scan: for left in 0..free.len() {
        let left_rect = free[left];
        for right in fresh.max(left + 1)..free.len() {
            if let Some(merged) = adjacent::merge_adjacent_rects(
                left_rect,
                free[right],
                kerf_width,
            ) {
                found = Some(FoundPair {
                    left,
                    right,
                    merged,
                });
                break 'scan;
            }
        }
    }
    found
}

// Whether one of the rectangles merges with this one.
#[tactic(auto, using(crate::proofs::merging::Touching::touch_hit, crate::proofs::merging::Touching::touch_miss, crate::proofs::merging::Touching::touch_end))]
fn touches(free: &[Rect], rect: Rect, kerf_width: u32) -> bool
    requires { All Small free.now × Small rect × (kerf_width ≤ most_side) }
    ensures { result ≡ touches kerf_width rect free.now }
{
    for other in free {
        if adjacent::merge_adjacent_rects(*other, rect, kerf_width).is_some() {
            return true;
        }
    }
    false
}

// Whether there is a pair that merges: each new rectangle is held against all before it. Most often there is none, and with the scan for the first pair
// alone a plan takes up to a sixth longer.
fn merges(free: &[Rect], kerf_width: u32, fresh: usize) -> bool
    requires { Scannable kerf_width free.now fresh }
    ensures { result ≡ merges_any kerf_width free.now }
{
    for right in fresh..free.len() {
        if touches(&free[..right], free[right], kerf_width) {
            return true;
        }
    }
    false
}

// Merges pairs until none is left, and says whether there was one. After each merge the scan starts again from the first pair;
// no two rectangles before the merged one merge. It is a `while`, since each merge changes the list that is scanned.
#[tactic(auto, using(crate::proofs::merging::Rounds::left_within, crate::proofs::merging::Rounds::flag_stop, crate::proofs::merging::Rounds::merged_all))]
pub fn merge_free_rects(free: &mut FreeRects, kerf_width: u32, mut fresh: usize) -> bool
    requires { Scannable kerf_width free.old fresh }
    ensures merged { free.new ≡ merge_free_rects kerf_width free.old }
    ensures any { result ≡ merges_any kerf_width free.old }
{
    if !merges(free.as_slice(), kerf_width, fresh) {
        return false;
    }
    let mut any = false;
    while let Some(pair) = find_pair(free.as_slice(), kerf_width, fresh) {
        free.set(pair.left, pair.merged);
        free.swap_remove(pair.right);
        any = true;
        fresh = pair.left;
    }
    any
}
