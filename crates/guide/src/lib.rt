// The cutting guide of a sheet: the tree of saw cuts from the whole board to its pieces and waste. It is made while the sheet is made again.
#![tactic(auto)]

ghost use Rattle.std.specs.Prelude.{◌≡◌, ◌+◌, ◌≤◌, ◌<◌, length};
ghost use Rattle.std.proofs.Math.Option.{some};
ghost use Rattle.model.specs.Guide.{leaf, free};
ghost use Rattle.guide.specs.Nodes.{subtree_nodes, guide_nodes, InCorner};
ghost use Rattle.guide.specs.Guides.{leaf_replaced, next_nodes};

pub mod subtree; // The nodes of a cutting guide, and the subtree that an insertion puts in the place of a free leaf
mod free_leaf; // The search for a free leaf among the nodes of a guide, which are in preorder
mod splice; // A subtree's nodes in the place of a guide's node
pub mod saw; // A sheet's saw and use

use arrayvec::ArrayVec;
use model::{CutInstance, Direction, Rect};
use subtree::{Node, Subtree};

// GuillotineSheet::new: one free leaf, whatever the guide was.
pub fn new_guide<const N: usize>(guide: &mut ArrayVec<Node, N>, board: Rect)
    requires { 0 < N }
    ensures { guide.new.items ≡ guide_nodes (some (leaf board free)) }
{
    guide.clear();
    guide.push(Node::Free(board));
}

// The subtree takes the place of the first free leaf that is `target`; where there is none, there is no guide any more.
fn replace_free_leaf<const N: usize>(guide: &mut ArrayVec<Node, N>, target: Rect, subtree: Subtree)
    requires { length guide.old.items + length (subtree_nodes subtree) ≤ N + 1 }
    ensures { guide.new.items ≡ leaf_replaced target (subtree_nodes subtree) guide.old.items }
{
    match free_leaf::find_free_leaf(guide.as_slice(), target) {
        Some(at) => splice::splice(guide, at, subtree),
        None => guide.clear(),
    }
}

// The guide part of try_insert. A merge voids the guide; `merged` is a parameter, as in the definition.
pub fn next_guide<const N: usize>(
    guide: &mut ArrayVec<Node, N>,
    merged: bool,
    free_rect: Rect,
    placed: Rect,
    cut: CutInstance,
    direction: Direction,
    kerf: u32,
)
    requires { (length guide.old.items + 4 ≤ N) × InCorner free_rect placed }
    ensures { guide.new.items ≡ next_nodes merged direction kerf free_rect placed cut guide.old.items }
{
    if merged {
        guide.clear();
        return;
    }
    let subtree = subtree::guillotine_insert_subtree(free_rect, placed, cut, direction, kerf);
    replace_free_leaf(guide, free_rect, subtree);
}
