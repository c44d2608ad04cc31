// A sheet's saw and use: how far its guide has the saw go, and how much of its board is placed.

ghost use Rattle.std.specs.Prelude.{◌≡◌, ◌*◌, ◌/◌, ◌^◌, ◌≤◌, ◌<◌, map, sum};
ghost use Rattle.guide.specs.Saws.{node_saw};

use super::subtree::Node;
use model::Direction;

// A horizontal cut is as long as its work rectangle is wide, a vertical one as that is long.
fn node_saw(node: &Node) -> u32
    ensures { result ≡ node_saw node.now }
{
    match *node {
        Node::Cut {
            work,
            orientation: Direction::Horizontal,
            ..
        } => work.width,
        Node::Cut {
            work,
            orientation: Direction::Vertical,
            ..
        } => work.length,
        Node::Piece { .. } | Node::Free(_) => 0,
    }
}

// The sum of the cuts' lengths.
pub fn saw_of(nodes: &[Node]) -> u32
    requires { sum (map node_saw nodes.now) < 2 ^ 32 }
    ensures { result ≡ sum (map node_saw nodes.now) }
{
    nodes.iter().map(|node| node_saw(node)).sum()
}

// The share of a board that is placed, in thousandths.
pub fn used(placed: u64, board: u64) -> u32
    requires { (0 < board) × (placed ≤ board) × (board ≤ 1000000000000) }
    ensures { result ≡ placed * 1000 / board }
{
    (placed * 1000 / board) as u32
}
