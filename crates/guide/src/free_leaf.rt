// The search for a free leaf among the nodes of a guide, which are in preorder: a cut before its first and its second child.

ghost use Rattle.std.specs.Prelude.{◌≡◌};
ghost use Rattle.guide.specs.Leaves.{is_free_leaf, leaf_behind, free_leaf};

use super::subtree::Node;
use model::Rect;
use std::ops::ControlFlow;

#[tactic(auto, using(crate::proofs::free_leaf::Searches::same_rect_is))]
fn is_free_leaf(node: &Node, target: Rect) -> bool
    ensures { result ≡ is_free_leaf target node.now }
{
    match *node {
        Node::Free(rect) => rect == target,
        Node::Cut { .. } | Node::Piece { .. } => false,
    }
}

// In the tree whose root is node `at`, first child before second. `Break(n)`: node n is the leaf. `Continue(n)`: the tree has no such leaf and ends before
// node n. Children come after their parent, so the number of nodes left falls. The nodes run out only where they are no tree's.
fn free_leaf_from(nodes: &[Node], at: usize, target: Rect) -> ControlFlow<usize, usize>
    ensures { result ≡ leaf_behind target at nodes.now }
{
    let Some(node) = nodes.get(at) else {
        return ControlFlow::Continue(at);
    };
    if let Node::Cut { .. } = node {
        let second = free_leaf_from(nodes, at + 1, target)?;
        return free_leaf_from(nodes, second, target);
    }
    if is_free_leaf(node, target) {
        ControlFlow::Break(at)
    } else {
        ControlFlow::Continue(at + 1)
    }
}

// The number of the first node that is a free leaf of this rectangle, among the nodes of a whole tree.
pub fn find_free_leaf(nodes: &[Node], target: Rect) -> Option<usize>
    ensures { result ≡ free_leaf target nodes.now }
{
    free_leaf_from(nodes, 0, target).break_value()
}
