// A subtree's nodes in the place of a guide's node.

ghost use Rattle.std.specs.Prelude.{◌≡◌, ◌+◌, ◌≤◌, ◌<◌, [], length, take};
ghost use Rattle.lists.specs.Parts.{patch};
ghost use Rattle.guide.specs.Nodes.{around, subtree_nodes};
ghost use Rattle.guide.specs.Splices.{spliced, before_nodes, after_nodes};

use super::subtree::{CutOff, Node, Subtree};
use arrayvec::ArrayVec;

// How many nodes a cut adds, if there is one: itself and its remainder.
fn extra_nodes(c: Option<CutOff>) -> usize
    ensures { result ≡ length (around c []) }
{
    match c {
        Some(_) => 2,
        None => 0,
    }
}

// The cut goes before what it cuts, if there is one. Answers the number past it. The next function differs in the field alone: one for both would be handed the field by a closure.
fn put_before(nodes: &mut [Node], at: usize, c: Option<CutOff>) -> usize
    requires { at + length (before_nodes c) ≤ length nodes.old }
    ensures nodes { nodes.new ≡ patch nodes.old at (before_nodes c) }
    ensures past { result ≡ at + length (before_nodes c) }
{
    let Some(c) = c else {
        return at;
    };
    nodes[at] = c.cut;
    at + 1
}

// The remainder goes behind it.
fn put_after(nodes: &mut [Node], at: usize, c: Option<CutOff>) -> usize
    requires { at + length (after_nodes c) ≤ length nodes.old }
    ensures nodes { nodes.new ≡ patch nodes.old at (after_nodes c) }
    ensures past { result ≡ at + length (after_nodes c) }
{
    let Some(c) = c else {
        return at;
    };
    nodes[at] = c.remainder;
    at + 1
}

// The subtree's nodes, from a number on.
fn put_subtree(nodes: &mut [Node], at: usize, subtree: Subtree)
    requires { at + length (subtree_nodes subtree) ≤ length nodes.old }
    ensures { nodes.new ≡ patch nodes.old at (subtree_nodes subtree) }
{
    let inside = put_before(nodes, at, subtree.outer);
    let piece = put_before(nodes, inside, subtree.inner);
    nodes[piece] = subtree.piece;
    let outside = put_after(nodes, piece + 1, subtree.inner);
    put_after(nodes, outside, subtree.outer);
}

// Of the first `end` nodes those behind `at` move up to the end, and the subtree goes where they make room.
fn put_spliced(nodes: &mut [Node], end: usize, at: usize, subtree: Subtree)
    requires { (at < end) × (end ≤ length nodes.old) × (end + length (subtree_nodes subtree) ≡ length nodes.old + 1) }
    ensures { nodes.new ≡ spliced (take end nodes.old) at (subtree_nodes subtree) }
{
    nodes.copy_within(at + 1..end, at + 1 + (nodes.len() - end));
    put_subtree(nodes, at, subtree);
}

// The subtree's nodes in the place of a node: those behind it move up, all at once.
pub fn splice<const N: usize>(guide: &mut ArrayVec<Node, N>, at: usize, subtree: Subtree)
    requires { (at < length guide.old.items) × (length guide.old.items + length (subtree_nodes subtree) ≤ N + 1) }
    ensures { guide.new.items ≡ spliced guide.old.items at (subtree_nodes subtree) }
{
    let end = guide.len();
    let extra = extra_nodes(subtree.outer) + extra_nodes(subtree.inner);
    let _fits = guide.try_extend_from_slice(&[subtree.piece; 4][..extra]);
    put_spliced(guide.as_mut_slice(), end, at, subtree);
}
