// The nodes of a cutting guide, and the subtree that an insertion puts in the place of a free leaf.

ghost use Rattle.std.specs.Prelude.{◌≡◌, option_to_list};
ghost use Rattle.model.specs.declared.Direction.{Direction};
ghost use Rattle.model.specs.Types.{cut_key, no_rect};
ghost use Rattle.guide.specs.declared.subtree.Node.{Node};
ghost use Rattle.guide.specs.Nodes.{words_of, cut_off_of, subtree_of, InCorner};

use arrayvec::ArrayVec;
use model::{CutInstance, Direction, InstanceKey, Rect};
use sheet::split;
use words::numbers;

// A node of a guide, without what is below it.
#[derive(Clone, Copy)]
pub enum Node {
    Cut {
        work: Rect,
        orientation: Direction,
        offset: u32,
        kerf: u32,
    },
    Piece {
        rect: Rect,
        key: InstanceKey,
    },
    Free(Rect),
}

impl Default for Node {
    fn default() -> Self
        ensures { result ≡ Node.Free no_rect }
    {
        Node::Free(Rect {
            x: 0,
            y: 0,
            width: 0,
            length: 0,
        })
    }
}

impl Node {
    // Eight words: the node's kind (0 cut, 1 piece, 2 waste), three that tell more of it, its rectangle.
    pub fn words(self) -> [u32; 8]
        ensures { result ≡ words_of self }
    {
        match self {
            Node::Cut {
                work: r,
                orientation,
                offset,
                kerf,
            } => [
                0,
                orientation as u32,
                offset,
                kerf,
                r.x,
                r.y,
                r.width,
                r.length,
            ],
            Node::Piece { rect: r, key } => [
                1,
                numbers::low_word(key.id),
                numbers::high_word(key.id),
                key.instance,
                r.x,
                r.y,
                r.width,
                r.length,
            ],
            Node::Free(r) => [2, 0, 0, 0, r.x, r.y, r.width, r.length],
        }
    }
}

// The board, and four more for each of 64 pieces.
pub const MOST_NODES: usize = 257;

// The nodes of a guide in preorder: a cut before its first and its second child. A guide of no nodes is none.
pub type Guide = ArrayVec<Node, MOST_NODES>;

// A cut, and the leaf of the remainder that it takes off.
#[derive(Clone, Copy)]
pub struct CutOff {
    pub cut: Node,
    pub remainder: Node,
}

// An insertion's subtree: the outer cut is around the inner one, and that around the piece.
#[derive(Clone, Copy)]
pub struct Subtree {
    pub outer: Option<CutOff>,
    pub inner: Option<CutOff>,
    pub piece: Node,
}

// A remainder cut off from the work rectangle, where there is one.
fn cut_off(
    work: Rect,
    orientation: Direction,
    offset: u32,
    kerf: u32,
    remainder: Option<Rect>,
) -> Option<CutOff>
    ensures { result ≡ cut_off_of work orientation offset kerf (option_to_list remainder) }
{
    let rect = remainder?;
    let cut = Node::Cut {
        work,
        orientation,
        offset,
        kerf,
    };
    Some(CutOff {
        cut,
        remainder: Node::Free(rect),
    })
}

fn cut_key(cut: CutInstance) -> InstanceKey
    ensures { result ≡ cut_key cut }
{
    InstanceKey {
        id: cut.cut_id,
        instance: cut.instance,
    }
}

// The two functions below differ in every rectangle, offset and remainder; one for both would choose each of them by the direction.
fn guillotine_horizontal_insert_subtree(
    free_rect: Rect,
    placed: Rect,
    cut: CutInstance,
    kerf: u32,
) -> Subtree
    requires { InCorner free_rect placed }
    ensures { result ≡ subtree_of Direction.Horizontal kerf free_rect placed cut }
{
    let top = Rect {
        length: placed.length,
        ..free_rect
    };
    let right = split::right_remainder(free_rect, placed, kerf, Direction::Horizontal);
    let bottom = split::bottom_remainder(free_rect, placed, kerf, Direction::Horizontal);
    let outer = cut_off(
        free_rect,
        Direction::Horizontal,
        placed.length,
        kerf,
        bottom,
    );
    let inner = cut_off(top, Direction::Vertical, placed.width, kerf, right);
    Subtree {
        outer,
        inner,
        piece: Node::Piece {
            rect: placed,
            key: cut_key(cut),
        },
    }
}

fn guillotine_vertical_insert_subtree(
    free_rect: Rect,
    placed: Rect,
    cut: CutInstance,
    kerf: u32,
) -> Subtree
    requires { InCorner free_rect placed }
    ensures { result ≡ subtree_of Direction.Vertical kerf free_rect placed cut }
{
    let left = Rect {
        width: placed.width,
        ..free_rect
    };
    let bottom = split::bottom_remainder(free_rect, placed, kerf, Direction::Vertical);
    let right = split::right_remainder(free_rect, placed, kerf, Direction::Vertical);
    let outer = cut_off(free_rect, Direction::Vertical, placed.width, kerf, right);
    let inner = cut_off(left, Direction::Horizontal, placed.length, kerf, bottom);
    Subtree {
        outer,
        inner,
        piece: Node::Piece {
            rect: placed,
            key: cut_key(cut),
        },
    }
}

pub fn guillotine_insert_subtree(
    free_rect: Rect,
    placed: Rect,
    cut: CutInstance,
    direction: Direction,
    kerf: u32,
) -> Subtree
    requires { InCorner free_rect placed }
    ensures { result ≡ subtree_of direction kerf free_rect placed cut }
{
    match direction {
        Direction::Horizontal => guillotine_horizontal_insert_subtree(free_rect, placed, cut, kerf),
        Direction::Vertical => guillotine_vertical_insert_subtree(free_rect, placed, cut, kerf),
    }
}
