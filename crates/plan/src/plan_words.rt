// The words of a plan: a piece's nine, the free rectangles', the guide's nodes', and the ten before a sheet's pieces.

ghost use Rattle.std.specs.Prelude.{◌≡◌, ◌+◌, ◌*◌, ◌≤◌, length};
ghost use Rattle.lists.specs.Base.{concat_map};
ghost use Rattle.lists.specs.Parts.{patch};
ghost use Rattle.model.specs.declared.BaselineGuillotineHeuristic.{BaselineGuillotineHeuristic as Heuristic};
ghost use Rattle.model.specs.Plan.{rect_words, piece_words};
ghost use Rattle.guide.specs.Nodes.{words_of};
ghost use Rattle.plan.specs.Heads.{piece, head_words};

use guide::subtree::Node;
use model::{CutInstance, FitResult, Rect, StockInstance};
use words::{copying, numbers};

// Where to write is an index beside the plan: the parts of a body follow one another, and each begins where the one before it ends.

// A piece's nine words.
pub fn put_piece(plan: &mut [u32], at: usize, cut: CutInstance, fit: FitResult)
    requires { at + 9 ≤ length plan.old }
    ensures { (h : Heuristic) → plan.new ≡ patch plan.old at (piece_words (piece cut h fit)) }
{
    let rect = fit.rect;
    copying::put_words(
        plan,
        at,
        &[
            numbers::low_word(cut.cut_id),
            numbers::high_word(cut.cut_id),
            cut.instance,
            rect.x,
            rect.y,
            rect.width,
            rect.length,
            fit.pattern as u32,
            u32::from(fit.rotated),
        ],
    );
}

// The free rectangles' words.
#[tactic(auto, using(crate::proofs::plan_words::Parts::waste_none, crate::proofs::plan_words::Parts::waste_step))]
pub fn put_waste(plan: &mut [u32], at: usize, rects: &[Rect])
    requires { at + 4 * length rects.now ≤ length plan.old }
    ensures { plan.new ≡ patch plan.old at (concat_map rect_words rects.now) }
{
    for (index, rect) in rects.iter().enumerate() {
        copying::put_words(
            plan,
            at + 4 * index,
            &[rect.x, rect.y, rect.width, rect.length],
        );
    }
}

// The words of a guide's nodes.
#[tactic(auto, using(crate::proofs::plan_words::Parts::nodes_none, crate::proofs::plan_words::Parts::nodes_step))]
pub fn put_nodes(plan: &mut [u32], at: usize, nodes: &[Node])
    requires { at + 8 * length nodes.now ≤ length plan.old }
    ensures { plan.new ≡ patch plan.old at (concat_map words_of nodes.now) }
{
    for (index, node) in nodes.iter().enumerate() {
        copying::put_words(plan, at + 8 * index, &node.words());
    }
}

// The ten words that a sheet's part begins with.
pub fn put_head(
    part: &mut [u32],
    stock: StockInstance,
    used: u32,
    saw: u32,
    pieces: u32,
    waste: u32,
    nodes: u32,
)
    requires { 10 ≤ length part.old }
    ensures { part.new ≡ patch part.old 0 (head_words stock used saw pieces waste nodes) }
{
    copying::put_words(
        part,
        0,
        &[
            numbers::low_word(stock.stock_id),
            numbers::high_word(stock.stock_id),
            stock.instance,
            stock.width,
            stock.length,
            used,
            saw,
            pieces,
            waste,
            nodes,
        ],
    )
}
