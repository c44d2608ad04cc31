// The plan's words: the writer of a winner's plan, and the reader of one sheet's part.
#![tactic(auto)]

ghost use Rattle.std.specs.Prelude.{◌≡◌, [], ◌≤◌, length, option_map};
ghost use Rattle.model.specs.Outcome.{least_plan};
ghost use Rattle.model.specs.Fitness.{one};
ghost use Rattle.model.specs.Plan.{plan_words, sheet_part};
ghost use Rattle.project.specs.Problem.{Sound};
ghost use Rattle.candidate.specs.Stands.{Stands, candidate_in};
ghost use Rattle.plan.specs.Sheets.{Plans, candidate_plan, WritesSheets, part_named};

mod plan_words; // The words of a plan
mod sheet_plan; // One sheet's part of the plan

use arrayvec::ArrayVec;
use candidate::fitness::SheetAreas;
use candidate::{Candidate, fitness};
use guide::subtree::Guide;
use model::LayoutKind;
use project::problem::ProblemInstance;
use sheet::free_rects::FreeRects;
use words::{copying, numbers};

// ---- writing

// The sheets' bodies: where the last one ends, and the areas of each sheet.
#[derive(Drop)]
pub struct Bodies {
    pub end: usize,
    pub areas: ArrayVec<SheetAreas, 64>,
}

// The contents and the bodies, behind the plan's four first words. Two clauses: the plan memory is long enough, since C may lend a slice of any length;
// and the problem is sound, since no method is called here that would tell.
fn write_sheets(plan: &mut [u32], inst: &ProblemInstance<'_>, c: &Candidate) -> Bodies
    requires { Sound inst.now × Stands inst.now [] c.now × (least_plan ≤ length plan.old) }
    ensures { WritesSheets (candidate_in inst.now c.now).bins plan.old plan.new result }
{
    let insertions = c.insertions.as_slice();
    let mut free = FreeRects::new();
    let mut guide = Guide::new();
    let mut areas = ArrayVec::new();
    let mut at = 4 + 2 * c.sheets;
    for j in 0..c.sheets {
        let part = &mut plan[at..];
        let board = c.boards[j];
        let body = sheet_plan::write_sheet(part, &mut free, &mut guide, inst, insertions, board);
        copying::put_words(plan, 4 + 2 * j, &[at as u32, body.size as u32]);
        areas.push(body.areas);
        at += body.size;
    }
    Bodies { end: at, areas }
}

// into_solution of a candidate: the plan's words from the first on, all behind them as found. The answer is how many they are.
pub fn write_plan(plan: &mut [u32], inst: &ProblemInstance<'_>, c: &Candidate) -> usize
    requires { Stands inst.now [] c.now × (least_plan ≤ length plan.old) }
    ensures { Plans (candidate_plan (candidate_in inst.now c.now)) plan.old plan.new result }
{
    // The problem is sound: the plan fits.
    let _sound = inst.stock();
    let bodies = write_sheets(plan, inst, c);
    let bits = fitness::fitness_bits(bodies.areas.as_slice());
    copying::put_words(
        plan,
        0,
        &[
            c.sheets as u32,
            numbers::low_word(bits),
            numbers::high_word(bits),
            0,
        ],
    );
    bodies.end
}

// The plan of no sheets, with fitness 1.0.
pub fn empty_plan(plan: &mut [u32], layout: LayoutKind) -> usize
    requires { least_plan ≤ length plan.old }
    ensures { Plans (plan_words layout one []) plan.old plan.new result }
{
    copying::put_words(plan, 0, &[0, 0, 0x3FF0_0000, layout as u32]);
    4
}

// ---- reading

// The part of the plan that entry `number` of the contents names; none if there is no such entry or the part goes beyond the slice.
fn sheet_part(plan: &[u32], number: u32) -> Option<&[u32]>
    ensures { option_map (λ part. part.now) result ≡ part_named plan.now number }
{
    if *plan.first()? <= number {
        return None;
    }
    let entry = 4 + 2 * (number as usize);
    let start = *plan.get(entry)? as usize;
    let size = *plan.get(entry + 1)? as usize;
    plan.get(start..start + size)
}

// The words of one sheet, as a part of the plan; none for an absent number, or an entry or its part beyond the slice.
pub fn sheet_words(plan: &[u32], number: u32) -> &[u32]
    ensures { result.now ≡ sheet_part plan.now number }
{
    sheet_part(plan, number).unwrap_or(&[])
}
