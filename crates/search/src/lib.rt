// The search for the best candidate: a first population, generations of children, and the winner (`optimize_population_pipeline` past its prefilter,
// `initial_population`, `run_population_generations` and what they call).
// A population is in one of two regions of 48 slots, and a generation's survivors are in the other.
#![tactic(auto)]

ghost use Rattle.std.specs.Prelude.{◌≡◌, IfSome, [], map, ◌+◌, ◌-◌, ◌*◌, ◌≤◌, ◌<◌, length};
ghost use Rattle.lists.specs.Base.{range};
ghost use Rattle.lists.specs.Elements.{Perm};
ghost use Rattle.model.specs.Search.{crossover_population, generation, winner, initial_population};
ghost use Rattle.project.specs.Problem.{Sound};
ghost use Rattle.candidate.specs.Stands.{Stands};
ghost use Rattle.search.specs.Numbers.{numbers_of};
ghost use Rattle.search.specs.Slots.{slot_words, Storable};
ghost use Rattle.search.specs.Populations.{AllStand, PopulationBecomes, OnlySlots, Stores};
ghost use Rattle.search.specs.Ranks.{Selected};
ghost use Rattle.search.specs.Regions.{Region, behind_slots, PushesChild};
ghost use Rattle.search.specs.Improved.{ShowsSheets, improved, FromSeed, Improves};

mod stored; // A candidate at rest in 130 words of the workspace
pub mod seeds; // The numbers of an effort, the rows of heuristics, and the seeds of the first population
mod survival; // Survival and the final choice

use candidate::{Candidate, placing, variation};
use model::BaselineGuillotineHeuristic;
use project::orders;
use project::problem::ProblemInstance;
use seeds::{CandidateSeed, SearchNumbers};
use sheet::free_rects::FreeRects;
use stored::Slots;

// The slots of a region: 32 survivors and 16 children.
const MOST_SLOTS: usize = 48;

// ---- the first population

// A problem is always sound, but a proof knows it only after a call of one of its methods; a function that needs it earlier has it as a clause.

fn candidate_from_seed(
    free: &mut [FreeRects; 64],
    inst: &ProblemInstance<'_>,
    seed: &CandidateSeed,
) -> Candidate
    requires { Sound inst.now × Perm seed.now.cut_order.items (range (length inst.now.cuts)) }
    ensures { FromSeed inst.now seed.now result }
{
    let mut c = Candidate::new();
    placing::place_cuts(
        free,
        inst,
        &mut c,
        seed.cut_order.as_slice(),
        seed.heuristic,
    );
    c
}

// The candidates of all seeds, in the slots from 0 on: how many.
fn initial_population(
    ws: &mut [u32],
    free: &mut [FreeRects; 64],
    inst: &ProblemInstance<'_>,
    rows: &[BaselineGuillotineHeuristic],
    n: SearchNumbers,
) -> usize
    requires { (length rows.now ≤ 8) × (n.shuffles ≤ 24) × (slot_words * 48 ≤ length ws.old) }
    ensures { Stores inst.now ws.new 0 result (initial_population rows.now inst.now (numbers_of n))
        × OnlySlots 0 48 ws.old ws.new × (result ≤ 32) }
{
    let sorted = orders::sorted_cut_order(inst.cuts());
    let count = seeds::seed_count(rows, n);
    for k in 0..count {
        let seed = seeds::initial_candidate_seed(&sorted, rows, n, k);
        let c = candidate_from_seed(free, inst, &seed);
        stored::store_at(ws, k, &c);
    }
    count
}

// ---- improvement

// The free rectangles of a candidate's sheets, from its insertions.
fn show_sheets(free: &mut [FreeRects; 64], inst: &ProblemInstance<'_>, c: &Candidate)
    requires { Sound inst.now × Stands inst.now [] c.now }
    ensures { ShowsSheets inst.now c.now free.old free.new }
{
    let boards = &c.boards[..c.sheets];
    let _all = placing::rebuild(free, inst, boards, c.insertions.as_slice());
}

// Repair, compaction, repair.
fn improve(
    free: &mut [FreeRects; 64],
    inst: &ProblemInstance<'_>,
    c: &mut Candidate,
    h: BaselineGuillotineHeuristic,
)
    requires { Sound inst.now × Stands inst.now [] c.old }
    ensures { Improves inst.now h c.old c.new }
{
    show_sheets(free, inst, c);
    placing::reinsert_unused_first_fit(free, inst, c, h);
    variation::compact_worst_bin_for_repair(inst, c);
    placing::reinsert_unused_first_fit(free, inst, c, h);
}

// Every candidate of a population improved, each in its slot. The source passes over the population three times; here each candidate is loaded once.
fn improve_population(
    ws: &mut [u32],
    slots: Slots,
    free: &mut [FreeRects; 64],
    inst: &ProblemInstance<'_>,
    h: BaselineGuillotineHeuristic,
)
    requires { AllStand inst.now ws.old slots.base slots.count × (slot_words * (slots.base + slots.count) ≤ length ws.old) }
    ensures { PopulationBecomes inst.now (λ i. map (improved i h)) ws.old slots.base slots.count ws.new slots.base slots.count
        × OnlySlots slots.base (slots.base + slots.count) ws.old ws.new }
{
    let cuts = inst.cuts().len();
    for k in 0..slots.count {
        let mut c = stored::load_at(ws, slots.base + k, cuts);
        improve(free, inst, &mut c, h);
        stored::store_at(ws, slots.base + k, &c);
    }
}

// ---- crossover

// A child, if there is one, goes behind the last candidate: how many there are now.
fn push_child(ws: &mut [u32], base: usize, size: usize, child: Option<Candidate>) -> usize
    requires { (slot_words * (base + size) + slot_words ≤ length ws.old) × IfSome child (λ c. Storable c) }
    ensures { PushesChild base size child ws.old ws.new result }
{
    match child {
        None => size,
        Some(c) => {
            stored::store_at(ws, base + size, &c);
            size + 1
        }
    }
}

// The children of neighbours, two by two, behind all parents: how many there are now.
fn crossover_population(
    ws: &mut [u32],
    slots: Slots,
    free: &mut [FreeRects; 64],
    inst: &ProblemInstance<'_>,
    h: BaselineGuillotineHeuristic,
) -> usize
    requires { AllStand inst.now ws.old slots.base slots.count × (slots.count ≤ 32) × (slot_words * (slots.base + 48) ≤ length ws.old) }
    ensures { PopulationBecomes inst.now (λ i. crossover_population i h) ws.old slots.base slots.count ws.new slots.base result
        × OnlySlots (slots.base + slots.count) (slots.base + 48) ws.old ws.new × (result ≤ 48) }
{
    let cuts = inst.cuts().len();
    let mut size = slots.count;
    for pair in 0..slots.count / 2 {
        let i = slots.base + 2 * pair;
        let left = stored::load_at(ws, i, cuts);
        let right = stored::load_at(ws, i + 1, cuts);
        let child = variation::crossover_child_from_donor_bin(free, inst, &left, &right, h);
        size = push_child(ws, slots.base, size, child);
    }
    size
}

// ---- generations

// One round of run_population_generations: from a region to the other.
fn next_generation(
    ws: &mut [u32],
    slots: Slots,
    free: &mut [FreeRects; 64],
    inst: &ProblemInstance<'_>,
    h: BaselineGuillotineHeuristic,
    survivors: usize,
) -> Slots
    requires { AllStand inst.now ws.old slots.base slots.count × (slots.count ≤ 32) × Region slots.base × (slot_words * 96 ≤ length ws.old) }
    ensures { PopulationBecomes inst.now (λ i. generation i h survivors) ws.old slots.base slots.count ws.new result.base result.count
        × (result.base ≡ 48 - slots.base) × OnlySlots 0 96 ws.old ws.new }
{
    let base = slots.base;
    let count = crossover_population(ws, slots, free, inst, h);
    let all = Slots { base, count };
    improve_population(ws, all, free, inst, h);
    let to = MOST_SLOTS - base;
    let count = survival::survival_generation(ws, all, to, inst, survivors);
    Slots { base: to, count }
}

// The first best of the last population.
pub fn winner(
    ws: &mut [u32],
    free: &mut [FreeRects; 64],
    inst: &ProblemInstance<'_>,
    rows: &[BaselineGuillotineHeuristic],
    n: SearchNumbers,
) -> Option<Candidate>
    requires { (length rows.now ≤ 8) × (n.shuffles ≤ 24) × (n.survivors ≤ 32) × (slot_words * 96 ≤ length ws.old) }
    ensures { Selected inst.now (winner rows.now inst.now (numbers_of n)) result × (behind_slots ws.new ≡ behind_slots ws.old) }
{
    let h = seeds::default_heuristic(rows);
    let count = initial_population(ws, free, inst, rows, n);
    let mut slots = Slots { base: 0, count };
    for _round in 0..n.generations {
        slots = next_generation(ws, slots, free, inst, h, n.survivors);
    }
    survival::select_best_valid_candidate(ws, slots, inst)
}
