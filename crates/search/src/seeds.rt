// The numbers of an effort, the rows of heuristics, and the seeds of the first population: `PopulationPipelineConfig`, `heuristic_variants`,
// `initial_candidate_seeds`.

ghost use Rattle.std.specs.Prelude.{◌≡◌, ◌≤◌, List, length};
ghost use Rattle.model.specs.declared.CutInstance.{CutInstance};
ghost use Rattle.model.specs.Search.{heuristic, search_numbers, heuristic_variants, default_heuristic, initial_seeds};
ghost use Rattle.generator.specs.Shuffle.{shuffled};
ghost use Rattle.search.specs.Numbers.{numbers_of, sorted_seeds};
ghost use Rattle.search.specs.Seeds.{row_at, seed_at};

use arrayvec::ArrayVec;
use generator::shuffle;
use model::{
    BaselineGuillotineHeuristic, GuillotineRectChoice, GuillotineSplitHeuristic, OptimizerEffort,
    RotationPreference,
};
use words::copying;

// An order of the cuts, each by its place in the catalogue, and the heuristic that places them.
#[derive(Drop)]
pub struct CandidateSeed {
    pub cut_order: ArrayVec<u32, 64>,
    pub heuristic: BaselineGuillotineHeuristic,
}

// PopulationPipelineConfig without max_candidates, which cuts nothing off. `variants`: whether the other rows make seeds too.
#[derive(Clone, Copy)]
pub struct SearchNumbers {
    pub variants: bool,
    pub shuffles: usize,
    pub generations: usize,
    pub survivors: usize,
    pub first_seed: u64,
}

// ---- the numbers and the rows of the source

pub fn search_numbers(effort: OptimizerEffort) -> SearchNumbers
    ensures { numbers_of result ≡ search_numbers effort }
{
    match effort {
        OptimizerEffort::Fast => SearchNumbers {
            variants: false,
            shuffles: 0,
            generations: 0,
            survivors: 0,
            first_seed: 0,
        },
        OptimizerEffort::Balanced => SearchNumbers {
            variants: true,
            shuffles: 8,
            generations: 1,
            survivors: 16,
            first_seed: 0,
        },
        OptimizerEffort::Thorough => SearchNumbers {
            variants: true,
            shuffles: 24,
            generations: 4,
            survivors: 32,
            first_seed: 0,
        },
    }
}

fn row(
    rect_choice: GuillotineRectChoice,
    split: GuillotineSplitHeuristic,
    rotation: RotationPreference,
) -> BaselineGuillotineHeuristic
    ensures { result ≡ heuristic rect_choice split rotation }
{
    BaselineGuillotineHeuristic {
        rect_choice,
        split,
        rotation,
    }
}

pub fn heuristic_variants() -> [BaselineGuillotineHeuristic; 5]
    ensures { result ≡ heuristic_variants }
{
    let upright = RotationPreference::PreferUpright;
    let longer = GuillotineSplitHeuristic::LongerAxis;
    [
        row(
            GuillotineRectChoice::Area,
            GuillotineSplitHeuristic::Horizontal,
            upright,
        ),
        row(GuillotineRectChoice::LongSide, longer, upright),
        row(
            GuillotineRectChoice::LongSide,
            GuillotineSplitHeuristic::MaximizeArea,
            upright,
        ),
        row(GuillotineRectChoice::ShortSide, longer, upright),
        row(
            GuillotineRectChoice::LongSide,
            longer,
            RotationPreference::PreferRotated,
        ),
    ]
}

// Row k, and the source's default where there is none.
fn heuristic_at(rows: &[BaselineGuillotineHeuristic], k: usize) -> BaselineGuillotineHeuristic
    ensures { result ≡ row_at rows.now k }
{
    if k < rows.len() {
        return rows[k];
    }
    row(
        GuillotineRectChoice::Area,
        GuillotineSplitHeuristic::Horizontal,
        RotationPreference::PreferUpright,
    )
}

// default_heuristic: the first row.
pub fn default_heuristic(rows: &[BaselineGuillotineHeuristic]) -> BaselineGuillotineHeuristic
    ensures { result ≡ default_heuristic rows.now }
{
    heuristic_at(rows, 0)
}

// ---- seeds

// Rows and numbers are two parameters, as in the source.

// How many seeds have the sorted order: one, and with variants one for each row.
fn sorted_seeds(rows: &[BaselineGuillotineHeuristic], n: SearchNumbers) -> usize
    ensures { result ≡ sorted_seeds rows.now n }
{
    if n.variants { rows.len().max(1) } else { 1 }
}

pub fn seed_count(rows: &[BaselineGuillotineHeuristic], n: SearchNumbers) -> usize
    requires { (length rows.now ≤ 8) × (n.shuffles ≤ 24) }
    ensures { ((cuts : List CutInstance) → result ≡ length (initial_seeds rows.now cuts (numbers_of n))) × (result ≤ 32) }
{
    sorted_seeds(rows, n) + n.shuffles
}

// shuffle_cut_order of an order that is sorted already.
fn shuffled_order(sorted: &ArrayVec<u32, 64>, seed: u64) -> ArrayVec<u32, 64>
    ensures { result.items ≡ shuffled 0 seed sorted.now.items }
{
    let mut order = copying::listed(sorted.as_slice());
    shuffle::shuffle_cut_order(order.as_mut_slice(), seed);
    order
}

// The k-th of initial_candidate_seeds, from the sorted order (`seed_at_is`). The equation holds of any order and any number.
pub fn initial_candidate_seed(
    sorted: &ArrayVec<u32, 64>,
    rows: &[BaselineGuillotineHeuristic],
    n: SearchNumbers,
    k: usize,
) -> CandidateSeed
    ensures { result ≡ seed_at sorted.now.items rows.now n k }
{
    let first = sorted_seeds(rows, n);
    if k < first {
        return CandidateSeed {
            cut_order: copying::listed(sorted.as_slice()),
            heuristic: heuristic_at(rows, k),
        };
    }
    let seed = n.first_seed.wrapping_add((k - first) as u64);
    CandidateSeed {
        cut_order: shuffled_order(sorted, seed),
        heuristic: heuristic_at(rows, 0),
    }
}
