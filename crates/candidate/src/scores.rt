// The order of two fitnesses and of two scores: the better one is the greater.

ghost use Rattle.std.specs.Prelude.{◌≡◌};
ghost use Rattle.lists.specs.Base.{is_less, is_greater};
ghost use Rattle.lists.specs.Language.{option_of, order_of};
ghost use Rattle.model.specs.Fitness.{compare_float, compare_fitness};
ghost use Rattle.model.specs.Candidate.{compare_score};
ghost use Rattle.candidate.specs.Scores.{score_of};

use std::cmp::Ordering;

// A candidate of no sheets has no fitness.
#[derive(Clone, Copy, Default)]
pub struct CandidateScore {
    pub used_stock_count: usize,
    pub waste_area: u64,
    pub fitness: Option<f64>,
}

// partial_cmp, with Equal where there is none, as in the source: floats have no `Ord`. None, of no sheets, is less than every fitness.
#[tactic(auto, using(crate::proofs::scores::Order::fitness_order))]
fn compare_fitness(left: Option<f64>, right: Option<f64>) -> Ordering
    ensures { order_of result ≡ compare_fitness (option_of left) (option_of right) }
{
    left.partial_cmp(&right).unwrap_or(Ordering::Equal)
}

// Fewer sheets, then less waste area, then higher fitness: the better score is the greater one. It is no derived order: two fields descend and one is a float.
#[tactic(auto, unfolding(model::specs::Candidate::compare_score, crate::specs::Scores::score_of))]
fn compare_candidate_score(left: CandidateScore, right: CandidateScore) -> Ordering
    ensures { order_of result ≡ compare_score (score_of left) (score_of right) }
{
    right
        .used_stock_count
        .cmp(&left.used_stock_count)
        .then_with(|| right.waste_area.cmp(&left.waste_area))
        .then_with(|| compare_fitness(left.fitness, right.fitness))
}

// The test of the final choice and, its operands exchanged, of survival's sort.
pub fn is_better(left: CandidateScore, right: CandidateScore) -> bool
    ensures { result ≡ is_greater (compare_score (score_of left) (score_of right)) }
{
    compare_candidate_score(left, right).is_gt()
}

// The tests that find the fittest and the least fit sheet, as functions that can be handed on.
#[tactic(auto, using(crate::proofs::scores::Order::greater_is))]
pub fn is_fitter(left: f64, right: f64) -> bool
    ensures { result ≡ is_greater (compare_float left right) }
{
    left > right
}

#[tactic(auto, using(crate::proofs::scores::Order::less_is))]
pub fn is_less_fit(left: f64, right: f64) -> bool
    ensures { result ≡ is_less (compare_float left right) }
{
    left < right
}
