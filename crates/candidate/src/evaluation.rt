// What a candidate is worth: the areas and the fitness of its sheets, its validity and its score.

ghost use Rattle.std.specs.Prelude.{◌≡◌, [], map, ◌<◌, ◌^◌, Bool, Float, length, sum_by};
ghost use Rattle.std.proofs.Math.Option.{some};
ghost use Rattle.lists.specs.Base.{sum, range};
ghost use Rattle.lists.specs.Elements.{All};
ghost use Rattle.candidate.specs.Scores.{score_of};
ghost use Rattle.candidate.specs.Entries.{cut_of};
ghost use Rattle.candidate.specs.Stands.{candidate_in, Stands, placed_words};
ghost use Rattle.candidate.specs.OnSheets.{word_area, placed_on, Known, AreasOf, IsFirstBest, less_fit, fitter, score_in};
ghost use Rattle.candidate.specs.Keys.{repeats, valid_words};

use super::fitness::SheetAreas;
use super::scores::CandidateScore;
use super::{fitness, scores};
use crate::Candidate;
use arrayvec::ArrayVec;
use project::problem::ProblemInstance;
use words::numbers;

// ---- areas and fitness of the sheets

// The area placed on each board, by the board's number.
fn placed_on_boards(inst: &ProblemInstance<'_>, insertions: &[u32]) -> [u64; 64]
    requires { All (Known inst.now) insertions.now × (sum (map (word_area inst.now) insertions.now) < 2 ^ 64) }
    ensures { result ≡ map (placed_on inst.now insertions.now) (range 64) }
{
    let mut areas = [0u64; 64];
    for word in insertions {
        let board = crate::board_of(*word) as usize;
        let cut = inst.cut(crate::cut_of(*word) as usize);
        areas[board] += numbers::area(cut.width, cut.length);
    }
    areas
}

// The areas of each sheet.
pub fn sheet_areas(inst: &ProblemInstance<'_>, c: &Candidate) -> ArrayVec<SheetAreas, 64>
    requires { Stands inst.now [] c.now }
    ensures { AreasOf result.items (candidate_in inst.now c.now).bins }
{
    let stock = inst.stock();
    let placed = placed_on_boards(inst, c.insertions.as_slice());
    let mut areas = ArrayVec::new();
    for k in 0..c.sheets {
        let board = c.boards[k] as usize;
        let s = stock[board];
        areas.push(SheetAreas {
            placed: placed[board],
            board: numbers::area(s.width, s.length),
        });
    }
    areas
}

// The first sheet that no other beats by this comparison. That there is a sheet is a clause, so the search cannot fail.
fn first_best<F: Fn(f64, f64) -> bool>(sheets: &[SheetAreas], better: F) -> usize
    ghost order: { Float → Float → Bool }
    requires some { 0 < length sheets.now }
    requires callable { (x y : Float) → F.pre better x y }
    requires ordered { (x y : Float) (b : Bool) → F.post better x y b → b ≡ order x y }
    ensures { IsFirstBest order sheets.now result }
{
    let mut best = 0;
    let mut held = fitness::sheet_fitness(sheets[0]);
    for k in 1..sheets.len() {
        let f = fitness::sheet_fitness(sheets[k]);
        if better(f, held) {
            best = k;
            held = f;
        }
    }
    best
}

// The first least fit sheet. Of sheets of a candidate it is the definition's: a law (`worst_index`), and of the fittest too (`donor_index`).
pub fn worst_bin_index(sheets: &[SheetAreas]) -> usize
    requires { 0 < length sheets.now }
    ensures { IsFirstBest less_fit sheets.now result }
{
    first_best(sheets, scores::is_less_fit)
}

// The first fittest sheet.
pub fn best_donor_bin_index(sheets: &[SheetAreas]) -> usize
    requires { 0 < length sheets.now }
    ensures { IsFirstBest fitter sheets.now result }
{
    first_best(sheets, scores::is_fitter)
}

// ---- validity and score

// Whether a key is there twice: each is looked for in the part behind it.
fn has_duplicate_placed_cut_keys(keys: &[u32]) -> bool
    ensures { result ≡ repeats keys.now }
{
    for (i, key) in keys.iter().enumerate() {
        if keys[i + 1..].contains(key) {
            return true;
        }
    }
    false
}

// The cuts placed, in the order they were placed.
pub fn placed_cuts(c: &Candidate) -> ArrayVec<u32, 64>
    ensures { result.items ≡ map cut_of (placed_words c.now) }
{
    let mut cuts = ArrayVec::new();
    for word in c.insertions.as_slice() {
        cuts.push(crate::cut_of(*word));
    }
    cuts
}

// Of a candidate that stands the definition's `is_valid`: a law (`valid_words_is`).
pub fn is_valid(c: &Candidate) -> bool
    ensures { result ≡ valid_words c.now }
{
    c.unused.is_empty() && !has_duplicate_placed_cut_keys(placed_cuts(c).as_slice())
}

fn used_stock_area(sheets: &[SheetAreas]) -> u64
    requires { sum_by (λ s. s.board) sheets.now < 2 ^ 64 }
    ensures { result ≡ sum_by (λ s. s.board) sheets.now }
{
    sheets.iter().map(|s| s.board).sum()
}

fn placed_cut_area(sheets: &[SheetAreas]) -> u64
    requires { sum_by (λ s. s.placed) sheets.now < 2 ^ 64 }
    ensures { result ≡ sum_by (λ s. s.placed) sheets.now }
{
    sheets.iter().map(|s| s.placed).sum()
}

pub fn score(inst: &ProblemInstance<'_>, c: &Candidate) -> CandidateScore
    requires { Stands inst.now [] c.now }
    ensures { score_in inst.now c.now ≡ some (score_of result) }
{
    // The problem is sound: the sums fit.
    let _sound = inst.stock();
    let areas = sheet_areas(inst, c);
    let sheets = areas.as_slice();
    let used = used_stock_area(sheets);
    let cut = placed_cut_area(sheets);
    CandidateScore {
        used_stock_count: c.sheets,
        waste_area: used - cut,
        fitness: fitness::candidate_fitness(sheets),
    }
}
