// Fitness in f64, each quotient, product and sum rounded once, in sheet order.

ghost use Rattle.std.specs.Prelude.{◌≡◌, ◌^◌, ◌<◌, ◌≤◌, to_bits};
ghost use Rattle.std.proofs.Math.Option.{get_or};
ghost use Rattle.std.specs.Float.{binary64};
ghost use Rattle.lists.specs.Language.{option_of};
ghost use Rattle.model.specs.Fitness.{weight, positive_zero};
ghost use Rattle.candidate.specs.Areas.{share_of, board_areas, fitness_of, WithinBoards};

// A sheet's placed area and its board's area.
#[derive(Clone, Copy, Default)]
pub struct SheetAreas {
    pub placed: u64,
    pub board: u64,
}

fn area_as_fitness_weight(area: u64) -> f64
    ensures { result ≡ weight area }
{
    std::num::nearest_u64_to_f64(area)
}

pub fn sheet_fitness(sheet: SheetAreas) -> f64
    ensures { result ≡ share_of sheet }
{
    if sheet.board == 0 {
        return 0.0;
    }
    area_as_fitness_weight(sheet.placed) / area_as_fitness_weight(sheet.board)
}

// The fitness of sheets; none where they have no area (`Candidate::fitness`).
pub fn candidate_fitness(sheets: &[SheetAreas]) -> Option<f64>
    requires { board_areas sheets.now < 2 ^ 64 }
    ensures { option_of result ≡ fitness_of sheets.now }
{
    let mut weighted = 0.0;
    let mut total: u64 = 0;
    for sheet in sheets {
        weighted += sheet_fitness(*sheet) * area_as_fitness_weight(sheet.board);
        total += sheet.board;
    }
    if total == 0 {
        return None;
    }
    Some(weighted / area_as_fitness_weight(total))
}

// The same, and 0.0 where there is none.
pub fn fitness(sheets: &[SheetAreas]) -> f64
    requires { board_areas sheets.now < 2 ^ 64 }
    ensures { result ≡ get_or (fitness_of sheets.now) positive_zero }
{
    candidate_fitness(sheets).unwrap_or(0.0)
}

// The bits of that fitness: no NaN, where no sheet has more placed on it than its board's area.
pub fn fitness_bits(sheets: &[SheetAreas]) -> u64
    requires { (board_areas sheets.now ≤ 2 ^ 53) × WithinBoards sheets.now }
    ensures { result ≡ to_bits binary64 (get_or (fitness_of sheets.now) positive_zero) }
{
    f64::to_bits(fitness(sheets))
}
