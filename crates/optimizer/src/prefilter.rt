// What is tested before the search: `basic_feasibility_prefilter` of the optimizer.

ghost use Rattle.std.specs.Prelude.{◌≡◌, ◌<◌, ◌^◌, sum_by};
ghost use Rattle.lists.specs.Base.{any, all};
ghost use Rattle.model.specs.Types.{stock_area, cut_area};
ghost use Rattle.model.specs.Fit.{cut_fits_stock};
ghost use Rattle.model.specs.Answer.{prefilter};
ghost use Rattle.project.specs.Refusals.{refusal_of};

use model::{CutInstance, StockInstance};
use project::Refusal;
use project::problem::ProblemInstance;
use words::numbers;

// Whether the cut fits a board.
fn fits_any(stock: &[StockInstance], cut: CutInstance) -> bool
    ensures { result ≡ any (cut_fits_stock cut) stock.now }
{
    stock.iter().any(|s| fits::cut_fits_stock(cut, *s))
}

// Whether every cut fits a board.
fn all_fit(stock: &[StockInstance], cuts: &[CutInstance]) -> bool
    ensures { result ≡ all (λ c. any (cut_fits_stock c) stock.now) cuts.now }
{
    cuts.iter().all(|c| fits_any(stock, *c))
}

// The source's two sums, a line each: one over a closure would be no shorter.
fn total_stock_area(stock: &[StockInstance]) -> u64
    requires { sum_by stock_area stock.now < 2 ^ 64 }
    ensures { result ≡ sum_by stock_area stock.now }
{
    stock.iter().map(|s| numbers::area(s.width, s.length)).sum()
}

fn total_cut_area(cuts: &[CutInstance]) -> u64
    requires { sum_by cut_area cuts.now < 2 ^ 64 }
    ensures { result ≡ sum_by cut_area cuts.now }
{
    cuts.iter().map(|c| numbers::area(c.width, c.length)).sum()
}

pub fn basic_feasibility_prefilter(inst: &ProblemInstance<'_>) -> Result<(), Refusal>
    ensures { refusal_of result ≡ prefilter inst.now }
{
    let stock = inst.stock();
    let cuts = inst.cuts();
    if !all_fit(stock, cuts) {
        return Err(Refusal::CutFitsNoStock);
    }
    if total_stock_area(stock) < total_cut_area(cuts) {
        return Err(Refusal::CutAreaTooLarge);
    }
    Ok(())
}
