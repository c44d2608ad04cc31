// The problem of a search: the boards in the order of first fit, the cuts in file order, and the kerf (`ProblemInstance`).

ghost use Rattle.std.specs.Prelude.{◌≡◌, ◌<◌, length};
ghost use Rattle.project.specs.Problem.{Sound, board_in, cut_in};

use model::{CutInstance, StockInstance};
use std::marker::Model;

#[derive(Drop)]
pub struct ProblemInstance<'a> {
    stock: &'a [StockInstance],
    cuts: &'a [CutInstance],
    kerf_width: u32,
}

// Clauses see the definition's instance. Every one is sound.
impl<'a> Model for ProblemInstance<'a> {
    ghost use Rattle.model.specs.Expand.{ProblemInstance as Problem};

    ghost Value = { Problem };

    ghost use Rattle.project.specs.Problem.{Sound};

    ghost view = { λ p. record { stock = p.stock.now; cuts = p.cuts.now; kerf_width = p.kerf_width } };

    ghost invariant = { λ p. Sound (record { stock = p.stock.now; cuts = p.cuts.now; kerf_width = p.kerf_width }) };
}

impl<'a> ProblemInstance<'a> {
    pub fn new(stock: &'a [StockInstance], cuts: &'a [CutInstance], kerf_width: u32) -> Self
        requires { Sound (record { stock = stock.now; cuts = cuts.now; kerf_width = kerf_width }) }
        ensures { result ≡ record { stock = stock.now; cuts = cuts.now; kerf_width = kerf_width } }
    {
        ProblemInstance {
            stock,
            cuts,
            kerf_width,
        }
    }

    pub fn stock(&self) -> &[StockInstance]
        ensures value { result.now ≡ self.now.stock }
        ensures sound { Sound self.now }
    {
        self.stock
    }

    pub fn cuts(&self) -> &[CutInstance]
        ensures value { result.now ≡ self.now.cuts }
        ensures sound { Sound self.now }
    {
        self.cuts
    }

    pub fn kerf_width(&self) -> u32
        ensures value { result ≡ self.now.kerf_width }
        ensures sound { Sound self.now }
    {
        self.kerf_width
    }

    // The board at a place.
    #[tactic(auto, unfolding(crate::specs::Problem::board_in))]
    pub fn board(&self, place: usize) -> StockInstance
        requires { place < length self.now.stock }
        ensures value { result ≡ board_in self.now place }
        ensures sound { Sound self.now }
    {
        let stock = self.stock();
        stock[place]
    }

    // The cut at a place.
    #[tactic(auto, unfolding(crate::specs::Problem::cut_in))]
    pub fn cut(&self, place: usize) -> CutInstance
        requires { place < length self.now.cuts }
        ensures value { result ≡ cut_in self.now place }
        ensures sound { Sound self.now }
    {
        let cuts = self.cuts();
        cuts[place]
    }
}
