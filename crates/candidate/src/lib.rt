// A candidate: one possible plan while the search works on it (`Candidate`, `StockInventory` and `CutCatalog` of the source). Boards and cuts are known by
// their places in the problem, and a sheet by its board and its insertions; its free rectangles are kept apart, at the board's number.
#![tactic(auto)]

ghost use Rattle.std.specs.Prelude.{◌≡◌, ◌+◌, ◌≤◌, ◌<◌, get_or, length};
ghost use Rattle.candidate.specs.Entries.{heuristic_code, choice_of, split_of, rotation_of, coded_heuristic, insertion_word, board_of, cut_of, heuristic_of};
ghost use Rattle.candidate.specs.Moves.{new_words, moved_up, with_insertion, with_unused, take_place};
ghost use Rattle.candidate.specs.Stands.{placed_words, unused_numbers};

pub mod fitness; // Fitness in f64, each quotient, product and sum rounded once, in sheet order
pub mod scores; // The order of two fitnesses and of two scores
pub mod placing; // Cuts placed on the sheets of a candidate
pub mod evaluation; // What a candidate is worth
pub mod variation; // What the search makes of candidates

use model::{
    BaselineGuillotineHeuristic, GuillotineRectChoice, GuillotineSplitHeuristic, RotationPreference,
};
use words::copying;
use words::word_list::WordList;

// `boards` is the numbers 0 to 63 in some order: the problem's boards come first, and the first `sheets` of these have a sheet. Whether it stands for a
// candidate of a problem (`Stands`) depends on the problem too, so functions that need it have it as a clause.
#[derive(Clone, Copy)]
pub struct Candidate {
    // the boards: those of the sheets, in sheet order, then the available ones
    pub boards: [u32; 64],
    pub sheets: usize,
    // the cuts placed, each with its board and heuristic, in the order they were placed
    pub insertions: WordList,
    pub unused: WordList,
}

// ---- insertions as words

// In the workspace an insertion is a word. It is one in a candidate too, so that loading and storing only copy.
// The functions take plain numbers: whether a number is a board, a cut or a heuristic is told by its place in the word.

fn heuristic_code(h: BaselineGuillotineHeuristic) -> u32
    ensures { result ≡ heuristic_code h }
{
    h.rect_choice as u32 * 6 + h.split as u32 * 2 + h.rotation as u32
}

fn choice_of(code: u32) -> GuillotineRectChoice
    ensures { result ≡ choice_of code }
{
    match code {
        0 => GuillotineRectChoice::Area,
        1 => GuillotineRectChoice::ShortSide,
        _ => GuillotineRectChoice::LongSide,
    }
}

fn split_of(code: u32) -> GuillotineSplitHeuristic
    ensures { result ≡ split_of code }
{
    match code {
        0 => GuillotineSplitHeuristic::Horizontal,
        1 => GuillotineSplitHeuristic::LongerAxis,
        _ => GuillotineSplitHeuristic::MaximizeArea,
    }
}

fn rotation_of(code: u32) -> RotationPreference
    ensures { result ≡ rotation_of code }
{
    match code {
        0 => RotationPreference::PreferUpright,
        _ => RotationPreference::PreferRotated,
    }
}

fn coded_heuristic(code: u32) -> BaselineGuillotineHeuristic
    ensures { result ≡ coded_heuristic code }
{
    BaselineGuillotineHeuristic {
        rect_choice: choice_of(code / 6),
        split: split_of(code / 2 % 3),
        rotation: rotation_of(code % 2),
    }
}

// That board and cut are below 64 is a clause: a type that says so would be opened here at once.
fn insertion_word(board: u32, cut: u32, h: BaselineGuillotineHeuristic) -> u32
    requires { (board < 64) × (cut < 64) }
    ensures { result ≡ insertion_word board cut h }
{
    (board * 64 + cut) * 32 + heuristic_code(h)
}

pub fn board_of(word: u32) -> u32
    ensures { result ≡ board_of word }
{
    word / 2048
}

pub fn cut_of(word: u32) -> u32
    ensures { result ≡ cut_of word }
{
    word / 32 % 64
}

pub fn heuristic_of(word: u32) -> BaselineGuillotineHeuristic
    ensures { result ≡ heuristic_of word }
{
    coded_heuristic(word % 32)
}

// ---- boards and insertions

// The board at an index moves to an earlier one, and those between move up.
pub fn move_board(boards: &mut [u32; 64], from: usize, to: usize)
    requires { (to ≤ from) × (from < 64) }
    ensures { boards.new ≡ moved_up boards.old from to }
{
    let board = boards[from];
    copying::insert_word(boards, from, to, board);
}

impl Candidate {
    // Candidate::new: every board available, nothing placed.
    pub fn new() -> Self
        ensures { result ≡ new_words }
    {
        Candidate {
            boards: std::array::from_fn(|i| i as u32),
            sheets: 0,
            insertions: WordList::new(),
            unused: WordList::new(),
        }
    }

    #[tactic(auto, unfolding(crate::specs::Moves::with_insertion))]
    pub fn push_insertion(&mut self, board: u32, cut: u32, h: BaselineGuillotineHeuristic)
        requires { (board < 64) × (cut < 64) × (length (placed_words self.old) < 64) }
        ensures { self.new ≡ with_insertion self.old (insertion_word board cut h) }
    {
        self.insertions.push(insertion_word(board, cut, h));
    }

    #[tactic(auto, unfolding(crate::specs::Moves::with_unused))]
    pub fn push_unused(&mut self, cut: u32)
        requires { length (unused_numbers self.old) < 64 }
        ensures { self.new ≡ with_unused self.old cut }
    {
        self.unused.push(cut);
    }

    // The three ends of place_cut_first_fit, by the index of the board that took the cut: a sheet's; an available one, which becomes the last sheet's; or,
    // from `stock` on, none, and the cut stays unused.
    pub fn take_place(&mut self, stock: usize, j: usize, cut: u32, h: BaselineGuillotineHeuristic)
        requires { (stock ≤ 64) × (j < stock → get_or self.old.boards j 0 < 64) × (cut < 64)
            × (length (placed_words self.old) < 64) × (length (unused_numbers self.old) < 64) }
        ensures { self.new ≡ take_place stock self.old j cut h }
    {
        if stock <= j {
            self.push_unused(cut);
            return;
        }
        self.push_insertion(self.boards[j], cut, h);
        if self.sheets <= j {
            move_board(&mut self.boards, j, self.sheets);
            self.sheets += 1;
        }
    }
}
