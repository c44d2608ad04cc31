// The project file (`ProjectFile`), the refusals, and what a file that no check refuses becomes: the problem of a search.
#![tactic(auto)]

ghost use Rattle.std.specs.Prelude.{◌≡◌, if◌then◌else◌, Some, None, ◌+◌, ◌*◌, ◌/◌, ◌≤◌, length};
ghost use Rattle.lists.specs.Parts.{part};
ghost use Rattle.model.specs.Types.{layout_of, effort_of};
ghost use Rattle.model.specs.Project.{project_of, body_length, well_formed, stock_start, stock_length, cuts_start, cuts_length, record_length, most_records};
ghost use Rattle.model.specs.Refusal.{total_quantity};
ghost use Rattle.project.specs.Refusals.{refusal_number};
ghost use Rattle.project.specs.Records.{record_of, record_at, records};

pub mod refusals; // The checks that refuse a project file, in the order of the refusals' numbers, 2 to 14
pub mod problem; // The problem of a search
pub mod orders; // The order of first fit of boards and of cuts
pub mod instances; // The instances of a project

use model::{LayoutKind, OptimizerEffort};
use std::marker::Model;
use words::numbers;

// Where the numbers of the contents and of the settings are, and where the stock starts.
const SETTINGS_START_AT: usize = 0;

const SETTINGS_LENGTH_AT: usize = 4;

const STOCK_START_AT: usize = 8;

const STOCK_LENGTH_AT: usize = 12;

const CUTS_START_AT: usize = 16;

const CUTS_LENGTH_AT: usize = 20;

const KERF_AT: usize = 24;

const LAYOUT_AT: usize = 28;

const EFFORT_AT: usize = 29;

const UNIT_AT: usize = 30;

const SPARE_AT: usize = 31;

const STOCK_START: usize = 32;

// Bytes of a record.
const RECORD_LENGTH: usize = 24;

// ---- refusals

// Why a project gets no plan, by the number that the entry answers. They are looked for in this order: 1; 2; 3, 4; each stock record's 5 to 10; each cut
// record's 5, 6, 7, 11, 9, 12; 13; 14; 15; 16; 17.
#[derive(Clone, Copy, PartialEq, Eq)]
pub enum Refusal {
    TooSmallMemory = 1,
    NotWellFormed = 2,
    BadSettings = 3,
    LargeKerf = 4,
    BadCodes = 5,
    ZeroSide = 6,
    LargeSide = 7,
    UnlimitedStock = 8,
    RepeatedId = 9,
    TooManyStockInstances = 10,
    ZeroQuantity = 11,
    TooManyCutInstances = 12,
    NoStock = 13,
    NestedLayout = 14,
    CutFitsNoStock = 15,
    CutAreaTooLarge = 16,
    NoCandidate = 17,
}

impl Refusal {
    pub fn number(self) -> u32
        ensures { result ≡ refusal_number self }
    {
        self as u32
    }
}

// ---- records

// What a record is of. A line that a person types has a kind of its own (`typed`).
#[derive(Clone, Copy, PartialEq, Eq)]
pub enum Kind {
    Stock,
    Cut,
}

// A stock or cut record as it stands in the file; `flag` is finite or can_rotate. Its codes are numbers, since the checks must see codes that mean nothing.
#[derive(Clone, Copy)]
pub struct RawRecord {
    pub id: u64,
    pub width: u32,
    pub length: u32,
    pub quantity: u32,
    pub pattern: u32,
    pub flag: u32,
    pub spare: u32,
}

pub fn record_count(body: &[u8]) -> usize
    ensures { result ≡ length body.now / record_length }
{
    body.len() / RECORD_LENGTH
}

// Record i of a body, counted from zero.
pub fn record_at(body: &[u8], i: usize) -> RawRecord
    requires { record_length * i + record_length ≤ length body.now }
    ensures { record_of result ≡ record_at body.now i }
{
    let at = RECORD_LENGTH * i;
    RawRecord {
        id: numbers::number_8(body, at),
        width: numbers::number_4(body, at + 8),
        length: numbers::number_4(body, at + 12),
        quantity: numbers::number_4(body, at + 16),
        pattern: numbers::number_1(body, at + 20),
        flag: numbers::number_1(body, at + 21),
        spare: numbers::number_2(body, at + 22),
    }
}

// The instances of a body's records.
pub fn total_quantity(body: &[u8]) -> u64
    requires { length body.now ≤ record_length * most_records }
    ensures { result ≡ total_quantity (records body.now) }
{
    let mut total = 0;
    for i in 0..record_count(body) {
        total += u64::from(record_at(body, i).quantity);
    }
    total
}

// ---- the shape of a file

fn body_length(n: u32) -> bool
    ensures { result ≡ body_length n }
{
    n % 24 == 0 && n <= 1536
}

// The contents and the settings have their places and lengths, and the bodies are of whole records and follow without gaps or
// trailing bytes.
#[tactic(auto, using(crate::proofs::Shape::short_file), unfolding(model::specs::Project::well_formed))]
fn well_formed(file: &[u8]) -> bool
    ensures { result ≡ well_formed file.now }
{
    if file.len() < 32 {
        return false;
    }
    let stock_length = numbers::number_4(file, STOCK_LENGTH_AT);
    let cuts_length = numbers::number_4(file, CUTS_LENGTH_AT);
    let stock_end = 32 + u64::from(stock_length);
    numbers::number_4(file, SETTINGS_START_AT) == 24
        && numbers::number_4(file, SETTINGS_LENGTH_AT) == 8
        && numbers::number_4(file, STOCK_START_AT) == 32
        && body_length(stock_length)
        && u64::from(numbers::number_4(file, CUTS_START_AT)) == stock_end
        && body_length(cuts_length)
        && file.len() as u64 == stock_end + u64::from(cuts_length)
}

fn part(file: &[u8], start: usize, size: usize) -> &[u8]
    requires { start + size ≤ length file.now }
    ensures { result.now ≡ part file.now start size }
{
    &file[start..start + size]
}

// ---- a file

// A file of the right shape, which every part can be read of.
#[derive(Drop)]
pub struct ProjectFile<'a> {
    bytes: &'a [u8],
}

// Clauses see the bytes.
impl<'a> Model for ProjectFile<'a> {
    ghost use Rattle.std.specs.Prelude.{◌≡◌, ℕ, true, List};
    ghost use Rattle.model.specs.Project.{well_formed};

    ghost Value = { List ℕ };

    ghost view = { λ f. f.bytes.now };

    ghost invariant = { λ f. well_formed f.bytes.now ≡ true };
}

impl<'a> ProjectFile<'a> {
    // None of bytes that are not well formed.
    pub fn read(bytes: &'a [u8]) -> Option<Self>
        ensures { result ≡ (if well_formed bytes.now then Some bytes.now else None) }
    {
        if well_formed(bytes) {
            Some(ProjectFile { bytes })
        } else {
            None
        }
    }

    // The stock records, one behind the other.
    #[tactic(auto, using(crate::proofs::Shape::long))]
    pub fn stock_body(&self) -> &[u8]
        ensures bytes { result.now ≡ part self.now stock_start (stock_length self.now) }
        ensures few { length result.now ≤ record_length * most_records }
        ensures read { records result.now ≡ (project_of self.now).stock }
    {
        part(
            self.bytes,
            STOCK_START,
            numbers::number_4(self.bytes, STOCK_LENGTH_AT) as usize,
        )
    }

    // The cut records, behind them.
    #[tactic(auto, using(crate::proofs::Shape::long))]
    pub fn cuts_body(&self) -> &[u8]
        ensures bytes { result.now ≡ part self.now (cuts_start self.now) (cuts_length self.now) }
        ensures few { length result.now ≤ record_length * most_records }
        ensures read { records result.now ≡ (project_of self.now).cuts }
    {
        part(
            self.bytes,
            numbers::number_4(self.bytes, CUTS_START_AT) as usize,
            numbers::number_4(self.bytes, CUTS_LENGTH_AT) as usize,
        )
    }

    #[tactic(auto, using(crate::proofs::Shape::long), unfolding(model::specs::Project::project_of))]
    pub fn kerf_width(&self) -> u32
        ensures { result ≡ (project_of self.now).kerf }
    {
        numbers::number_4(self.bytes, KERF_AT)
    }

    // The codes of the settings as they stand in the file.
    #[tactic(auto, using(crate::proofs::Shape::long), unfolding(model::specs::Project::project_of))]
    pub fn layout_code(&self) -> u32
        ensures { result ≡ (project_of self.now).layout }
    {
        numbers::number_1(self.bytes, LAYOUT_AT)
    }

    #[tactic(auto, using(crate::proofs::Shape::long), unfolding(model::specs::Project::project_of))]
    pub fn effort_code(&self) -> u32
        ensures { result ≡ (project_of self.now).effort }
    {
        numbers::number_1(self.bytes, EFFORT_AT)
    }

    #[tactic(auto, using(crate::proofs::Shape::long), unfolding(model::specs::Project::project_of))]
    pub fn unit_code(&self) -> u32
        ensures { result ≡ (project_of self.now).unit }
    {
        numbers::number_1(self.bytes, UNIT_AT)
    }

    // The last byte of the settings.
    #[tactic(auto, using(crate::proofs::Shape::long), unfolding(model::specs::Project::project_of))]
    pub fn spare(&self) -> u32
        ensures { result ≡ (project_of self.now).spare }
    {
        numbers::number_1(self.bytes, SPARE_AT)
    }

    // What a code means.
    #[tactic(auto, using(crate::proofs::Codes::layouts))]
    pub fn layout_kind(&self) -> LayoutKind
        ensures { result ≡ layout_of (project_of self.now).layout }
    {
        match self.layout_code() {
            0 => LayoutKind::Guillotine,
            _ => LayoutKind::Nested,
        }
    }

    #[tactic(auto, using(crate::proofs::Codes::efforts))]
    pub fn effort(&self) -> OptimizerEffort
        ensures { result ≡ effort_of (project_of self.now).effort }
    {
        match self.effort_code() {
            0 => OptimizerEffort::Fast,
            1 => OptimizerEffort::Balanced,
            _ => OptimizerEffort::Thorough,
        }
    }
}
