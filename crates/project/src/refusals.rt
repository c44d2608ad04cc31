// The checks that refuse a project file, in the order of the refusals' numbers, 2 to 14.

ghost use Rattle.std.specs.Prelude.{◌≡◌, ◌&&◌, ◌||◌, not, [], ◌+◌, ◌*◌, ◌^◌, ◌≤◌, eqb, length, IfOk};
ghost use Rattle.lists.specs.Base.{any};
ghost use Rattle.model.specs.Project.{project_of, record_length, most_records};
ghost use Rattle.model.specs.Refusal.{bad_codes, zero_side, large_side, unlimited, first_that_applies, settings_checks, record_checks, whole_checks, project_checks, file_refusal};
ghost use Rattle.project.specs.Records.{record_of, record_at, records};
ghost use Rattle.project.specs.Refusals.{refusal_of};
ghost use Rattle.project.specs.Checks.{first_given, rule_of, bad_settings, ids_before, Checked};

use crate::{Kind, ProjectFile, RawRecord, Refusal};
use std::marker::Model;

// The largest side and kerf, and the most instances of a kind.
const MOST_SIDE: u32 = 1_000_000;

const MOST_INSTANCES: u64 = 64;

// The first refusal that applies.
#[tactic(auto, using(crate::proofs::refusals::Checks::table))]
fn first_that_applies(checks: &[Option<Refusal>]) -> Result<(), Refusal>
    ensures { refusal_of result ≡ first_given checks.now }
{
    for check in checks {
        if let Some(refusal) = *check {
            return Err(refusal);
        }
    }
    Ok(())
}

// ---- a record

fn bad_codes(p: RawRecord) -> bool
    ensures { result ≡ bad_codes (record_of p) }
{
    p.pattern > 2 || p.flag > 1 || p.spare != 0
}

// A stock record that is unlimited has no quantity.
fn bad_stock_codes(p: RawRecord) -> bool
    ensures { result ≡ (bad_codes (record_of p) || (unlimited (record_of p) && not (eqb p.quantity 0))) }
{
    bad_codes(p) || (p.flag == 0 && p.quantity != 0)
}

fn zero_side(p: RawRecord) -> bool
    ensures { result ≡ zero_side (record_of p) }
{
    p.width == 0 || p.length == 0
}

fn large_side(p: RawRecord) -> bool
    ensures { result ≡ large_side (record_of p) }
{
    p.width > MOST_SIDE || p.length > MOST_SIDE
}

// Whether a record before number i has this id.
fn id_used(body: &[u8], i: usize, id: u64) -> bool
    requires { record_length * i ≤ length body.now }
    ensures { result ≡ any (eqb id) (ids_before body.now i) }
{
    for k in 0..i {
        if crate::record_at(body, k).id == id {
            return true;
        }
    }
    false
}

// Record i of a kind, of which `count` instances came before it.
fn check_record(kind: Kind, body: &[u8], i: usize, count: u64) -> Result<(), Refusal>
    requires { (record_length * i + record_length ≤ length body.now) × (count ≤ 2 ^ 40) }
    ensures { refusal_of result ≡ first_that_applies (rule_of kind (ids_before body.now i) count (record_at body.now i)) }
{
    let p = crate::record_at(body, i);
    let (codes, own, over) = match kind {
        Kind::Stock => (
            bad_stock_codes(p),
            (p.flag == 0).then_some(Refusal::UnlimitedStock),
            Refusal::TooManyStockInstances,
        ),
        Kind::Cut => (
            bad_codes(p),
            (p.quantity == 0).then_some(Refusal::ZeroQuantity),
            Refusal::TooManyCutInstances,
        ),
    };
    first_that_applies(&[
        codes.then_some(Refusal::BadCodes),
        zero_side(p).then_some(Refusal::ZeroSide),
        large_side(p).then_some(Refusal::LargeSide),
        own,
        id_used(body, i, p.id).then_some(Refusal::RepeatedId),
        (count + u64::from(p.quantity) > MOST_INSTANCES).then_some(over),
    ])
}

// The records of a body, in file order.
fn check_records(kind: Kind, body: &[u8]) -> Result<(), Refusal>
    requires { length body.now ≤ record_length * most_records }
    ensures { refusal_of result ≡ first_that_applies (record_checks (rule_of kind) [] 0 (records body.now)) }
{
    let mut count = 0;
    for i in 0..crate::record_count(body) {
        check_record(kind, body, i, count)?;
        count += u64::from(crate::record_at(body, i).quantity);
    }
    Ok(())
}

// ---- settings

fn bad_settings(file: &ProjectFile<'_>) -> bool
    ensures { result ≡ bad_settings (project_of file.now) }
{
    file.layout_code() > 1 || file.effort_code() > 2 || file.unit_code() > 2 || file.spare() != 0
}

fn check_settings(file: &ProjectFile<'_>) -> Result<(), Refusal>
    ensures { refusal_of result ≡ first_that_applies (settings_checks (project_of file.now)) }
{
    first_that_applies(&[
        bad_settings(file).then_some(Refusal::BadSettings),
        (file.kerf_width() > MOST_SIDE).then_some(Refusal::LargeKerf),
    ])
}

// ---- the whole file

// Cuts need stock and the guillotine layout.
fn check_whole(file: &ProjectFile<'_>) -> Result<(), Refusal>
    ensures { refusal_of result ≡ first_that_applies (whole_checks (project_of file.now)) }
{
    if crate::record_count(file.cuts_body()) == 0 {
        return Ok(());
    }
    let stock = crate::total_quantity(file.stock_body());
    let layout = file.layout_code();
    first_that_applies(&[
        (stock == 0).then_some(Refusal::NoStock),
        (layout == 1).then_some(Refusal::NestedLayout),
    ])
}

#[tactic(auto, using(crate::proofs::refusals::Whole::in_turn))]
fn check_contents(file: &ProjectFile<'_>) -> Result<(), Refusal>
    ensures { refusal_of result ≡ first_that_applies (project_checks (project_of file.now)) }
{
    check_settings(file)?;
    check_records(Kind::Stock, file.stock_body())?;
    check_records(Kind::Cut, file.cuts_body())?;
    check_whole(file)
}

// A file that no check refuses.
#[derive(Drop)]
pub struct CheckedFile<'a> {
    file: ProjectFile<'a>,
}

// Clauses see the bytes.
impl<'a> Model for CheckedFile<'a> {
    ghost use Rattle.std.specs.Prelude.{ℕ, List};
    ghost use Rattle.project.specs.Checks.{Checked};

    ghost Value = { List ℕ };

    ghost view = { λ c. c.file };

    ghost invariant = { λ c. Checked c.file };
}

impl<'a> CheckedFile<'a> {
    pub fn project(&self) -> &ProjectFile<'a>
        ensures value { result.now ≡ self.now }
        ensures checked { Checked self.now }
    {
        &self.file
    }
}

// The first of the refusals 2 to 14 that applies to a file.
#[tactic(auto, using(crate::proofs::refusals::Whole::of_the_file))]
pub fn check_project(bytes: &[u8]) -> Result<CheckedFile<'_>, Refusal>
    ensures refused { refusal_of result ≡ file_refusal bytes.now }
    ensures value { IfOk result (λ c. c ≡ bytes.now) }
{
    let Some(file) = ProjectFile::read(bytes) else {
        return Err(Refusal::NotWellFormed);
    };
    check_contents(&file)?;
    Ok(CheckedFile { file })
}
