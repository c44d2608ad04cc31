// The instances of a project: boards in the order of first fit, panels in file order (`expand_project`).

ghost use Rattle.std.specs.Prelude.{◌≡◌, ℕ, ◌+◌, ◌≤◌, ◌++◌, length};
ghost use Rattle.lists.specs.Base.{concat_map, sort_by};
ghost use Rattle.model.specs.Types.{pattern_of};
ghost use Rattle.model.specs.Project.{Record, project_of};
ghost use Rattle.model.specs.Refusal.{total_quantity};
ghost use Rattle.model.specs.Expand.{compare_stock, expand_project};
ghost use Rattle.project.specs.Records.{record_of, records};
ghost use Rattle.project.specs.declared.RawRecord.{RawRecord};
ghost use Rattle.project.specs.Instances.{stock_instance, cut_instance, made_of};

use super::orders;
use super::refusals::CheckedFile;
use crate::RawRecord;
use arrayvec::ArrayVec;
use model::{CutInstance, PatternDirection, StockInstance};

// The pattern that a code of the file means, as in the definition. Refusal 5 leaves the codes 0 to 2.
#[tactic(auto, using(crate::proofs::Codes::patterns))]
fn pattern_of(code: u32) -> PatternDirection
    ensures { result ≡ pattern_of code }
{
    match code {
        0 => PatternDirection::None,
        1 => PatternDirection::ParallelToWidth,
        _ => PatternDirection::ParallelToLength,
    }
}

// Instance n of a record of boards.
fn stock_instance(p: RawRecord, n: u32) -> StockInstance
    ensures { result ≡ stock_instance (record_of p) n }
{
    StockInstance {
        stock_id: p.id,
        instance: n,
        width: p.width,
        length: p.length,
        pattern: pattern_of(p.pattern),
    }
}

// Instance n of a record of cuts.
fn cut_instance(p: RawRecord, n: u32) -> CutInstance
    ensures { result ≡ cut_instance (record_of p) n }
{
    CutInstance {
        cut_id: p.id,
        instance: n,
        width: p.width,
        length: p.length,
        pattern: pattern_of(p.pattern),
        can_rotate: p.flag == 1,
    }
}

// The instances of a record, behind those before.
fn push_instances<T: Drop, F: Fn(RawRecord, u32) -> T>(
    instances: &mut ArrayVec<T, 64>,
    p: RawRecord,
    make: &F,
)
    ghost made: { Record → ℕ → T }
    requires room { length instances.old.items + p.quantity ≤ 64 }
    requires callable { (p : RawRecord) (n : ℕ) → F.pre make.now p n }
    requires makes { (p : RawRecord) (n : ℕ) (t : T) → F.post make.now p n t → t ≡ made (record_of p) n }
    ensures { instances.new.items ≡ instances.old.items ++ made_of made (record_of p) }
{
    for n in 0..p.quantity {
        instances.push(make(p, n));
    }
}

// The instances of a body's records, in file order.
fn instances<T: Default + Drop, F: Fn(RawRecord, u32) -> T>(body: &[u8], make: F) -> ArrayVec<T, 64>
    ghost made: { Record → ℕ → T }
    requires few { total_quantity (records body.now) ≤ 64 }
    requires callable { (p : RawRecord) (n : ℕ) → F.pre make p n }
    requires makes { (p : RawRecord) (n : ℕ) (t : T) → F.post make p n t → t ≡ made (record_of p) n }
    ensures { result.items ≡ concat_map (made_of made) (records body.now) }
{
    let mut instances = ArrayVec::new();
    for i in 0..crate::record_count(body) {
        push_instances(&mut instances, crate::record_at(body, i), &make);
    }
    instances
}

// The boards in the order of first fit.
fn sorted(raw: &[StockInstance]) -> ArrayVec<StockInstance, 64>
    requires { length raw.now ≤ 64 }
    ensures { result.items ≡ sort_by compare_stock raw.now }
{
    let order = orders::sorted_stock_order(raw);
    let mut stock = ArrayVec::new();
    for number in order.as_slice() {
        stock.push(raw[*number as usize]);
    }
    stock
}

// expand_project, the stock: sorted.
pub fn stock_instances(file: &CheckedFile<'_>) -> ArrayVec<StockInstance, 64>
    ensures { result.items ≡ (expand_project (project_of file.now)).stock }
{
    let raw = instances(file.project().stock_body(), stock_instance);
    sorted(raw.as_slice())
}

// expand_project, the cuts: in file order.
pub fn cut_instances(file: &CheckedFile<'_>) -> ArrayVec<CutInstance, 64>
    ensures { result.items ≡ (expand_project (project_of file.now)).cuts }
{
    instances(file.project().cuts_body(), cut_instance)
}
