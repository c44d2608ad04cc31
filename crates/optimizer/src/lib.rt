// The planner's entry: `optimize_with_config` from a project file to a plan or one numbered refusal, in lent memory.
#![tactic(auto)]

ghost use Rattle.std.specs.Prelude.{◌≡◌, ◌≤◌, length};
ghost use Rattle.std.proofs.Math.Option.{none};
ghost use Rattle.model.specs.Types.{effort_of};
ghost use Rattle.model.specs.Project.{project_of};
ghost use Rattle.model.specs.Expand.{expand_project};
ghost use Rattle.model.specs.Answer.{prefilter};
ghost use Rattle.model.specs.Outcome.{least_workspace, least_plan, too_small, cleared};
ghost use Rattle.optimizer.specs.Promise.{number_of, Searches, Promise};

mod prefilter; // What is tested before the search

use model::{CutInstance, OptimizerEffort};
use project::problem::ProblemInstance;
use project::refusals::CheckedFile;
use project::{Refusal, instances, refusals};
use search::seeds;
use sheet::free_rects::FreeRects;

// The least lent memory, in words. C may lend slices of any length, so what comes behind the test says in a clause that they are long enough.
const WORKSPACE: usize = 16_384;

const PLAN: usize = 4_500;

#[tactic(auto, unfolding(model::specs::Outcome::too_small))]
fn is_too_small(workspace: &[u32], plan: &[u32]) -> bool
    ensures { result ≡ too_small workspace.now plan.now }
{
    workspace.len() < WORKSPACE || plan.len() < PLAN
}

// The search leaves nothing behind.
fn clear(workspace: &mut [u32])
    requires { least_workspace ≤ length workspace.old }
    ensures { workspace.new ≡ cleared least_workspace workspace.old }
{
    workspace[..WORKSPACE].fill(0);
}

// optimize_population_pipeline past its prefilter: the winner's plan, or 17.
fn find_plan(
    workspace: &mut [u32],
    plan: &mut [u32],
    inst: &ProblemInstance<'_>,
    effort: OptimizerEffort,
) -> Result<(), Refusal>
    requires { (least_workspace ≤ length workspace.old) × (least_plan ≤ length plan.old) × (prefilter inst.now ≡ none) }
    ensures { Searches inst.now effort result plan.old plan.new workspace.old workspace.new }
{
    let mut free = std::array::from_fn(|_| FreeRects::new());
    let rows = seeds::heuristic_variants();
    let numbers = seeds::search_numbers(effort);
    match search::winner(workspace, &mut free, inst, &rows, numbers) {
        None => Err(Refusal::NoCandidate),
        Some(c) => {
            plan::write_plan(plan, inst, &c);
            Ok(())
        }
    }
}

// optimize_population_pipeline.
fn search_plan(
    workspace: &mut [u32],
    plan: &mut [u32],
    inst: &ProblemInstance<'_>,
    effort: OptimizerEffort,
) -> Result<(), Refusal>
    requires { (least_workspace ≤ length workspace.old) × (least_plan ≤ length plan.old) }
    ensures { Searches inst.now effort result plan.old plan.new workspace.old workspace.new }
{
    prefilter::basic_feasibility_prefilter(inst)?;
    find_plan(workspace, plan, inst, effort)
}

// A project that no check refuses, with its cuts.
fn optimize_cuts(
    file: &CheckedFile<'_>,
    workspace: &mut [u32],
    plan: &mut [u32],
    cuts: &[CutInstance],
) -> Result<(), Refusal>
    requires { (least_workspace ≤ length workspace.old) × (least_plan ≤ length plan.old)
        × (cuts.now ≡ (expand_project (project_of file.now)).cuts) }
    ensures { Searches (expand_project (project_of file.now)) (effort_of (project_of file.now).effort) result plan.old plan.new workspace.old workspace.new }
{
    let project = file.project();
    let stock = instances::stock_instances(file);
    let inst = ProblemInstance::new(stock.as_slice(), cuts, project.kerf_width());
    search_plan(workspace, plan, &inst, project.effort())
}

// A project that no check refuses.
fn optimize_project(
    file: &CheckedFile<'_>,
    workspace: &mut [u32],
    plan: &mut [u32],
) -> Result<(), Refusal>
    requires { (least_workspace ≤ length workspace.old) × (least_plan ≤ length plan.old) }
    ensures { Promise file.now workspace.old plan.old (number_of result) workspace.new plan.new }
{
    let project = file.project();
    let cuts = instances::cut_instances(file);
    if cuts.is_empty() {
        let layout = project.layout_kind();
        plan::empty_plan(plan, layout);
        return Ok(());
    }
    let answer = optimize_cuts(file, workspace, plan, cuts.as_slice());
    clear(workspace);
    answer
}

// From any bytes, in any lent memory, to a plan or one refusal.
pub fn optimize(file: &[u8], workspace: &mut [u32], plan: &mut [u32]) -> Result<(), Refusal>
    ensures { Promise file.now workspace.old plan.old (number_of result) workspace.new plan.new }
{
    if is_too_small(workspace, plan) {
        return Err(Refusal::TooSmallMemory);
    }
    let project = refusals::check_project(file)?;
    optimize_project(&project, workspace, plan)
}

// The same for callers that take a number: 0 for a plan. The crate optimizer_c exports it to C and Rust.
pub fn optimizer_optimize(file: &[u8], workspace: &mut [u32], plan: &mut [u32]) -> u32
    ensures { Promise file.now workspace.old plan.old result workspace.new plan.new }
{
    match optimize(file, workspace, plan) {
        Ok(()) => 0,
        Err(refusal) => refusal.number(),
    }
}
