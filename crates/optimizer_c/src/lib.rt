// The planner's entry for callers in C and Rust, under the promise of `optimizer::optimize`: an answer is its number, 0 for a plan.
#![tactic(auto)]

ghost use Rattle.optimizer.specs.Promise.{Promise};

#[unsafe(no_mangle)]
pub extern "C" fn optimizer_optimize(file: &[u8], workspace: &mut [u32], plan: &mut [u32]) -> u32
    ensures { Promise file.now workspace.old plan.old result workspace.new plan.new }
{
    optimizer::optimizer_optimize(file, workspace, plan)
}
