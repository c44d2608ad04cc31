// The text of the planner's answer to a project file, as `cutplan` prints it: its plan, or the number of its refusal.
#![tactic(auto)]

ghost use Rattle.std.specs.Prelude.{◌≡◌, ◌≤◌, []};
ghost use Rattle.project.specs.Refusals.{refusal_number};
ghost use Rattle.words.specs.Appending.{with_bytes, Appended, Front};
ghost use Rattle.text.specs.Text.{refusal_text, printed, most_text};
ghost use Rattle.text.specs.PlanText.{plan_text};

mod plan_text; // The text of a plan's words, as the program `cutplan` prints it

use project::Refusal;
use words::append;
use words::append::Buffer;

// Room for the longest text of a plan, and for that of a refusal.
const MOST_TEXT: usize = 45_371;

const MOST_REFUSAL: usize = 11;

fn put_refusal<const N: usize>(refusal: Refusal, text: &mut Buffer<N>)
    ensures { text.new ≡ with_bytes N text.old (refusal_text (refusal_number refusal)) }
{
    text.push_bytes(b"refused ");
    text.push_decimal(u64::from(refusal.number()));
    text.push(b'\n');
}

// The text of the answer to a file, as far as there is room. An empty buffer with room for the longest text takes it whole.
pub fn put_answer<const N: usize>(file: &[u8], text: &mut Buffer<N>)
    ensures text { text.new ≡ with_bytes N text.old (printed file.now) }
    ensures whole { most_text ≤ N → text.old ≡ [] → text.new ≡ printed file.now }
{
    let mut workspace = [0u32; 16_384];
    let mut plan = [0u32; 4_500];
    match optimizer::optimize(file, &mut workspace, &mut plan) {
        Ok(()) => plan_text::put_plan(&plan, text),
        Err(refusal) => put_refusal(refusal, text),
    }
}

// A plan's text into lent bytes, from a buffer with room for the longest. The two are apart, since a function lays out all its memory as it begins.
fn write_plan(plan: &[u32], out: &mut [u8]) -> usize
    ensures appended { Appended out.old 0 (with_bytes most_text [] (plan_text plan.now)) out.new result }
    ensures front { Front result out.new }
{
    let mut text = Buffer::<MOST_TEXT>::new();
    plan_text::put_plan(plan, &mut text);
    append::put_front(text.as_slice(), out)
}

fn write_refusal(refusal: Refusal, out: &mut [u8]) -> usize
    ensures appended { Appended out.old 0 (refusal_text (refusal_number refusal)) out.new result }
    ensures front { Front result out.new }
{
    let mut short = Buffer::<MOST_REFUSAL>::new();
    put_refusal(refusal, &mut short);
    append::put_front(short.as_slice(), out)
}

// The text of the answer to a file into lent bytes, as far as they reach: how many there are. Those behind stay.
pub fn write_answer(file: &[u8], out: &mut [u8]) -> usize
    ensures appended { Appended out.old 0 (printed file.now) out.new result }
    ensures front { Front result out.new }
{
    let mut workspace = [0u32; 16_384];
    let mut plan = [0u32; 4_500];
    let answer = optimizer::optimize(file, &mut workspace, &mut plan);
    match answer {
        Ok(()) => write_plan(&plan, out),
        Err(refusal) => write_refusal(refusal, out),
    }
}
