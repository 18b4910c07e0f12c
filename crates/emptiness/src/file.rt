// What emptiness answers to an automaton's file: the survey, with a plan in a lent buffer, and the quick check.
ghost use Rattle.std.specs.Prelude.{◌≡◌, ◌≤◌, length};
ghost use Rattle.algorithms.specs.Automaton.{Automaton};
ghost use Rattle.algorithms.specs.Saturate.{saturation_of};
ghost use Rattle.automaton.specs.File.{WithinLimits};
ghost use Rattle.classes.specs.Prepared.{ReadyFor};
ghost use Rattle.emptiness.specs.Surveyed.{buffer_check, answered, survey_of, written, surveyed_by, surveyed};
ghost use Rattle.emptiness.specs.Checked.{checked_by, checked};
ghost use Rattle.emptiness.specs.Demand3.{Demand3, Demand3Quick};

use crate::plan::write_plan;
use crate::{Quick, Survey};
use approximation::is_clear;
use classes::Prepared;
use refusal::{Fault, Refusal, refused};
use saturation::{Saturated, saturate};

// Line 13.
fn buffer_check(plan: &[u8]) -> Result<(), Refusal>
    ensures { result ≡ buffer_check plan.now }
{
    if plan.len() < 195 {
        return refused(Fault::Buffer, 2, 195);
    }
    Ok(())
}

// The survey of an automaton that was prepared, with a buffer that is long enough.
fn survey_read(prepared: Prepared, plan: &mut [u8]) -> Survey
    requires { WithinLimits prepared.header × (195 ≤ length plan.old) }
    ensures { (A : Automaton) → ReadyFor A prepared.entry
        → (result ≡ survey_of (saturation_of A)) × (plan.new ≡ written (saturation_of A) plan.old) }
{
    let mut kept = [0u32; 3264];
    match saturate(prepared, &mut kept) {
        Saturated::Open(height) => Survey::Open(height),
        Saturated::Empty(height) => Survey::Empty(height),
        Saturated::Found {
            height,
            rows: n,
            origin,
        } => {
            write_plan(&kept, n, origin, plan);
            let rows = n + 1;
            Survey::Found { height, rows }
        }
    }
}

// The survey by an automaton that was prepared: where a tree is found, a plan that builds one goes to the front of the buffer.
pub fn survey_prepared(prepared: Prepared, plan: &mut [u8]) -> Result<Survey, Refusal>
    requires { WithinLimits prepared.header }
    ensures { (A : Automaton) → ReadyFor A prepared.entry
        → answered result plan.new ≡ surveyed_by A plan.old }
{
    buffer_check(plan)?;
    Ok(survey_read(prepared, plan))
}

// The survey of an automaton's file.
pub fn survey(file: &[u8], plan: &mut [u8]) -> Result<Survey, Refusal>
    ensures equals { answered result plan.new ≡ surveyed file.now plan.old }
    ensures right { Demand3 file.now plan.old (answered result plan.new) }
{
    let mut table = [0u32; 9216];
    let mut leaves = [0u32; 1536];
    let header = overloops::prepare(file, &mut table, &mut leaves)?;
    let prepared = Prepared {
        header,
        table: &table,
        leaves: &leaves,
    };
    survey_prepared(prepared, plan)
}

// The quick check by an automaton that was prepared.
pub fn quick_prepared(prepared: Prepared) -> Quick
    requires { WithinLimits prepared.header }
    ensures { (A : Automaton) → ReadyFor A prepared.entry → result ≡ checked_by A }
{
    if is_clear(prepared) {
        Quick::Clear
    } else {
        Quick::Unsure
    }
}

// The quick check of an automaton's file.
pub fn quick(file: &[u8]) -> Result<Quick, Refusal>
    ensures equals { result ≡ checked file.now }
    ensures right { Demand3Quick file.now result }
{
    let mut table = [0u32; 9216];
    let mut leaves = [0u32; 1536];
    let header = overloops::prepare(file, &mut table, &mut leaves)?;
    let prepared = Prepared {
        header,
        table: &table,
        leaves: &leaves,
    };
    Ok(quick_prepared(prepared))
}
