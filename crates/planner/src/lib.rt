// The planner: a job list, a core limit and a start become a sheet in a lent buffer (docs/SHEET.md, section 5).
#![tactic(auto)]

ghost use Rattle.std.specs.Prelude.{◌≡◌, ◌≤◌, length, set};
ghost use Rattle.sheet.specs.Table.{scan, refusal_of};
ghost use Rattle.fit.specs.Lists.{at};
ghost use Rattle.planner.specs.FirstFit.{unassigned as noneAssigned, assign};
ghost use Rattle.planner.specs.Plan.{bad_start, call_rows, plan_outcome, plan_output, outcome_of, Accepting};

mod sets;
mod walker;
mod writer;

use fit::By;
use sets::Jobs;
use sheet::{Refusal, Rejection};

// The counts and the length of the sheet that is written.
#[derive(Clone, Copy, Debug, PartialEq, Eq)]
pub struct Planned {
    pub tasks: u8,
    pub cores: u8,
    pub length: u16,
}

// Stores x at place i; past the end nothing is stored. (What is written through `get_mut`, a proof does not see.)
fn store<T: Copy>(list: &mut [T], i: u8, x: T)
    ensures { list.new ≡ set list.old i x }
{
    let i = usize::from(i);
    if i < list.len() {
        list[i] = x;
    }
}

// The core of each task by number, 255 for a task that has none yet, and how many cores are open. (That they are at most 8 is no ghost field,
// since `assign` of specs/FirstFit.antt would have to prove it.)
#[derive(Clone, Copy)]
struct Assignment {
    core: [u8; 64],
    cores: u8,
}

impl Assignment {
    #[tactic(auto, unfolding(crate::specs::FirstFit::unassigned))]
    fn unassigned() -> Self
        ensures { result ≡ noneAssigned }
    {
        Assignment {
            core: [255; 64],
            cores: 0,
        }
    }

    // The core of task i; 0 past the end.
    fn core_of(&self, i: u8) -> u8
        ensures { result ≡ at self.now.core i }
    {
        self.core.get(usize::from(i)).copied().unwrap_or(0)
    }

    // With task i on core k, which may be the next new one.
    #[tactic(auto, unfolding(crate::specs::FirstFit::assign))]
    fn with(mut self, i: u8, k: u8) -> Self
        requires { self.cores ≤ 8 }
        ensures { result ≡ assign i k self }
    {
        store(&mut self.core, i, k);
        if self.cores <= k {
            self.cores += 1;
        }
        self
    }
}

#[tactic(auto, unfolding(crate::specs::Plan::bad_start))]
fn is_bad_start(n: u8, start: u64) -> bool
    ensures { result ≡ bad_start n start }
{
    u64::from(n.max(1)) <= start
}

// The refusals that are told before any core is looked for: 5, 4, 7, 8, 22 and 16.
fn check_call(jobs: &[u8], limit: u64, start: u64, room: usize) -> Result<(), Rejection>
    ensures { refusal_of result ≡ scan (call_rows jobs.now limit start room) }
{
    jobs::check_list(jobs, limit)?;
    if is_bad_start((jobs.len() / 4) as u8, start) {
        return Err(Refusal::Start.at(0));
    }
    if room < 712 {
        return Err(Refusal::Tight.at(0));
    }
    Ok(())
}

// Plans a job list for at most `limit` cores from a start in the ring, and writes the sheet to the front of `out`.
pub fn plan(jobs: &[u8], limit: u64, start: u64, out: &mut [u8]) -> Result<Planned, Rejection>
    ensures result_value { outcome_of result ≡ plan_outcome jobs.now limit start (length out.old) }
    ensures out_after { out.new ≡ plan_output jobs.now limit start out.old }
    ensures accepting { Accepting result out.new }
{
    check_call(jobs, limit, start, out.len())?;
    let order = jobs::in_order(By::Period, jobs, (jobs.len() / 4) as u8);
    let jobs = Jobs {
        list: jobs,
        order: order.as_slice(),
    };
    let assignment = jobs.first_fit(limit as u8, start as usize)?;
    let length = jobs.write_sheet(&assignment, out);
    Ok(Planned {
        tasks: jobs.count(),
        cores: assignment.cores,
        length,
    })
}
