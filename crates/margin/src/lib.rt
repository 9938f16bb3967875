// The margin of a task of a job list: how many ticks its jobs have to spare on the bench (docs/SHEET.md, section 11).
#![tactic(auto)]

ghost use Rattle.std.specs.Prelude.{◌≡◌, ◌+◌, ◌*◌, ◌≤◌, ◌<◌, All, length, map, take, pos, ◌-ℤ◌, nat_abs};
ghost use Rattle.fit.specs.Lists.{numbers};
ghost use Rattle.jobs.specs.Jobs.{job_count, job_period, job_budget, Listed};
ghost use Rattle.margin.specs.Margin.{tasks_above, smallest, margin_from};
ghost use Rattle.margin.specs.Answers.{outcome_of, margin_in, margin_answer};
ghost use Rattle.margin.specs.Exact.{Exact};
ghost use Rattle.margin.specs.Steps.{task_at, asked, demand_below, IsInRange};

use sheet::{Refusal, Rejection};

// A task of a job list.
#[derive(Clone, Copy, Default)]
struct Task {
    period: u16,
    budget: u16,
}

impl Task {
    fn at(list: &[u8], i: u8) -> Task
        ensures { result ≡ task_at (job_period list.now) (job_budget list.now) i }
    {
        Task {
            period: jobs::period(list, i),
            budget: jobs::budget(list, i),
        }
    }

    // What the task asks for in t ticks: its budget times (t / period rounded up).
    #[tactic(auto, using(crate::proofs::Requests::asked_bound, fit::proofs::Ceiling::div_ceil_is), unfolding(fit::specs::Rounding::ceiling))]
    fn asked(self, t: u32) -> u32
        requires { IsInRange self × (t ≤ 60000) }
        ensures { (result ≡ asked t self) × (result ≤ 120000) }
    {
        u32::from(self.budget) * t.div_ceil(u32::from(self.period))
    }
}

// The tasks that have priority over one: the first `count` places.
#[derive(Clone, Copy)]
struct HigherTasks {
    count: usize,
    tasks: [Task; 64],
}

// The demand at t of a task with this budget, below tasks that have priority over it.
fn demand_at(higher: &[Task], budget: u16, t: u32) -> u32
    requires { All IsInRange higher.now × (length higher.now ≤ 64) × (t ≤ 60000) }
    ensures { (result ≡ demand_below higher.now budget t) × (result ≤ 7800000) }
{
    let mut total = u32::from(budget);
    for task in higher {
        total += task.asked(t);
    }
    total
}

// The smallest number of ticks up to its period in which the demand of a task is met, else its demand at the period. Where the demand at t
// is above t, no t below the demand meets it, so the search goes on from the demand.
fn ticks_needed(higher: &[Task], task: Task) -> u32
    requires { All IsInRange higher.now × (length higher.now ≤ 64) × (task.period ≤ 60000) }
    ensures { (margin_from task.period (demand_below higher.now task.budget task.period) (smallest (demand_below higher.now task.budget) task.period) ≡ pos task.period -ℤ pos result) × (result ≤ 7800000) }
{
    let period = u32::from(task.period);
    let mut t = 1;
    while t <= period {
        let demand = demand_at(higher, task.budget, t);
        if demand <= t {
            return t;
        }
        t = demand;
    }
    demand_at(higher, task.budget, period)
}

// The tasks of a job list of n entries that have priority over task i. Each is laid at the place past those found so far, which counts only
// if it is above.
fn tasks_above(list: &[u8], n: u8, i: u8) -> HigherTasks
    requires { n ≤ 64 }
    ensures fits { result.count ≤ 64 }
    ensures tasks { take result.count result.tasks ≡ map (task_at (job_period list.now) (job_budget list.now)) (tasks_above (job_period list.now) (numbers 0 n) i) }
{
    let own = jobs::period(list, i);
    let mut higher = HigherTasks {
        count: 0,
        tasks: [Task::default(); 64],
    };
    // Not in the struct, so that the loop keeps it in a register.
    let mut count = 0;
    for j in 0..n {
        let task = Task::at(list, j);
        higher.tasks[count] = task;
        count += usize::from(fit::is_above(task.period, j, own, i));
    }
    higher.count = count;
    higher
}

// The margin of task i of a job list of n entries that breaks no rule.
fn margin_of(list: &[u8], n: u8, i: u8) -> i32
    requires { Listed 0 list.now × (n ≡ job_count list.now) × (i < n) }
    ensures { result ≡ margin_in list.now i }
{
    let task = Task::at(list, i);
    let higher = tasks_above(list, n, i);
    let needed = ticks_needed(&higher.tasks[..higher.count], task);
    i32::from(task.period) - needed as i32
}

// The margin of a task of a job list on the bench: 5, 4, 7, 8, then 17, else a number of ticks. It is zero or more for every task exactly
// when no run from the bench start leaves a job pending once its period has passed.
pub fn margin(list: &[u8], number: u64) -> Result<i32, Rejection>
    ensures result_value { outcome_of result ≡ margin_answer list.now number }
    ensures exact { Exact list.now }
{
    jobs::check_list(list, 0)?;
    let n = list.len() / 4;
    if n as u64 <= number {
        return Err(Refusal::Unlisted.at(0));
    }
    Ok(margin_of(list, n as u8, number as u8))
}

// A margin without its sign.
pub fn magnitude(m: i32) -> u64
    ensures { result ≡ nat_abs m }
{
    u64::from(m.unsigned_abs())
}
