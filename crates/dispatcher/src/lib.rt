// The two starts of a core, from a sheet and from a job list (docs/SHEET.md, sections 6, 7 and 14).
#![tactic(auto)]

ghost use Rattle.std.specs.Prelude.{ℕ, ◌≡◌, ◌*◌, ◌<◌, ◌≤◌, [], length, map, take};
ghost use Rattle.sheet.specs.Records.{period_at, budget_at};
ghost use Rattle.sheet.specs.Views.{number_of_position, stroke_of_position, positioned_in};
ghost use Rattle.fit.specs.declared.By.TheVariants.{Period};
ghost use Rattle.fit.specs.Ring.{order_by};
ghost use Rattle.fit.specs.Cores.{order_on};
ghost use Rattle.jobs.specs.Jobs.{job_period, job_budget};
ghost use Rattle.dispatcher.specs.Starts.{fresh_task, fresh_tasks, state_of, SheetStart, ListStart};
ghost use Rattle.dispatcher.specs.OnTime.{Timely};
ghost use Rattle.dispatcher.specs.Steps.{fresh_by};

use checker::Counts;
use fit::{By, Order};
use sheet::Refusal;
use state::{Core, Reply, Step};
use timing::Task;

// A task whose age is its period, with nothing left.
fn fresh(period: u16, budget: u16, stroke: u8, number: u8) -> Task
    ensures { result ≡ fresh_task period budget stroke number }
{
    Task {
        period,
        budget,
        age: period,
        left: 0,
        number,
        stroke,
    }
}

// The state without tasks: its places have zeros.
#[tactic(auto, unfolding(crate::specs::Starts::state_of))]
fn empty() -> Core
    ensures { result ≡ state_of [] }
{
    Core {
        count: 0,
        tasks: [fresh(0, 0, 0, 0); 64],
        stroke_task: 0,
        stroke_left: 0,
    }
}

// Puts the tasks of an order, each of them as `task` makes it, into the state without tasks.
fn fill<F: Fn(u8) -> Task>(core: &mut Core, order: &Order, task: F)
    requires empty { core.old ≡ state_of [] }
    requires few { order.now.count ≤ 64 }
    requires makes { F.IsAlwaysCallable task }
    ensures { (t : ℕ → Task) → ((j : ℕ) (u : Task) → j < 256 → F.post task j u → u ≡ t j) → core.new ≡ state_of (map t (take order.now.count order.now.tasks)) }
{
    for (i, &j) in order.as_slice().iter().enumerate() {
        core.tasks[i] = task(j);
    }
    core.count = order.count;
}

// Puts the fresh tasks of core k of a sheet of n tasks and c cores into the state without tasks; `grouped` says that the sheet is of version 2,
// `stroked` of version 3. `records` is the sheet's part from byte 8.
fn fill_from_sheet(
    core: &mut Core,
    grouped: bool,
    stroked: bool,
    records: &[u8],
    n: u8,
    c: u8,
    k: u8,
)
    requires empty { core.old ≡ state_of [] }
    requires room { (n ≤ 64) × (10 * n ≤ length records.now) }
    ensures { core.new ≡ state_of (fresh_by (period_at records.now) (budget_at records.now) (stroke_of_position stroked records.now) (number_of_position grouped records.now) (order_on (positioned_in grouped stroked n c records.now) k)) }
{
    let cores = &records[10 * usize::from(n)..];
    let on = views::cores_of(grouped, records, cores, n, c);
    let periods = fit::periods_of(records, 10, n);
    let order = order::on_core(&periods, &on, n, k);
    fill(core, &order, |j| {
        let stroke = sheet::stroke(stroked, records, j);
        let number = views::number_of(grouped, records, j);
        fresh(
            sheet::period(records, j),
            sheet::budget(records, j),
            stroke,
            number,
        )
    });
}

// Puts the fresh tasks of a job list of n entries into the state without tasks.
fn fill_from_list(core: &mut Core, list: &[u8], n: u8)
    requires empty { core.old ≡ state_of [] }
    requires few { n ≤ 64 }
    ensures { core.new ≡ state_of (fresh_tasks (job_period list.now) (job_budget list.now) (λ i. 1) (order_by Period (job_period list.now) n)) }
{
    let order = jobs::in_order(By::Period, list, n);
    fill(
        core,
        &order,
        |j| fresh(jobs::period(list, j), jobs::budget(list, j), 1, j),
    );
}

// Starts a core from a sheet of any version and a core number: 1 to 14, 23 and 25, then 9 where there is no such core, else its fresh state.
pub fn start_sheet(sheet: &[u8], core: u64) -> Step
    ensures sheet_start { SheetStart sheet.now core result }
    ensures on_time { Timely sheet.now core result }
{
    let mut state = empty();
    let Counts { tasks, cores } = match checker::check(sheet) {
        Ok(counts) => counts,
        Err(why) => return Step::refused(state, why),
    };
    if u64::from(cores) <= core {
        return Step::refused(state, Refusal::Core.at(0));
    }
    let grouped = sheet::is_grouped(sheet);
    let stroked = sheet::is_stroked(sheet);
    fill_from_sheet(
        &mut state,
        grouped,
        stroked,
        &sheet[8..],
        tasks,
        cores,
        core as u8,
    );
    Step {
        answer: Ok(Reply::Accepted),
        core: state,
    }
}

// Starts a core on the bench from a job list: 5, 4, 7, 8, else its fresh state.
pub fn start_list(list: &[u8]) -> Step
    ensures { ListStart list.now result }
{
    let mut state = empty();
    if let Err(why) = jobs::check_list(list, 0) {
        return Step::refused(state, why);
    }
    let n = list.len() / 4;
    fill_from_list(&mut state, list, n as u8);
    Step {
        answer: Ok(Reply::Accepted),
        core: state,
    }
}
