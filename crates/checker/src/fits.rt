// Rules 13 and 14: the chain and the load of each core.
ghost use Rattle.std.specs.Prelude.{◌≡◌, true, ◌+◌, ◌*◌, ◌<◌, ◌≤◌, min, length};
ghost use Rattle.sheet.specs.Table.{scan, refusal_of};
ghost use Rattle.sheet.specs.Records.{factor_at};
ghost use Rattle.sheet.specs.Views.{figures_by};
ghost use Rattle.fit.specs.Lists.{Each};
ghost use Rattle.fit.specs.Fits.{chain_break, level_overloaded};
ghost use Rattle.order.specs.Cores.{ByCore};
ghost use Rattle.checker.specs.Rules.{fit_rows};
ghost use Rattle.checker.specs.Steps.{judged, Sorted, InRange};

use crate::rows::refuse_core;
use fit::Break;
use sheet::{Records, Refusal, Rejection};

// All tasks core by core, in priority order on each. Where the positions stand so already, they are taken as they stand.
fn order_of(sorted: bool, r: &Records) -> [u8; 64]
    requires { InRange (figures_by r.now) × (sorted ≡ true → Sorted (figures_by r.now)) }
    ensures { ByCore (figures_by r.now).period (figures_by r.now).core (min r.now.n 64) result }
{
    if sorted {
        return order::standing(r.n);
    }
    let periods = fit::periods_of(r.tasks, 10, r.n);
    order::by_core(&periods, r.on, r.n)
}

// A load, brought to a factor that is `times` the one before, and one task more of budget e. The bound is 65,535 * (2^32 - 1).
fn level_sum(load: u64, times: u32, e: u16, divisor: u32) -> u64
    requires { load * times ≤ 281470681677825 }
    ensures { result ≡ load * times + e * divisor }
{
    load * u64::from(times) + u64::from(e) * u64::from(divisor)
}

// What is said of a core that is over: a broken chain comes first.
fn judge_over(tasks: &[u8], list: &[u8]) -> Result<bool, Rejection>
    ensures { result ≡ judged (chain_break (factor_at tasks.now) 1 list.now) true }
{
    match fit::chain_of(tasks, list) {
        Ok(_) => Ok(true),
        Err(Break { task }) => Err(Refusal::Chain.at(u16::from(task))),
    }
}

// The task records. Of what a call answers a proof knows that it is bytes, of a field of `r` it does not.
fn task_records<'a>(r: &Records<'a>) -> &'a [u8]
    ensures { result.now ≡ r.now.tasks.now }
{
    r.tasks
}

// Rules 13 and 14 over the tasks of core k in priority order, in one pass: whether it is over. `load` is that of the tasks passed at the
// factor `last` of the last of them, `room` the least that one of them has to spare: before the first it is 2^40, above what any stroke takes.
fn judge(r: &Records, k: u8, list: &[u8]) -> Result<bool, Rejection>
    requires { Each (λ i. (10 * i + 10 ≤ length r.now.tasks.now) × (0 < factor_at r.now.tasks.now i)) list.now }
    ensures { result ≡ judged (chain_break (figures_by r.now).factor 1 list.now) (level_overloaded (figures_by r.now).budget (figures_by r.now).stroke (figures_by r.now).factor ((figures_by r.now).pivot k) ((figures_by r.now).divisor k) list.now) }
{
    // Read before the loop, so that the compiler makes one loop for each version.
    let stroked = r.stroked;
    let tasks = task_records(r);
    let pivot = sheet::pivot(r.cores, k);
    let divisor = sheet::divisor(r.cores, k);
    let mut load = 0;
    let mut last = 1;
    let mut room = 1 << 40;
    for &task in list {
        let at = sheet::offset(10, task);
        let record = &tasks[at..at + 10];
        let m = sheet::factor(record, 0);
        let times = m / last;
        if times * last != m {
            return Err(Refusal::Chain.at(u16::from(task)));
        }
        if room < fit::held(sheet::stroke(stroked, record, 0), divisor) {
            return judge_over(r.tasks, list);
        }
        let sum = level_sum(load, times, sheet::budget(record, 0), divisor);
        let full = fit::product(pivot, m);
        if full < sum {
            return judge_over(r.tasks, list);
        }
        room = room.min(full - sum);
        load = sum;
        last = m;
    }
    Ok(false)
}

// Rules 13 and 14. A broken chain of any core comes before every overload.
pub(crate) fn fit_rules(sorted: bool, r: &Records) -> Result<(), Rejection>
    requires { (10 * r.now.n ≤ length r.now.tasks.now) × InRange (figures_by r.now) × (sorted ≡ true → Sorted (figures_by r.now)) }
    ensures { refusal_of result ≡ scan (fit_rows (figures_by r.now)) }
{
    let list = order_of(sorted, r);
    let mut found = None;
    let mut from = 0;
    for k in 0..r.c {
        let to = order::end_on(&list, r.on, r.n, from, k);
        let over = judge(r, k, &list[from..to])?;
        found = found.or(over.then_some(k));
        from = to;
    }
    refuse_core(found, Refusal::Overload)
}
