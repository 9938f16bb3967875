// Rules 7 to 12, 23 and 25: the figures of tasks and cores.
ghost use Rattle.std.specs.Prelude.{◌≡◌, true, ℕ, ◌+◌, ◌*◌, ◌<◌, ◌≤◌, length};
ghost use Rattle.sheet.specs.Table.{scan, refusal_of};
ghost use Rattle.sheet.specs.Views.{figures_by};
ghost use Rattle.fit.specs.Lists.{numbers, find, at};
ghost use Rattle.checker.specs.Tests.{bare};
ghost use Rattle.checker.specs.Rules.{task_rows, core_rows};
ghost use Rattle.checker.specs.Steps.{Used, sound_at, early_rows};

use crate::faults::{
    is_bad_budget, is_bad_core, is_bad_factor, is_bad_period, is_bad_pivot, is_bad_stroke,
    is_stretched,
};
use crate::rows::{refuse, refuse_core, refuse_if};
use sheet::{Records, Refusal, Rejection};

// Which cores have a task, by their numbers.
fn used_cores(on: &[u8], n: u8) -> [bool; 256]
    ensures { Used n (at on.now) result }
{
    let mut used = [false; 256];
    for i in 0..n {
        used[usize::from(sheet::byte(on, usize::from(i)))] = true;
    }
    used
}

// The first core that has no task.
fn first_bare(r: &Records) -> Option<u8>
    ensures { result ≡ find (bare r.now.n (figures_by r.now).core) (numbers 0 r.now.c) }
{
    let used = used_cores(r.on, r.n);
    (0..r.c).find(|&k| !used[usize::from(k)])
}

// Rules 7, 8, 25, 23 and 9.
fn task_rules(r: &Records, misordered: bool) -> Result<(), Rejection>
    ensures { refusal_of result ≡ scan (task_rows misordered (figures_by r.now)) }
{
    refuse((0..r.n).find(|&i| is_bad_period(r, i)), Refusal::Period)?;
    refuse((0..r.n).find(|&i| is_bad_budget(r, i)), Refusal::Budget)?;
    refuse((0..r.n).find(|&i| is_bad_stroke(r, i)), Refusal::Stroke)?;
    refuse_if(misordered, Refusal::Order)?;
    refuse((0..r.n).find(|&i| is_bad_core(r, i)), Refusal::Core)
}

// Rules 10 to 12.
fn core_rules(r: &Records) -> Result<(), Rejection>
    ensures { refusal_of result ≡ scan (core_rows (figures_by r.now)) }
{
    refuse_core(first_bare(r), Refusal::Bare)?;
    refuse((0..r.n).find(|&i| is_bad_factor(r, i)), Refusal::Factor)?;
    refuse_core((0..r.c).find(|&k| is_bad_pivot(r, k)), Refusal::Factor)?;
    refuse((0..r.n).find(|&i| is_stretched(r, i)), Refusal::Stretch)
}

// Whether rules 7, 8, 25, 9, 11 and 12 are all kept at task i. Parts of known length are read without a test for each byte.
fn is_sound(r: &Records, i: u8) -> bool
    requires { (10 * i + 10 ≤ length r.now.tasks.now) × (8 * r.now.c ≤ length r.now.cores.now) }
    ensures { result ≡ sound_at (figures_by r.now) i }
{
    let k = sheet::byte(r.on, usize::from(i));
    if r.c <= k {
        return false;
    }
    let task = 10 * usize::from(i);
    let core = 8 * usize::from(k);
    let one = Records {
        stroked: r.stroked,
        tasks: &r.tasks[task..task + 10],
        cores: &r.cores[core..core + 8],
        on: &[0],
        n: 1,
        c: 1,
    };
    let job = is_bad_budget(&one, 0) | is_bad_stroke(&one, 0);
    let ranges = (is_bad_period(&one, 0) | job) | is_bad_factor(&one, 0);
    !(ranges | is_stretched(&one, 0))
}

// Whether they are kept at every task.
fn all_sound(r: &Records) -> bool
    requires { (10 * r.now.n ≤ length r.now.tasks.now) × (8 * r.now.c ≤ length r.now.cores.now) }
    ensures { result ≡ true → (i : ℕ) → i < r.now.n → sound_at (figures_by r.now) i ≡ true }
{
    // A copy, so that the compiler makes one loop for each version.
    let r = *r;
    (0..r.n).all(|i| is_sound(&r, i))
}

// Rules 10 to 12 where every task keeps its rules: 10 and 11 at the cores are left.
fn bare_rules(r: &Records) -> Result<(), Rejection>
    requires { (i : ℕ) → i < r.now.n → sound_at (figures_by r.now) i ≡ true }
    ensures { refusal_of result ≡ scan (core_rows (figures_by r.now)) }
{
    refuse_core(first_bare(r), Refusal::Bare)?;
    refuse_core((0..r.c).find(|&k| is_bad_pivot(r, k)), Refusal::Factor)
}

// Rules 7 to 12, 23 and 25. Most sheets keep all rules at their tasks: one pass tells.
pub(crate) fn early_rules(r: &Records, misordered: bool) -> Result<(), Rejection>
    requires { (10 * r.now.n ≤ length r.now.tasks.now) × (8 * r.now.c ≤ length r.now.cores.now) }
    ensures { refusal_of result ≡ scan (early_rows misordered (figures_by r.now)) }
{
    if all_sound(r) {
        refuse_if(misordered, Refusal::Order)?;
        return bare_rules(r);
    }
    task_rules(r, misordered)?;
    core_rules(r)
}
