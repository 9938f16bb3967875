// The job list: 4-byte entries with a period and a budget, and its refusals (docs/SHEET.md, section 5).
#![tactic(auto)]

ghost use Rattle.std.specs.Prelude.{◌≡◌, min};
ghost use Rattle.std.specs.List.{find, range_with_len};
ghost use Rattle.sheet.specs.Table.{scan, refusal_of};
ghost use Rattle.sheet.specs.Ranges.{bad_period, bad_budget};
ghost use Rattle.fit.specs.Ring.{order_by};
ghost use Rattle.fit.specs.Answers.{Ordered};
ghost use Rattle.jobs.specs.Jobs.{job_period, job_budget, list_rows};

use fit::{By, Order};
use sheet::{Refusal, Rejection};

// The tasks of a job list of n entries in priority order or in ring order; of more than 64 the first 64.
pub fn in_order(by: By, jobs: &[u8], n: u8) -> Order
    ensures { Ordered (order_by by (job_period jobs.now) (min n 64)) result }
{
    let periods = fit::periods_of(jobs, 4, n);
    order::sorted(by, &periods, n)
}

// The fields of entry i.

pub fn period(jobs: &[u8], i: u8) -> u16
    ensures { result ≡ job_period jobs.now i }
{
    sheet::read_word(jobs, 4 * usize::from(i))
}

pub fn budget(jobs: &[u8], i: u8) -> u16
    ensures { result ≡ job_budget jobs.now i }
{
    sheet::read_word(jobs, 4 * usize::from(i) + 2)
}

// The first of n entries whose period is not 1 to 60,000.
#[tactic(auto, unfolding(sheet::specs::Ranges::bad_period))]
fn first_bad_period(jobs: &[u8], n: u8) -> Option<u8>
    ensures { result ≡ find (bad_period (job_period jobs.now)) (range_with_len 0 n) }
{
    (0..n).find(|&i| sheet::out_of(60_000, u32::from(period(jobs, i))))
}

// The first of n entries whose budget is not 1 to its period.
#[tactic(auto, unfolding(sheet::specs::Ranges::bad_budget))]
fn first_bad_budget(jobs: &[u8], n: u8) -> Option<u8>
    ensures { result ≡ find (bad_budget (job_period jobs.now) (job_budget jobs.now)) (range_with_len 0 n) }
{
    (0..n).find(|&i| sheet::out_of(u32::from(period(jobs, i)), u32::from(budget(jobs, i))))
}

// Checks a job list and a core limit: refusals 5, 4, 7 and 8.
pub fn check_list(jobs: &[u8], limit: u64) -> Result<(), Rejection>
    ensures { refusal_of result ≡ scan (list_rows limit jobs.now) }
{
    if jobs.len() % 4 != 0 {
        return Err(Refusal::Length.at(0));
    }
    if jobs.len() / 4 > 64 || limit > 8 {
        return Err(Refusal::Count.at(0));
    }
    let n = (jobs.len() / 4) as u8;
    if let Some(i) = first_bad_period(jobs, n) {
        return Err(Refusal::Period.at(u16::from(i)));
    }
    if let Some(i) = first_bad_budget(jobs, n) {
        return Err(Refusal::Budget.at(u16::from(i)));
    }
    Ok(())
}
