// Reads a job list as text from standard input and writes the sheet of its plan to standard output. The arguments are the core limit and
// the start, 8 and 0 where they are absent. What is wrong is said in one line on standard error, and then no sheet is written.
#![tactic(auto)]

ghost use Rattle.std.specs.Prelude.{◌≡◌, ◌≤◌};
ghost use Rattle.plan.specs.Number.{longer, number_in};

use std::env::{Env, FillError};
use std::io::Input as Source;

// The largest number that is told from the next: a core limit and a start are out of range long before it.
const MOST: u64 = 1_000_000;

// A number with one digit more.
#[tactic(auto, unfolding(crate::specs::Number::longer))]
fn extend(number: u64, digit: u8) -> u64
    requires { (number ≤ 1000000) × (48 ≤ digit) }
    ensures { (result ≡ longer number digit) × (result ≤ 1000000) }
{
    MOST.min(10 * number + u64::from(digit) - 48)
}

fn read_number(text: &[u8]) -> Option<u64>
    ensures { result ≡ number_in text.now }
{
    if text.is_empty() {
        return None;
    }
    let mut number = 0;
    for &byte in text {
        if !byte.is_ascii_digit() {
            return None;
        }
        number = extend(number, byte);
    }
    Some(number)
}

// Argument i, or a number in its place where it is absent. One too long for the buffer is wrong.
fn argument(rt: &impl Env, i: usize, absent: u64) -> Option<u64> {
    let mut text = [0; 4096];
    match rt.arg(i, &mut text) {
        Ok(n) => read_number(&text[..n]),
        Err(FillError::NotPresent) => Some(absent),
        Err(FillError::TooLong) => None,
    }
}

// Plans the job list of a text and writes the sheet.
fn plan_jobs(rt: &(impl Print + Eprint), text: &[u8], jobs: &[u8], limit: u64, start: u64) {
    let mut sheet = [0; 712];
    match planner::plan(jobs, limit, start, &mut sheet) {
        Ok(planned) => {
            if let Err(error) = rt.write_all(&sheet[..usize::from(planned.length)]) {
                input::say_failed(rt, "standard output", error);
            }
        }
        Err(rejection) => {
            jobinput::say_refused(rt, rejection, text, jobs.is_empty());
        }
    }
}

fn plan_input(rt: &(impl Source + Print + Eprint), limit: u64, start: u64) {
    let mut text = [0; 65536];
    let mut jobs = [0; 256];
    if let Some(lengths) = jobinput::read_list(rt, &mut text, &mut jobs) {
        plan_jobs(
            rt,
            &text[..lengths.text],
            &jobs[..lengths.jobs],
            limit,
            start,
        );
    }
}

// The core limit and the start that the arguments give.
fn arguments(rt: &impl Env) -> Option<(u64, u64)> {
    if input::has_argument(rt, 3) {
        return None;
    }
    Some((argument(rt, 1, 8)?, argument(rt, 2, 0)?))
}

fn main(rt: HostRuntime) {
    match arguments(&rt) {
        Some((limit, start)) => plan_input(&rt, limit, start),
        None => {
            let _ = eprintln!(rt; "usage: plan [LIMIT [START]] < JOBS > SHEET");
        }
    }
}
