// Runs the cards of specs/Cards.antt, but for U, which is about the definition of the trials, Z and AD, through the code and prints a line for
// each (three for R, one a start; for X the verdict, the mover both ways and a run; three for Y; two for AA; for AB the verdict, three runs and
// the mover; three for AC; four for AE), then the listing of the sheets of B, C, P, X and AB.
#![tactic(auto)]

ghost use Rattle.std.specs.Prelude.{◌+◌, ◌*◌, ◌≤◌, ◌≡◌, true, length};
ghost use Rattle.input.specs.Inputs.{IsPrefixLen};
ghost use Rattle.fit.specs.Fits.{within as withinOf};
ghost use Rattle.cards.specs.Cards.{header, listed as listedSheet, seven, jobs_g, jobs_h, jobs_i, jobs_l, jobs_n, jobs_r, jobs_s, jobs_t, jobs_v, jobs_w, unchained as unchainedSheet, nearly_full, overfull as overfullSheet, grouped as groupedSheet, ungrouped as ungroupedSheet, stroked as strokedSheet, stroked_three};

use checker::Counts;
use fit::By;
use planner::Planned;
use sheet::Rejection;
use state::{Core, Reply, Step};
use std::fmt::Display;

fn print(rt: &impl Print, text: &str) {
    let _ = rt.print(text);
}

// A space and a number.
fn print_number<N: Display + Drop>(rt: &impl Print, n: N) {
    let _ = print!(rt; " {n}");
}

// A refusal as the cards have it, without the word for its place.
fn print_refused(rt: &impl Print, rejection: Rejection) {
    print(rt, " refused");
    print_number(rt, u8::from(rejection.word));
    print_number(rt, rejection.place);
}

// The inputs of the cards.

fn bare_header() -> [u8; 8]
    ensures { result ≡ header 0 0 }
{
    *b"TSH\x01\x00\x00\x00\x00"
}

// The sheet of card B with the last budget and the last factor given.
fn listed(budget: u8, factor: u8) -> [u8; 46]
    ensures { result ≡ listedSheet budget factor }
{
    let mut sheet =
        *b"TSH\x01\x00\x03\x01\x00\x03\x00\x01\x00\x00\x00\x01\x00\x00\x00\x07\x00\x01\x00\x00\x00\x02\x00\x00\x00\x0d\x00\x06\x00\x00\x00\x04\x00\x00\x00\x03\x00\x00\x00\x01\x00\x00\x00";
    sheet[30] = budget;
    sheet[34] = factor;
    sheet
}

fn seven_bytes() -> [u8; 7]
    ensures { result ≡ seven }
{
    *b"TSH\x01\x00\x00\x00"
}

fn jobs_g() -> [u8; 12]
    ensures { result ≡ jobs_g }
{
    *b"\x02\x00\x01\x00\x0b\x00\x02\x00\x11\x00\x04\x00"
}

fn jobs_h() -> [u8; 8]
    ensures { result ≡ jobs_h }
{
    *b"\x0a\x00\x04\x00\x0f\x00\x09\x00"
}

fn jobs_i() -> [u8; 8]
    ensures { result ≡ jobs_i }
{
    *b"\x05\x00\x01\x00\x09\x00\x07\x00"
}

fn jobs_l() -> [u8; 8]
    ensures { result ≡ jobs_l }
{
    *b"\x05\x00\x02\x00\x07\x00\x04\x00"
}

fn jobs_n() -> [u8; 12]
    ensures { result ≡ jobs_n }
{
    *b"\x03\x00\x01\x00\x04\x00\x01\x00\x05\x00\x03\x00"
}

fn jobs_r() -> [u8; 12]
    ensures { result ≡ jobs_r }
{
    *b"\x02\x00\x01\x00\x14\x00\x02\x00\x37\x00\x14\x00"
}

fn jobs_s() -> [u8; 12]
    ensures { result ≡ jobs_s }
{
    *b"\x02\x00\x01\x00\x06\x00\x02\x00\x0c\x00\x01\x00"
}

fn jobs_t() -> [u8; 28]
    ensures { result ≡ jobs_t }
{
    *b"\x10\x00\x02\x00\x05\x00\x03\x00\x1b\x00\x07\x00\x17\x00\x09\x00\x0c\x00\x08\x00\x09\x00\x03\x00\x19\x00\x03\x00"
}

fn jobs_v() -> [u8; 12]
    ensures { result ≡ jobs_v }
{
    *b"\x05\x00\x02\x00\x07\x00\x04\x00\x23\x00\x01\x00"
}

fn jobs_w() -> [u8; 12]
    ensures { result ≡ jobs_w }
{
    *b"\x04\x00\x01\x00\x04\x00\x02\x00\x03\x00\x01\x00"
}

fn unchained() -> [u8; 36]
    ensures { result ≡ unchainedSheet }
{
    *b"TSH\x01\x00\x02\x01\x00\x05\x00\x01\x00\x00\x00\x02\x00\x00\x00\x06\x00\x01\x00\x00\x00\x01\x00\x00\x00\x02\x00\x00\x00\x01\x00\x00\x00"
}

fn nearly_full() -> [u8; 26]
    ensures { result ≡ nearly_full }
{
    *b"TSH\x01\x00\x01\x01\x00\xd0\x07\xcf\x07\x00\x00\x01\x00\x00\x00\xd0\x07\x00\x00\x01\x00\x00\x00"
}

fn overfull() -> [u8; 36]
    ensures { result ≡ overfullSheet }
{
    *b"TSH\x01\x00\x02\x01\x00\xd0\x07\xcf\x07\x00\x00\x01\x00\x00\x00\xa0\x0f\x03\x00\x00\x00\x02\x00\x00\x00\xd0\x07\x00\x00\x01\x00\x00\x00"
}

// The sheet of card X with these old numbers at positions 1, 2 and 4 and this task count of core 1.
fn grouped(a: u8, b: u8, last: u8, count: u8) -> [u8; 74]
    ensures { result ≡ groupedSheet a b last count }
{
    let mut sheet =
        *b"TSH\x02\x00\x05\x02\x00\x04\x00\x01\x00\x03\x00\x01\x00\x00\x00\x08\x00\x02\x00\x01\x00\x02\x00\x00\x00\x08\x00\x01\x00\x04\x00\x02\x00\x00\x00\x05\x00\x01\x00\x02\x00\x01\x00\x00\x00\x09\x00\x07\x00\x00\x00\x02\x00\x00\x00\x04\x00\x03\x00\x01\x00\x00\x00\x09\x00\x02\x00\x02\x00\x00\x00";
    sheet[22] = a;
    sheet[32] = b;
    sheet[52] = last;
    sheet[68] = count;
    sheet
}

fn ungrouped() -> [u8; 74]
    ensures { result ≡ ungroupedSheet }
{
    *b"TSH\x01\x00\x05\x02\x00\x09\x00\x07\x00\x01\x00\x02\x00\x00\x00\x08\x00\x02\x00\x00\x00\x02\x00\x00\x00\x05\x00\x01\x00\x01\x00\x01\x00\x00\x00\x04\x00\x01\x00\x00\x00\x01\x00\x00\x00\x08\x00\x01\x00\x00\x00\x02\x00\x00\x00\x04\x00\x00\x00\x01\x00\x00\x00\x09\x00\x00\x00\x02\x00\x00\x00"
}

// The sheet of cards AA to AC with these stroke lengths.
fn stroked(q: u8, r: u8) -> [u8; 36]
    ensures { result ≡ strokedSheet q r }
{
    let mut sheet =
        *b"TSH\x03\x00\x02\x01\x00\x02\x00\x01\x00\x00\x00\x01\x00\x00\x00\x07\x00\x03\x00\x00\x00\x03\x00\x00\x00\x02\x00\x00\x00\x01\x00\x00\x00";
    sheet[13] = q;
    sheet[23] = r;
    sheet
}

// The sheet of card AE with these stroke lengths of tasks 1 and 2.
fn stroked_three(q: u8, r: u8) -> [u8; 46]
    ensures { result ≡ stroked_three q r }
{
    let mut sheet =
        *b"TSH\x03\x00\x03\x01\x00\x03\x00\x01\x00\x00\x01\x01\x00\x00\x00\x09\x00\x04\x00\x00\x00\x03\x00\x00\x00\x12\x00\x04\x00\x00\x00\x06\x00\x00\x00\x03\x00\x00\x00\x01\x00\x00\x00";
    sheet[23] = q;
    sheet[33] = r;
    sheet
}

// Cards A to F, O to Q, Y, AA, AC and AE: what the checker answers.
fn check_card(rt: &impl Print, name: &str, sheet: &[u8]) {
    print(rt, name);
    match checker::check(sheet) {
        Ok(Counts { tasks, cores }) => {
            print(rt, " accepted");
            print_number(rt, tasks);
            print_number(rt, cores);
        }
        Err(rejection) => print_refused(rt, rejection),
    }
    print(rt, "\n");
}

fn check_cards(rt: &impl Print) {
    check_card(rt, "A", &bare_header());
    check_card(rt, "B", &listed(6, 4));
    check_card(rt, "C", &listed(7, 4));
    check_card(rt, "D", &listed(6, 5));
    check_card(rt, "E", &listed(6, 3));
    check_card(rt, "F", &seven_bytes());
}

// w, the whole part of Q × M / D.
fn within(q: u16, d: u32, m: u32) -> u64
    ensures { result ≡ withinOf q d m }
{
    if d == 0 {
        return 0;
    }
    u64::from(q) * u64::from(m) / u64::from(d)
}

// A figure of each of n tasks.
fn print_each<N: Display + Drop, F: Fn(u8) -> N>(rt: &impl Print, n: u8, figure: F)
    requires { F.IsAlwaysCallable figure }
{
    for i in 0..n {
        print_number(rt, figure(i));
    }
}

// Q and D of core k.
fn print_figures(rt: &impl Print, cores: &[u8], k: u8) {
    print(rt, " pivot");
    print_number(rt, sheet::pivot(cores, k));
    print(rt, " divisor");
    print_number(rt, sheet::divisor(cores, k));
}

// The figures of core 0 of a sheet, and the factors and w of its n tasks.
fn print_rates(rt: &impl Print, sheet: &[u8], n: u8)
    requires { 8 + 10 * n ≤ length sheet.now }
{
    let (tasks, cores) = sheet[8..].split_at(10 * usize::from(n));
    let q = sheet::pivot(cores, 0);
    let d = sheet::divisor(cores, 0);
    print_figures(rt, cores, 0);
    print(rt, " factors");
    print_each(rt, n, |i| sheet::factor(tasks, i));
    print(rt, " within");
    print_each(rt, n, |i| within(q, d, sheet::factor(tasks, i)));
}

// Cards G to I and R to T: what the planner makes. The length of the sheet is returned, 0 where it is refused.
fn plan_card(
    rt: &impl Print,
    name: &str,
    jobs: &[u8],
    limit: u64,
    start: u64,
    out: &mut [u8],
) -> usize
    ensures { IsPrefixLen result out.new }
{
    print(rt, name);
    match planner::plan(jobs, limit, start, out) {
        Err(rejection) => {
            print_refused(rt, rejection);
            print(rt, "\n");
            0
        }
        Ok(planned) => {
            print_rates(rt, out, planned.tasks);
            print(rt, "\n");
            usize::from(planned.length)
        }
    }
}

// Prints a call's answer, nothing where it is only accepted, and goes on with the state that the call handed back.
fn after(rt: &impl Print, step: Step) -> Core {
    match step.answer {
        Ok(Reply::Accepted) => {}
        Ok(Reply::Served(task)) => print_number(rt, task),
        Ok(Reply::Idle) => print(rt, " idle"),
        Err(rejection) => print_refused(rt, rejection),
    }
    step.core
}

fn ticked(rt: &impl Print, core: Core, ticks: u8) -> Core {
    let mut state = core;
    for _ in 0..ticks {
        state = after(rt, state.tick());
    }
    state
}

// Cards J, K and L begin so: a start, and a release of task 0 and of task 1.
fn both_released(rt: &impl Print, name: &str, start: Step) -> Core {
    print(rt, name);
    let core = after(rt, start);
    let core = after(rt, core.release(0));
    after(rt, core.release(1))
}

fn card_j(rt: &impl Print, sheet: &[u8]) {
    let core = both_released(rt, "J", dispatcher::start_sheet(sheet, 0));
    let core = ticked(rt, core, 5);
    let core = after(rt, core.release(0));
    let core = ticked(rt, core, 4);
    after(rt, core.finish(1));
    print(rt, "\n");
}

fn card_k(rt: &impl Print, sheet: &[u8]) {
    let core = both_released(rt, "K", dispatcher::start_sheet(sheet, 0));
    let core = ticked(rt, core, 4);
    after(rt, core.release(0));
    print(rt, "\n");
}

fn card_l(rt: &impl Print, jobs: &[u8]) {
    let core = both_released(rt, "L", dispatcher::start_list(jobs));
    let core = ticked(rt, core, 5);
    let core = after(rt, core.release(0));
    let core = ticked(rt, core, 2);
    after(rt, core.release(1));
    print(rt, "\n");
}

// Card I, and cards J and K on its sheet.
fn cards_i_to_k(rt: &impl Print) {
    let mut out = [0u8; 712];
    let n = plan_card(rt, "I", &jobs_i(), 1, 0, &mut out);
    card_j(rt, &out[..n]);
    card_k(rt, &out[..n]);
}

// Card M: three periods in ring order.
fn card_m(rt: &impl Print) {
    let periods = [7u16, 16, 21];
    let ring = order::sorted(By::Ring, &periods, 3);
    print(rt, "M");
    for &i in ring.as_slice() {
        if let Some(&period) = periods.get(usize::from(i)) {
            print_number(rt, period);
        }
    }
    print(rt, "\n");
}

// The core and the factor of each of n tasks of a sheet, and the figures of its c cores.
fn print_sheet(rt: &impl Print, sheet: &[u8], n: u8, c: u8)
    requires { 8 + 10 * n ≤ length sheet.now }
{
    let (tasks, cores) = sheet[8..].split_at(10 * usize::from(n));
    print(rt, " cores");
    print_each(rt, n, |i| sheet::core(tasks, i));
    print(rt, " factors");
    print_each(rt, n, |i| sheet::factor(tasks, i));
    for k in 0..c {
        print_figures(rt, cores, k);
    }
}

// Card N: what the planner makes with limit 2 and start 1.
fn card_n(rt: &impl Print, jobs: &[u8]) {
    let mut out = [0u8; 712];
    print(rt, "N");
    match planner::plan(jobs, 2, 1, &mut out) {
        Err(rejection) => print_refused(rt, rejection),
        Ok(Planned { tasks, cores, .. }) => print_sheet(rt, &out, tasks, cores),
    }
    print(rt, "\n");
}

// Cards R, from each start, S and T.
fn cards_r_to_t(rt: &impl Print) {
    let mut out = [0u8; 712];
    plan_card(rt, "R", &jobs_r(), 1, 0, &mut out);
    plan_card(rt, "R", &jobs_r(), 1, 1, &mut out);
    plan_card(rt, "R", &jobs_r(), 1, 2, &mut out);
    plan_card(rt, "S", &jobs_s(), 1, 0, &mut out);
    plan_card(rt, "T", &jobs_t(), 3, 5, &mut out);
}

fn print_margin(rt: &impl Print, jobs: &[u8], task: u64) {
    match margin::margin(jobs, task) {
        Ok(m) => print_number(rt, m),
        Err(rejection) => print_refused(rt, rejection),
    }
}

// Cards V and W: the margins of three tasks, and what a fourth number answers.
fn margin_card(rt: &impl Print, name: &str, jobs: &[u8]) {
    print(rt, name);
    for task in 0..4 {
        print_margin(rt, jobs, task);
    }
    print(rt, "\n");
}

// What the mover makes of a sheet: its length, and whether it is the other sheet.
fn print_moved(rt: &impl Print, sheet: &[u8], other: &[u8]) {
    let mut out = [0u8; 712];
    match mover::move_sheet(sheet, &mut out) {
        Err(rejection) => print_refused(rt, rejection),
        Ok(length) => {
            let end = usize::from(length);
            print(rt, " moved");
            print_number(rt, end);
            let word = if &out[..end] == other {
                " same"
            } else {
                " different"
            };
            print(rt, word);
        }
    }
}

// Card X: the checker, the mover both ways, and core 0 with its tasks released, the lowest by priority first.
fn card_x(rt: &impl Print) {
    let sheet = grouped(1, 4, 0, 2);
    let other = ungrouped();
    check_card(rt, "X", &sheet);
    print(rt, "X");
    print_moved(rt, &sheet, &other);
    print_moved(rt, &other, &sheet);
    print(rt, "\nX");
    let core = after(rt, dispatcher::start_sheet(&sheet, 0));
    let core = after(rt, core.release(4));
    let core = after(rt, core.release(1));
    let core = after(rt, core.release(3));
    ticked(rt, core, 5);
    print(rt, "\n");
}

// A start of card AB, task 1 with its first tick, and a release of task 0 inside its stroke.
fn inside_stroke(rt: &impl Print, sheet: &[u8]) -> Core {
    print(rt, "AB");
    let core = after(rt, dispatcher::start_sheet(sheet, 0));
    let core = after(rt, core.release(1));
    let core = ticked(rt, core, 1);
    after(rt, core.release(0))
}

// The runs of card AB: a stroke that delays task 0, a finish that ends it, and one that leaves it; then the mover.
fn runs_ab(rt: &impl Print, sheet: &[u8]) {
    let core = ticked(rt, inside_stroke(rt, sheet), 2);
    let core = after(rt, core.release(0));
    ticked(rt, core, 3);
    print(rt, "\n");
    let core = inside_stroke(rt, sheet);
    ticked(rt, after(rt, core.finish(1)), 2);
    print(rt, "\n");
    let core = inside_stroke(rt, sheet);
    ticked(rt, after(rt, core.finish(0)), 3);
    print(rt, "\nAB");
    print_moved(rt, sheet, sheet);
    print(rt, "\n");
}

fn strokes_cards(rt: &impl Print) {
    check_card(rt, "AA", &stroked(1, 1));
    check_card(rt, "AA", &stroked(1, 3));
    check_card(rt, "AB", &stroked(1, 2));
    runs_ab(rt, &stroked(1, 2));
    check_card(rt, "AC", &stroked(1, 0));
    check_card(rt, "AC", &stroked(1, 4));
    check_card(rt, "AC", &stroked(2, 4));
    check_card(rt, "AE", &stroked_three(3, 2));
    check_card(rt, "AE", &stroked_three(2, 3));
    check_card(rt, "AE", &stroked_three(4, 2));
    check_card(rt, "AE", &stroked_three(2, 4));
}

// The listing of a sheet.
fn print_listing(rt: &impl Print, sheet: &[u8]) {
    let mut text = [0u8; 8192];
    if let Ok(length) = listing::list_sheet(sheet, &mut text) {
        let _ = rt.write_all(&text[..usize::from(length)]);
    }
}

fn main(rt: HostRuntime) {
    let mut out = [0u8; 712];
    check_cards(&rt);
    plan_card(&rt, "G", &jobs_g(), 1, 0, &mut out);
    plan_card(&rt, "H", &jobs_h(), 1, 0, &mut out);
    cards_i_to_k(&rt);
    card_l(&rt, &jobs_l());
    card_m(&rt);
    card_n(&rt, &jobs_n());
    check_card(&rt, "O", &unchained());
    check_card(&rt, "P", &nearly_full());
    check_card(&rt, "Q", &overfull());
    cards_r_to_t(&rt);
    margin_card(&rt, "V", &jobs_v());
    margin_card(&rt, "W", &jobs_w());
    card_x(&rt);
    check_card(&rt, "Y", &grouped(1, 4, 2, 2));
    check_card(&rt, "Y", &grouped(1, 4, 0, 3));
    check_card(&rt, "Y", &grouped(4, 1, 0, 2));
    strokes_cards(&rt);
    print_listing(&rt, &listed(6, 4));
    print_listing(&rt, &listed(7, 4));
    print_listing(&rt, &nearly_full());
    print_listing(&rt, &grouped(1, 4, 0, 2));
    print_listing(&rt, &stroked(1, 2));
}
