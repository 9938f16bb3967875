// The listing of a sheet: the text of any bytes, written into a lent buffer (docs/SHEET.md, section 8).
#![tactic(auto)]

ghost use Rattle.std.specs.Prelude.{◌≡◌, ℕ, ◌+◌, ◌*◌, ◌<◌, ◌≤◌, min, length, IfOk};
ghost use Rattle.sheet.specs.Numbers.{word};
ghost use Rattle.sheet.specs.Records.{period_at};
ghost use Rattle.sheet.specs.Views.{renumbered, figures, figures_by};
ghost use Rattle.fit.specs.Lists.{numbers, at as column, joined};
ghost use Rattle.fit.specs.Answers.{Column};
ghost use Rattle.fit.specs.Fits.{within};
ghost use Rattle.fit.specs.Cores.{order_on};
ghost use Rattle.checker.specs.Accepted.{Fitting};
ghost use Rattle.checker.specs.Verdict.{verdict, accepted};
ghost use Rattle.listing.specs.Decimal.{decimal};
ghost use Rattle.listing.specs.Listing.{field, header_line, task_line, thousandths, load_of, core_line, sheet_text, refused_line};
ghost use Rattle.listing.specs.Steps.{Put, Capped};
ghost use Rattle.listing.specs.Answers.{listed, holding, answer_of};

use checker::Counts;
use sheet::{Records, Refusal, Rejection};

// Puts a text into the output at a place and returns the place after it.
fn put(out: &mut [u8], at: usize, text: &[u8]) -> usize
    requires { at + length text.now ≤ length out.old }
    ensures { Put out.old at text.now out.new result }
{
    let end = at + text.len();
    out[at..end].copy_from_slice(text);
    end
}

// `write!` promises its bytes only where it does not fail, and does not promise that it does not. Most numbers have one digit.
#[inline(never)]
fn put_number(out: &mut [u8], at: usize, x: u32) -> usize
    requires { at + length (decimal x) ≤ length out.old }
    ensures { Put out.old at (decimal x) out.new result }
{
    if x < 10 {
        out[at] = b'0' + x as u8;
        return at + 1;
    }
    let end = at + x.ilog10() as usize + 1;
    itoa::write_digits(u64::from(x), out, end);
    end
}

// A word with its space, a number, and the byte that ends the field: at most 8 bytes, 10 digits and 1 byte. Inlined, where the word is known:
// a copy from `name` into `out`, both lent, would need C's `memmove`.
#[inline(always)]
fn put_field(out: &mut [u8], at: usize, name: &[u8], x: u32, end: u8) -> usize
    requires { (length name.now ≤ 8) × (at + 19 ≤ length out.old) }
    ensures { Capped 19 out.old at (field name.now x end) out.new result }
{
    let next = put(out, at, name);
    let next = put_number(out, next, x);
    out[next] = end;
    next + 1
}

// The lines: that of a refusal has 2 fields, the first one of a sheet 3, a task's 6 and a core's 4.

#[tactic(auto, unfolding(crate::specs::Listing::refused_line))]
fn put_refused(out: &mut [u8], number: u8, place: u16) -> usize
    requires { 38 ≤ length out.old }
    ensures { Capped 38 out.old 0 (refused_line number place) out.new result }
{
    let next = put_field(out, 0, b"refused ", u32::from(number), b' ');
    put_field(out, next, b"place ", u32::from(place), b'\n')
}

#[tactic(auto, unfolding(crate::specs::Listing::header_line))]
fn put_header(out: &mut [u8], version: u16, n: u8, c: u8) -> usize
    requires { 57 ≤ length out.old }
    ensures { Capped 57 out.old 0 (header_line version n c) out.new result }
{
    let next = put_field(out, 0, b"TSH ", u32::from(version), b' ');
    let next = put_field(out, next, b"tasks ", u32::from(n), b' ');
    put_field(out, next, b"cores ", u32::from(c), b'\n')
}

// The whole part of q * m / d.
#[tactic(auto, unfolding(fit::specs::Fits::within))]
fn within_of(q: u16, m: u32, d: u32) -> u32
    requires { (0 < d) × (within q d m ≤ 60000) }
    ensures { result ≡ within q d m }
{
    (fit::product(q, m) / u64::from(d)) as u32
}

// The line of task i, whose record stands at position j.
fn put_task(out: &mut [u8], at: usize, r: &Records, i: u8, j: u8) -> usize
    requires { Fitting (figures_by r.now) × (j < r.now.n) × (at + 114 ≤ length out.old) }
    ensures { Capped 114 out.old at (task_line (renumbered (λ x. j) (figures_by r.now)) i) out.new result }
{
    let k = sheet::byte(r.on, usize::from(j));
    let period = sheet::period(r.tasks, j);
    let budget = sheet::budget(r.tasks, j);
    let factor = sheet::factor(r.tasks, j);
    let within = within_of(sheet::pivot(r.cores, k), factor, sheet::divisor(r.cores, k));
    let next = put_field(out, at, b"task ", u32::from(i), b' ');
    let next = put_field(out, next, b"core ", u32::from(k), b' ');
    let next = put_field(out, next, b"period ", u32::from(period), b' ');
    let next = put_field(out, next, b"budget ", u32::from(budget), b' ');
    let next = put_field(out, next, b"factor ", factor, b' ');
    put_field(out, next, b"within ", within, b'\n')
}

// A load in thousandths of a full one, rounded up.
#[tactic(auto, using(fit::proofs::Ceiling::div_ceil_is), unfolding(crate::specs::Listing::thousandths, fit::specs::Rounding::ceiling))]
fn in_thousandths(load: u64, full: u64) -> u32
    requires { (0 < full) × (load ≤ full) × (full ≤ 7_200_000_000) }
    ensures { result ≡ thousandths load full }
{
    (1000 * load).div_ceil(full) as u32
}

// The load of core k in thousandths. `list` is its order, whose factors are a chain.
fn load_of(r: &Records, list: &[u8], k: u8) -> u32
    requires { Fitting (figures_by r.now) × (list.now ≡ order_on (figures_by r.now) k) × (r.now.n ≤ 64) × (k < r.now.c) }
    ensures { result ≡ load_of (figures_by r.now) k }
{
    let Ok(last) = fit::chain_of(r.tasks, list) else {
        return 0;
    };
    let load = fit::load_of(r.tasks, list, sheet::divisor(r.cores, k), last);
    in_thousandths(load, fit::product(sheet::pivot(r.cores, k), last))
}

fn put_core(out: &mut [u8], at: usize, r: &Records, list: &[u8], k: u8) -> usize
    requires { Fitting (figures_by r.now) × (list.now ≡ order_on (figures_by r.now) k) × (r.now.n ≤ 64) × (k < r.now.c) × (at + 76 ≤ length out.old) }
    ensures { Capped 76 out.old at (core_line (figures_by r.now) k) out.new result }
{
    let load = load_of(r, list, k);
    let next = put_field(out, at, b"core ", u32::from(k), b' ');
    let next = put_field(
        out,
        next,
        b"pivot ",
        u32::from(sheet::pivot(r.cores, k)),
        b' ',
    );
    let next = put_field(out, next, b"divisor ", sheet::divisor(r.cores, k), b' ');
    put_field(out, next, b"load ", load, b'\n')
}

// The lines of the tasks by number; `positions` says where their records stand.
fn put_tasks(out: &mut [u8], from: usize, r: &Records, positions: &[u8]) -> usize
    requires { Fitting (figures_by r.now) × ((i : ℕ) → i < r.now.n → column positions.now i < r.now.n) × (from + 114 * r.now.n ≤ length out.old) }
    ensures { Capped (114 * r.now.n) out.old from (joined (task_line (renumbered (column positions.now) (figures_by r.now))) (numbers 0 r.now.n)) out.new result }
{
    let mut at = from;
    for i in 0..r.n {
        let j = sheet::byte(positions, usize::from(i));
        at = put_task(out, at, r, i, j);
    }
    at
}

fn put_cores(out: &mut [u8], from: usize, r: &Records, periods: &[u16]) -> usize
    requires { Column (period_at r.now.tasks.now) (min r.now.n 64) periods.now × Fitting (figures_by r.now) × (r.now.n ≤ 64) × (from + 76 * r.now.c ≤ length out.old) }
    ensures { Capped (76 * r.now.c) out.old from (joined (core_line (figures_by r.now)) (numbers 0 r.now.c)) out.new result }
{
    let list = order::by_core(periods, r.on, r.n);
    let mut at = from;
    let mut start = 0;
    for k in 0..r.c {
        let end = order::end_on(&list, r.on, r.n, start, k);
        at = put_core(out, at, r, &list[start..end], k);
        start = end;
    }
    at
}

// The text of an accepted sheet. Not inlined: its columns would stand on the stack below the checker.
#[inline(never)]
fn put_sheet(out: &mut [u8], sheet: &[u8], n: u8, c: u8) -> usize
    requires { (verdict sheet.now ≡ accepted n c) × (8192 ≤ length out.old) }
    ensures { Capped 8192 out.old 0 (sheet_text (word sheet.now 3) (figures sheet.now)) out.new result }
{
    let grouped = sheet::is_grouped(sheet);
    let tasks = &sheet[8..];
    let cores = &tasks[10 * usize::from(n)..];
    let on = views::cores_of(grouped, tasks, cores, n, c);
    let r = Records {
        stroked: sheet::is_stroked(sheet),
        tasks,
        cores,
        on: &on,
        n,
        c,
    };
    let positions = views::positions_of(grouped, tasks, n);
    let periods = fit::periods_of(tasks, 10, n);
    let at = put_header(out, sheet::read_word(sheet, 3), n, c);
    let at = put_tasks(out, at, &r, &positions);
    put_cores(out, at, &r, &periods)
}

// Lists a sheet: puts the text of any bytes at the front of an output of at least 8,192 bytes, which is enough for every text, and returns the
// length of the text.
pub fn list_sheet(sheet: &[u8], out: &mut [u8]) -> Result<u16, Rejection>
    ensures listed { (answer_of result ≡ listed sheet.now out.old) × (out.new ≡ holding sheet.now out.old) }
    ensures inside { IfOk result (λ n. n ≤ length out.new) }
{
    if out.len() < 8192 {
        return Err(Refusal::Tight.at(0));
    }
    let length = match checker::check(sheet) {
        Err(r) => put_refused(out, u8::from(r.word), r.place),
        Ok(Counts { tasks, cores }) => put_sheet(out, sheet, tasks, cores),
    };
    Ok(length as u16)
}
