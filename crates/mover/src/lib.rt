// The mover: the sheet of the other version, 1 or 2, written into a lent buffer (docs/SHEET.md, section 12).
// `tasks` is the sheet's part from byte 8, `cores` its part after the last task.
#![tactic(auto)]

ghost use Rattle.std.specs.Prelude.{◌≡◌, true, false, ◌+◌, ◌*◌, ◌≤◌, min, length};
ghost use Rattle.sheet.specs.Views.{is_grouped};
ghost use Rattle.fit.specs.Lists.{numbers, joined, over, at};
ghost use Rattle.fit.specs.Answers.{Column};
ghost use Rattle.mover.specs.Moved.{bytes, header_with, task_with, core_with, Layout, layout1, layout2, laid_out, moved};
ghost use Rattle.mover.specs.Answers.{move_verdict, move_answer, move_output, answer_of};
ghost use Rattle.mover.specs.Meaning.{Moving};
ghost use Rattle.mover.specs.Steps.{task_bytes, core_bytes, Sized, unmovable, found, grouped_by, Arranged};

use checker::Counts;
use sheet::{Refusal, Rejection};

// How a sheet is laid out anew: for each new position the old one and byte 4, for each core byte 2.
#[derive(Clone, Copy)]
struct Arrangement {
    version: u8,
    from: [u8; 64],
    byte4: [u8; 64],
    counts: [u8; 8],
}

// Each writer puts its bytes at the front of the part that it is lent.

// The n bytes of a slice from offset a on; past its end there are zeros.
fn copy(part: &mut [u8], from: &[u8], a: usize, n: usize)
    requires { (n ≤ length part.old) × (a ≤ 65536) }
    ensures { part.new ≡ over (bytes from.now a n) part.old }
{
    if let Some(source) = from.get(a..a + n) {
        part[..n].copy_from_slice(source);
        return;
    }
    for i in 0..n {
        part[i] = sheet::byte(from, a + i);
    }
}

fn put_header(part: &mut [u8], sheet: &[u8], version: u8)
    requires { 8 ≤ length part.old }
    ensures { part.new ≡ over (header_with sheet.now version) part.old }
{
    copy(part, sheet, 0, 8);
    part[3] = version;
    part[4] = 0;
}

// The task record of position j with another byte 4.
fn put_task(part: &mut [u8], tasks: &[u8], j: u8, x: u8)
    requires { 10 ≤ length part.old }
    ensures { part.new ≡ over (task_with tasks.now j x) part.old }
{
    copy(part, tasks, sheet::offset(10, j), 10);
    part[4] = x;
}

// The record of core k with another byte 2.
fn put_core(part: &mut [u8], cores: &[u8], k: u8, x: u8)
    requires { 8 ≤ length part.old }
    ensures { part.new ≡ over (core_with cores.now k x) part.old }
{
    copy(part, cores, sheet::offset(8, k), 8);
    part[2] = x;
}

// The task records. `part` is the output from byte 8.
fn put_tasks(part: &mut [u8], tasks: &[u8], n: u8, from: [u8; 64], byte4: [u8; 64])
    requires { (n ≤ 64) × (10 * n ≤ length part.old) }
    ensures { part.new ≡ over (joined (task_bytes tasks.now from byte4) (numbers 0 n)) part.old }
{
    for i in 0..usize::from(n) {
        put_task(&mut part[10 * i..], tasks, from[i], byte4[i]);
    }
}

// The core records, into the part after the last task.
fn put_cores(part: &mut [u8], cores: &[u8], c: u8, counts: [u8; 8])
    requires { (c ≤ 8) × (8 * c ≤ length part.old) }
    ensures { part.new ≡ over (joined (core_bytes cores.now counts) (numbers 0 c)) part.old }
{
    for k in 0..c {
        let at = sheet::offset(8, k);
        put_core(&mut part[at..], cores, k, counts[usize::from(k)]);
    }
}

// Writes a sheet of n tasks and c cores as it is arranged, and returns its length.
fn write_sheet(out: &mut [u8], sheet: &[u8], n: u8, c: u8, arrangement: Arrangement) -> u16
    requires { (712 ≤ length out.old) × Sized sheet.now n c }
    ensures { (y : Layout) → Arranged y n c arrangement → (result ≡ length (laid_out y sheet.now)) × (out.new ≡ over (laid_out y sheet.now) out.old) }
{
    let Arrangement {
        version,
        from,
        byte4,
        counts,
    } = arrangement;
    let at = 8 + 10 * usize::from(n);
    put_header(out, sheet, version);
    put_tasks(&mut out[8..], &sheet[8..], n, from, byte4);
    put_cores(&mut out[at..], &sheet[at..], c, counts);
    (at + 8 * usize::from(c)) as u16
}

// What stands in a list at each of the first n places of another, then zeros.
fn look_up(list: &[u8], places: &[u8], n: u8) -> [u8; 64]
    requires { n ≤ 64 }
    ensures { Column (found list.now places.now) n result }
{
    let mut column = [0; 64];
    for i in 0..usize::from(n) {
        column[i] = sheet::byte(list, usize::from(sheet::byte(places, i)));
    }
    column
}

// Tasks 0 to n - 1 with these periods on the cores below c, core by core and in priority order on each; of more than 64 the first 64.
fn core_by_core(periods: &[u16], on: &[u8], n: u8, c: u8) -> Arrangement
    requires { c ≤ 8 }
    ensures { Arranged (grouped_by (at periods.now) (at on.now) (min n 64) c) n c result }
{
    let list = order::by_core(periods, on, n);
    let mut from = [0; 64];
    let mut counts = [0; 8];
    let mut at = 0;
    for k in 0..c {
        let end = order::end_on(&list, on, n, at, k);
        counts[usize::from(k)] = (end - at) as u8;
        at = end;
    }
    from[..at].copy_from_slice(&list[..at]);
    Arrangement {
        version: 2,
        from,
        byte4: from,
        counts,
    }
}

// A version 2 sheet laid out by task number, which is version 1.
fn by_number(sheet: &[u8], n: u8, c: u8) -> Arrangement
    requires { Sized sheet.now n c × (is_grouped sheet.now ≡ true) }
    ensures { Arranged (layout1 sheet.now) n c result }
{
    let tasks = &sheet[8..];
    let at = 10 * usize::from(n);
    let cores = &tasks[at..];
    let from = views::positions_of(true, tasks, n);
    let on = views::cores_of(true, tasks, cores, n, c);
    let byte4 = look_up(&on, &from, n);
    Arrangement {
        version: 1,
        from,
        byte4,
        counts: [0; 8],
    }
}

// A version 1 sheet laid out core by core, which is version 2.
fn by_core(sheet: &[u8], n: u8, c: u8) -> Arrangement
    requires { Sized sheet.now n c × (is_grouped sheet.now ≡ false) }
    ensures { Arranged (layout2 sheet.now) n c result }
{
    let tasks = &sheet[8..];
    let at = 10 * usize::from(n);
    let on = views::cores_of(false, tasks, &tasks[at..], n, c);
    let periods = fit::periods_of(tasks, 10, n);
    core_by_core(&periods, &on, n, c)
}

// Writes the sheet of the other version, and returns its length.
fn write_other(out: &mut [u8], sheet: &[u8], n: u8, c: u8) -> u16
    requires { (712 ≤ length out.old) × Sized sheet.now n c }
    ensures { (result ≡ length (moved sheet.now)) × (out.new ≡ over (moved sheet.now) out.old) }
{
    if sheet::is_grouped(sheet) {
        let arrangement = by_number(sheet, n, c);
        return write_sheet(out, sheet, n, c, arrangement);
    }
    let arrangement = by_core(sheet, n, c);
    write_sheet(out, sheet, n, c, arrangement)
}

// Whether a sheet has its mark and is of version 3, which has no other version.
#[tactic(auto, using(checker::proofs::Mark::marked), unfolding(crate::specs::Steps::unmovable))]
fn is_unmovable(sheet: &[u8]) -> bool
    ensures { result ≡ unmovable sheet.now }
{
    sheet.len() >= 8 && sheet.starts_with(b"TSH") && sheet::is_stroked(sheet)
}

// Writes a sheet of version 1 as one of version 2, and back, into a lent buffer of at least 712 bytes, and returns its length. The bytes past
// it stay as they were.
pub fn move_sheet(sheet: &[u8], out: &mut [u8]) -> Result<u16, Rejection>
    ensures result_value { answer_of result ≡ move_answer (move_verdict sheet.now) sheet.now (length out.old) }
    ensures out_after { out.new ≡ move_output (move_verdict sheet.now) sheet.now out.old }
    ensures moves { Moving sheet.now result out.new }
{
    if is_unmovable(sheet) {
        return Err(Refusal::Version.at(0));
    }
    let Counts { tasks, cores } = checker::check(sheet)?;
    if out.len() < 712 {
        return Err(Refusal::Tight.at(0));
    }
    Ok(write_other(out, sheet, tasks, cores))
}
