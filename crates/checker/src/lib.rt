// The checker: rules 1 to 14, 23 and 25 (docs/SHEET.md, sections 4, 12 and 14) over any bytes.
#![tactic(auto)]

mod early;
mod faults;
mod fits;
mod frame;
mod rows;

ghost use Rattle.std.specs.Prelude.{◌≡◌, drop};
ghost use Rattle.sheet.specs.Table.{scan, refusal_of};
ghost use Rattle.sheet.specs.Records.{task_count, core_count};
ghost use Rattle.sheet.specs.Views.{is_grouped, is_stroked};
ghost use Rattle.checker.specs.Accepted.{Framed};
ghost use Rattle.checker.specs.Rules.{part_rows, rules};
ghost use Rattle.checker.specs.Verdict.{verdict, outcome_of};

use sheet::{Records, Rejection};

// The counts of a sheet.
#[derive(Clone, Copy, Debug, PartialEq, Eq)]
pub struct Counts {
    pub tasks: u8,
    pub cores: u8,
}

// Rules 7 to 14, 23 and 25.
fn record_rules(sheet: &[u8]) -> Result<(), Rejection>
    requires { Framed sheet.now }
    ensures { refusal_of result ≡ scan (part_rows (is_grouped sheet.now) (is_stroked sheet.now) (task_count sheet.now) (core_count sheet.now) (drop 8 sheet.now)) }
{
    let n = sheet::byte(sheet, 5);
    let c = sheet::byte(sheet, 6);
    let grouped = sheet::is_grouped(sheet);
    let tasks = &sheet[8..];
    let cores = &tasks[10 * usize::from(n)..];
    let on = views::cores_of(grouped, tasks, cores, n, c);
    let r = Records {
        stroked: sheet::is_stroked(sheet),
        tasks,
        cores,
        on: &on,
        n,
        c,
    };
    let misordered = grouped && views::is_misordered(tasks, cores, &on, n, c);
    early::early_rules(&r, misordered)?;
    fits::fit_rules(grouped, &r)
}

// Rules 1 to 14, 23 and 25.
fn all_rules(sheet: &[u8]) -> Result<(), Rejection>
    ensures { refusal_of result ≡ scan (rules sheet.now) }
{
    frame::framing(sheet)?;
    frame::spare_rules(sheet)?;
    record_rules(sheet)
}

// Checks a sheet: any bytes get the answer of docs/SHEET.md, sections 4, 12 and 14.
pub fn check(sheet: &[u8]) -> Result<Counts, Rejection>
    ensures { outcome_of result ≡ verdict sheet.now }
{
    all_rules(sheet)?;
    Ok(Counts {
        tasks: sheet::byte(sheet, 5),
        cores: sheet::byte(sheet, 6),
    })
}
