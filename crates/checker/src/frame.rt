// Rules 1 to 6: the form of a sheet.
ghost use Rattle.std.specs.Prelude.{◌≡◌, ◌+◌, ◌*◌, ◌≤◌, ◌<◌, length, drop, [], ◌∷◌};
ghost use Rattle.sheet.specs.Table.{◌at◌, scan, refusal_of};
ghost use Rattle.sheet.specs.Records.{task_count, core_count};
ghost use Rattle.sheet.specs.Views.{is_grouped, is_stroked};
ghost use Rattle.fit.specs.Lists.{find};
ghost use Rattle.checker.specs.Tests.{is_marked, bad_version, task_spares, core_spares, is_set};
ghost use Rattle.checker.specs.Rules.{frame_rows, spare_rows, offset};

use crate::rows::refuse_if;
use sheet::{Refusal, Rejection};

// Rules 1 to 5.

// Whether a sheet begins with the letters T S H.
fn is_marked(sheet: &[u8]) -> bool
    ensures { result ≡ is_marked sheet.now }
{
    sheet.starts_with(b"TSH")
}

fn is_other_version(sheet: &[u8]) -> bool
    ensures { result ≡ bad_version sheet.now }
{
    !matches!(sheet::read_word(sheet, 3), 1..=3)
}

pub(crate) fn framing(sheet: &[u8]) -> Result<(), Rejection>
    ensures { refusal_of result ≡ scan (frame_rows sheet.now) }
{
    let n = sheet::byte(sheet, 5);
    let c = sheet::byte(sheet, 6);
    let length = 8 + 10 * usize::from(n) + 8 * usize::from(c);
    refuse_if(sheet.len() < 8, Refusal::Stub)?;
    refuse_if(!is_marked(sheet), Refusal::Mark)?;
    refuse_if(is_other_version(sheet), Refusal::Version)?;
    refuse_if((64 < n) | (8 < c), Refusal::Count)?;
    refuse_if(sheet.len() != length, Refusal::Length)
}

// Rule 6.

// A spare byte of the part from byte 8 on.
fn spare(records: &[u8], x: usize) -> Result<(), Rejection>
    requires { x < 65528 }
    ensures { refusal_of result ≡ scan (6 at offset (find (is_set records.now) (x ∷ [])) ∷ []) }
{
    if sheet::byte(records, x) != 0 {
        return Err(Refusal::Spare.at(8 + x as u16));
    }
    Ok(())
}

// Byte 5 of each task record, in version 3 none. `records` is the sheet's part from byte 8.
fn task_spares(records: &[u8], n: u8, stroked: bool) -> Result<(), Rejection>
    ensures { refusal_of result ≡ scan (6 at offset (find (is_set records.now) (task_spares stroked 0 n)) ∷ []) }
{
    if stroked {
        return Ok(());
    }
    for i in 0..n {
        spare(records, 10 * usize::from(i) + 5)?;
    }
    Ok(())
}

// Bytes 2 and 3 of each core record, in version 2 byte 3 alone. `records` is the sheet's part from byte 8.
fn core_spares(records: &[u8], n: u8, c: u8, grouped: bool) -> Result<(), Rejection>
    ensures { refusal_of result ≡ scan (6 at offset (find (is_set records.now) (core_spares grouped (10 * n) c)) ∷ []) }
{
    for k in 0..c {
        let at = 10 * usize::from(n) + 8 * usize::from(k);
        if !grouped {
            spare(records, at + 2)?;
        }
        spare(records, at + 3)?;
    }
    Ok(())
}

pub(crate) fn spare_rules(sheet: &[u8]) -> Result<(), Rejection>
    requires { 8 ≤ length sheet.now }
    ensures { refusal_of result ≡ scan (spare_rows (is_grouped sheet.now) (is_stroked sheet.now) (task_count sheet.now) (core_count sheet.now) sheet.now (drop 8 sheet.now)) }
{
    if sheet::byte(sheet, 7) != 0 {
        return Err(Refusal::Spare.at(7));
    }
    let records = &sheet[8..];
    let n = sheet::byte(sheet, 5);
    let c = sheet::byte(sheet, 6);
    task_spares(records, n, sheet::is_stroked(sheet))?;
    core_spares(records, n, c, sheet::is_grouped(sheet))
}
