// Whether a rule is broken at one task or one core.
#![tactic(auto, unfolding(sheet::specs::Ranges::bad_period, sheet::specs::Ranges::bad_budget, sheet::specs::Ranges::bad_stroke, crate::specs::Tests::bad_core, crate::specs::Tests::bad_factor, crate::specs::Tests::bad_pivot, crate::specs::Tests::stretched_at))]

ghost use Rattle.std.specs.Prelude.{◌≡◌};
ghost use Rattle.sheet.specs.Ranges.{bad_period, bad_budget, bad_stroke};
ghost use Rattle.sheet.specs.Views.{figures_by};
ghost use Rattle.checker.specs.Tests.{bad_core, bad_factor, bad_pivot, stretched_at};

use sheet::Records;

pub(crate) fn is_bad_period(r: &Records, i: u8) -> bool
    ensures { result ≡ bad_period (figures_by r.now).period i }
{
    sheet::out_of(60_000, u32::from(sheet::period(r.tasks, i)))
}

pub(crate) fn is_bad_budget(r: &Records, i: u8) -> bool
    ensures { result ≡ bad_budget (figures_by r.now).period (figures_by r.now).budget i }
{
    let period = u32::from(sheet::period(r.tasks, i));
    sheet::out_of(period, u32::from(sheet::budget(r.tasks, i)))
}

pub(crate) fn is_bad_stroke(r: &Records, i: u8) -> bool
    ensures { result ≡ bad_stroke (figures_by r.now).budget (figures_by r.now).stroke i }
{
    let budget = u32::from(sheet::budget(r.tasks, i));
    sheet::out_of(budget, u32::from(sheet::stroke(r.stroked, r.tasks, i)))
}

pub(crate) fn is_bad_core(r: &Records, i: u8) -> bool
    ensures { result ≡ bad_core r.now.c (figures_by r.now).core i }
{
    r.c <= sheet::byte(r.on, usize::from(i))
}

pub(crate) fn is_bad_factor(r: &Records, i: u8) -> bool
    ensures { result ≡ bad_factor (figures_by r.now).factor i }
{
    sheet::out_of(120_000, sheet::factor(r.tasks, i))
}

pub(crate) fn is_bad_pivot(r: &Records, k: u8) -> bool
    ensures { result ≡ bad_pivot (figures_by r.now).pivot (figures_by r.now).divisor k }
{
    let pivot = u32::from(sheet::pivot(r.cores, k));
    sheet::out_of(60_000, pivot) | sheet::out_of(120_000, sheet::divisor(r.cores, k))
}

#[inline(always)]
pub(crate) fn is_stretched(r: &Records, i: u8) -> bool
    ensures { result ≡ stretched_at (figures_by r.now) i }
{
    let k = sheet::byte(r.on, usize::from(i));
    let pivot = sheet::pivot(r.cores, k);
    let divisor = sheet::divisor(r.cores, k);
    let period = sheet::period(r.tasks, i);
    fit::is_stretched(pivot, divisor, period, sheet::factor(r.tasks, i))
}
