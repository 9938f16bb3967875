// The refusals, little-endian numbers, and the fields of task and core records.
// Every reader is total: what stands past the end reads as 0.
#![tactic(auto)]

ghost use Rattle.std.specs.Prelude.{◌≡◌, ◌+◌, ◌*◌, ◌≤◌, get_or};
ghost use Rattle.sheet.specs.Refusals.{number_of};
ghost use Rattle.sheet.specs.Ranges.{out_of};
ghost use Rattle.sheet.specs.Numbers.{word, long};
ghost use Rattle.sheet.specs.Records.{period_at, budget_at, core_at, number_at, factor_at, pivot_at, count_at, divisor_at};
ghost use Rattle.sheet.specs.Views.{is_grouped, is_stroked, stroke_of_position};

use std::fmt;

// The refusals by their words, in the order of their numbers (docs/SHEET.md, section 9).
#[derive(Clone, Copy, Debug, PartialEq, Eq)]
pub enum Refusal {
    Stub = 1,
    Mark = 2,
    Version = 3,
    Count = 4,
    Length = 5,
    Spare = 6,
    Period = 7,
    Budget = 8,
    Core = 9,
    Bare = 10,
    Factor = 11,
    Stretch = 12,
    Chain = 13,
    Overload = 14,
    NoFit = 15,
    Tight = 16,
    Unlisted = 17,
    Early = 18,
    Late = 19,
    Quiet = 20,
    Foreign = 21,
    Start = 22,
    Order = 23,
    Row = 24,
    Stroke = 25,
}

// Why something is refused, and at which place: a task, 64 plus a core, an offset, or 0 (docs/SHEET.md, section 9).
#[derive(Clone, Copy, Debug, PartialEq, Eq)]
pub struct Rejection<P = u16> {
    pub word: Refusal,
    pub place: P,
}

impl Refusal {
    // The refusal with its place.
    pub fn at<P>(self, place: P) -> Rejection<P>
        ensures { result ≡ record { word = self; place = place } }
    {
        Rejection { word: self, place }
    }
}

impl<P: fmt::Display> fmt::Display for Rejection<P> {
    fn fmt<W: fmt::Write>(&self, f: &mut fmt::Formatter<W>) -> fmt::Result {
        let number = u8::from(self.word);
        write!(f, "refused {number} place {}", self.place)
    }
}

// The number of a refusal.
impl From<Refusal> for u8 {
    ghost from_gives = { λ word n. n ≡ number_of word };

    fn from(word: Refusal) -> u8 {
        word as u8
    }
}

// Whether a number is not in the range 1 to `max`.
#[tactic(auto, unfolding(crate::specs::Ranges::out_of))]
pub fn out_of(max: u32, x: u32) -> bool
    ensures { result ≡ out_of max x }
{
    !(1..=max).contains(&x)
}

// The byte at a place.
pub fn byte(part: &[u8], at: usize) -> u8
    ensures { result ≡ get_or part.now at 0 }
{
    part.get(at).copied().unwrap_or(0)
}

// The number of two bytes at a place, low byte first.
#[tactic(auto, using(crate::proofs::Past::past_word, crate::proofs::Past::word_after, crate::proofs::Past::word_last))]
pub fn read_word(part: &[u8], at: usize) -> u16
    ensures { result ≡ word part.now at }
{
    if part.len() <= at {
        return 0;
    }
    match &part[at..] {
        [low, high, ..] => u16::from_le_bytes([*low, *high]),
        rest => u16::from(byte(rest, 0)),
    }
}

// The number of four bytes at a place, low byte first.
#[tactic(auto, using(crate::proofs::Past::past_long, crate::proofs::Past::long_after, crate::proofs::Past::long_words))]
pub fn read_long(part: &[u8], at: usize) -> u32
    ensures { result ≡ long part.now at }
{
    if part.len() <= at {
        return 0;
    }
    match &part[at..] {
        [a, b, c, d, ..] => u32::from_le_bytes([*a, *b, *c, *d]),
        rest => u32::from(read_word(rest, 0)) + 65536 * u32::from(read_word(rest, 2)),
    }
}

// Whether a sheet is of version 2, whose task records stand core by core.
pub fn is_grouped(sheet: &[u8]) -> bool
    ensures { result ≡ is_grouped sheet.now }
{
    read_word(sheet, 3) == 2
}

// Whether a sheet is of version 3, whose tasks have stroke lengths.
pub fn is_stroked(sheet: &[u8]) -> bool
    ensures { result ≡ is_stroked sheet.now }
{
    read_word(sheet, 3) == 3
}

// The place of record i among records of this size.
pub fn offset(size: u8, i: u8) -> usize
    ensures { (result ≡ size * i) × (result ≤ 65025) }
{
    usize::from(size) * usize::from(i)
}

// The records of a sheet, by position: the task records, the core records and the core of each position, of n tasks and c cores; `stroked`
// says that byte 5 of a task record is a stroke length. `figures_by` of specs/Views.antt says what figures they are.
#[derive(Clone, Copy)]
pub struct Records<'a> {
    pub stroked: bool,
    pub tasks: &'a [u8],
    pub cores: &'a [u8],
    pub on: &'a [u8],
    pub n: u8,
    pub c: u8,
}

// The fields of task i. `tasks` is the sheet's part from byte 8.

pub fn period(tasks: &[u8], i: u8) -> u16
    ensures { result ≡ period_at tasks.now i }
{
    read_word(tasks, 10 * usize::from(i))
}

pub fn budget(tasks: &[u8], i: u8) -> u16
    ensures { result ≡ budget_at tasks.now i }
{
    read_word(tasks, 10 * usize::from(i) + 2)
}

pub fn core(tasks: &[u8], i: u8) -> u8
    ensures { result ≡ core_at tasks.now i }
{
    byte(tasks, 10 * usize::from(i) + 4)
}

// In version 2 the same byte is the task's old number.
pub fn old_number(tasks: &[u8], j: u8) -> u8
    ensures { result ≡ number_at tasks.now j }
{
    byte(tasks, 10 * usize::from(j) + 4)
}

// The stroke length of position j: byte 5 in version 3, else 1.
pub fn stroke(stroked: bool, tasks: &[u8], j: u8) -> u8
    ensures { result ≡ stroke_of_position stroked tasks.now j }
{
    if stroked {
        byte(tasks, 10 * usize::from(j) + 5)
    } else {
        1
    }
}

pub fn factor(tasks: &[u8], i: u8) -> u32
    ensures { result ≡ factor_at tasks.now i }
{
    read_long(tasks, 10 * usize::from(i) + 6)
}

// The fields of core k. `cores` is the sheet's part after the last task.

pub fn pivot(cores: &[u8], k: u8) -> u16
    ensures { result ≡ pivot_at cores.now k }
{
    read_word(cores, 8 * usize::from(k))
}

// In version 2 the core's task count.
pub fn count(cores: &[u8], k: u8) -> u8
    ensures { result ≡ count_at cores.now k }
{
    byte(cores, 8 * usize::from(k) + 2)
}

pub fn divisor(cores: &[u8], k: u8) -> u32
    ensures { result ≡ divisor_at cores.now k }
{
    read_long(cores, 8 * usize::from(k) + 4)
}
