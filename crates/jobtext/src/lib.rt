// The text form of a job list: a period and a budget a line. specs/Text.antt says what is read and what is wrong.
#![tactic(auto)]

ghost use Rattle.std.specs.Prelude.{◌≡◌, ◌++◌, ◌+◌, ◌*◌, ◌≤◌, ◌<◌, length, drop, flat_map, IfOk, OnOk, IfErr};
ghost use Rattle.jobtext.specs.Text.{empty_line, longer, begun, digit, in_line, start_state, line_end, step, run, finish, room_in, stopped_at, bytes_of, read_of, holding, line_of, count, Ends};

use arrayvec::ArrayVec;
use std::fmt;

// How many jobs a text can have.
const MAX_JOBS: usize = 64;

// What is wrong with a line: it is not two numbers, one of the two is above 65,535, or there is no room for its job.
#[derive(Clone, Copy, Debug, PartialEq, Eq)]
pub enum Fault {
    NoJob,
    Large,
    Full,
}

// The first line that is wrong, counted from 1.
#[derive(Clone, Copy, Debug, PartialEq, Eq)]
pub struct WrongLine {
    pub line: u64,
    pub fault: Fault,
}

impl fmt::Display for WrongLine {
    fn fmt<W: fmt::Write>(&self, f: &mut fmt::Formatter<W>) -> fmt::Result {
        let line = self.line;
        match self.fault {
            Fault::NoJob => {
                write!(
                    f,
                    "line {line} is not a job: a line has a period and a budget"
                )
            }
            Fault::Large => write!(f, "line {line} has a number above 65535"),
            Fault::Full => write!(f, "line {line}: more than 64 jobs"),
        }
    }
}

// The numbers of a line, or that it cannot be a job.
#[derive(Clone, Copy)]
enum Numbers {
    Nothing,
    One,
    Two,
    Wrong,
}

// The line being read: whether a number or a comment is being read, whether a number was above 65,535, and the last two numbers, at most
// 65,535 each.
#[derive(Clone, Copy)]
struct Line {
    numbers: Numbers,
    inside: bool,
    comment: bool,
    large: bool,
    first: u16,
    second: u16,
}

impl Line {
    fn empty() -> Line
        ensures { result ≡ empty_line }
    {
        Line {
            numbers: Numbers::Nothing,
            inside: false,
            comment: false,
            large: false,
            first: 0,
            second: 0,
        }
    }

    // One digit more in a number.
    fn extend(self, digit: u8) -> Line
        ensures { result ≡ longer self digit }
    {
        let number = 10 * u32::from(self.second) + u32::from(digit);
        Line {
            inside: true,
            large: self.large | (65535 < number),
            second: number.min(65535) as u16,
            ..self
        }
    }

    // The first digit of a number. A third number is wrong.
    fn begin(self, digit: u8) -> Line
        ensures { result ≡ begun self digit }
    {
        let numbers = match self.numbers {
            Numbers::Nothing => Numbers::One,
            Numbers::One => Numbers::Two,
            Numbers::Two | Numbers::Wrong => {
                return Line {
                    numbers: Numbers::Wrong,
                    ..self
                };
            }
        };
        Line {
            numbers,
            inside: true,
            first: self.second,
            second: u16::from(digit),
            ..self
        }
    }

    fn read_digit(self, value: u8) -> Line
        ensures { result ≡ digit self value }
    {
        if self.inside {
            self.extend(value)
        } else {
            self.begin(value)
        }
    }

    // A byte that is no line feed. A '#' begins a comment.
    #[tactic(auto, unfolding(crate::specs::Text::in_line))]
    fn read_byte(self, byte: u8) -> Line
        ensures { result ≡ in_line self byte }
    {
        if self.comment {
            return self;
        }
        match byte {
            b'0'..=b'9' => self.read_digit(byte - b'0'),
            b' ' | b'\t' | b'\r' => Line {
                inside: false,
                ..self
            },
            b'#' => Line {
                inside: false,
                comment: true,
                ..self
            },
            _ => Line {
                numbers: Numbers::Wrong,
                ..self
            },
        }
    }
}

#[derive(Clone, Copy, Default)]
struct Job {
    period: u16,
    budget: u16,
}

impl Job {
    fn bytes(self) -> [u8; 4]
        ensures { result ≡ bytes_of self }
    {
        let [period_low, period_high] = self.period.to_le_bytes();
        let [budget_low, budget_high] = self.budget.to_le_bytes();
        [period_low, period_high, budget_low, budget_high]
    }
}

// The line's number, its contents so far, and the jobs of the lines before it.
#[derive(Drop)]
struct State {
    number: u64,
    line: Line,
    jobs: ArrayVec<Job, MAX_JOBS>,
}

impl State {
    fn start() -> State
        ensures { result ≡ start_state }
    {
        State {
            number: 1,
            line: Line::empty(),
            jobs: ArrayVec::new(),
        }
    }

    // What is wrong with a line that is no job, or one that cannot be added.
    fn wrong_line(&self, room: usize) -> WrongLine
        ensures { result ≡ stopped_at room self.now }
    {
        let fault = match self.line.numbers {
            Numbers::Two if self.jobs.len() < room => Fault::Large,
            Numbers::Two => Fault::Full,
            _ => Fault::NoJob,
        };
        WrongLine {
            line: self.number,
            fault,
        }
    }

    // The end of a line: nothing, one job more, or wrong.
    fn end_line(&mut self, room: usize) -> Result<(), WrongLine>
        requires { (room ≤ 64) × (self.old.number < 18446744073709551615) }
        ensures ends { Ends result self.new (line_end room self.old) }
        ensures next { OnOk result (self.new.number ≤ self.old.number + 1) }
        ensures counted { count self.old ≤ room → OnOk result (count self.new ≤ room) }
    {
        match self.line.numbers {
            Numbers::Nothing => {}
            Numbers::Two if self.jobs.len() < room && !self.line.large => {
                self.jobs.push(Job {
                    period: self.line.first,
                    budget: self.line.second,
                });
            }
            _ => return Err(self.wrong_line(room)),
        }
        self.number += 1;
        self.line = Line::empty();
        Ok(())
    }

    // One byte of the text.
    #[tactic(auto, unfolding(crate::specs::Text::step))]
    fn advance(&mut self, room: usize, byte: u8) -> Result<(), WrongLine>
        requires { (room ≤ 64) × (self.old.number < 18446744073709551615) }
        ensures ends { Ends result self.new (step room self.old byte) }
        ensures next { OnOk result (self.new.number ≤ self.old.number + 1) }
        ensures counted { count self.old ≤ room → OnOk result (count self.new ≤ room) }
    {
        if byte == b'\n' {
            return self.end_line(room);
        }
        self.line = self.line.read_byte(byte);
        Ok(())
    }
}

// The jobs of the whole text, whose end ends its last line.
fn read_all(text: &[u8], room: usize) -> Result<State, WrongLine>
    requires { room ≤ 64 }
    ensures read { result ≡ finish room text.now }
    ensures counted { IfOk result (λ s. count s ≤ room) }
{
    let mut state = State::start();
    for &byte in text {
        state.advance(room, byte)?;
    }
    state.end_line(room)?;
    Ok(state)
}

// Puts the jobs at the front of the output.
fn write_jobs(jobs: &[Job], out: &mut [u8])
    requires { 4 * length jobs.now ≤ length out.old }
    ensures { out.new ≡ flat_map bytes_of jobs.now ++ drop (4 * length jobs.now) out.old }
{
    for (i, job) in jobs.iter().enumerate() {
        out[4 * i..4 * i + 4].copy_from_slice(&job.bytes());
    }
}

// Reads a job list from a text: puts its jobs at the front of the output, four bytes each, and returns how many bytes they are. Where a line is
// wrong, no byte is written.
pub fn read_jobs(text: &[u8], out: &mut [u8]) -> Result<u16, WrongLine>
    ensures read { result ≡ read_of (finish (room_in out.old) text.now) }
    ensures written { out.new ≡ holding (finish (room_in out.old) text.now) out.old }
    ensures inside { IfOk result (λ n. n ≤ length out.new) }
{
    let room = MAX_JOBS.min(out.len() / 4);
    let state = read_all(text, room)?;
    write_jobs(&state.jobs, out);
    Ok(4 * state.jobs.len() as u16)
}

// The line of a job of the text, lines counted from 1 and jobs from 0. Where it has no such job, the line at which the reading ends.
pub fn line_of(text: &[u8], job: usize) -> u64
    ensures { result ≡ line_of job text.now }
{
    let mut state = State::start();
    for &byte in text {
        let number = state.number;
        match state.advance(MAX_JOBS, byte) {
            Err(wrong) => return wrong.line,
            Ok(()) if job < state.jobs.len() => return number,
            Ok(()) => {}
        }
    }
    state.number
}
