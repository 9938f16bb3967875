// A job list as text on standard input, and what is said on standard error where it is wrong.
#![tactic(auto)]

ghost use Rattle.std.specs.Prelude.{◌≡◌, length};
ghost use Rattle.sheet.specs.Refusals.{number_of};
ghost use Rattle.jobinput.specs.Inputs.{Inside, Taken, line_named};

use sheet::{Refusal, Rejection};
use std::io::Input as Source;

// The bytes of a text and of its jobs, each at the front of its buffer.
#[derive(Clone, Copy, Debug, PartialEq, Eq)]
pub struct Lengths {
    pub text: usize,
    pub jobs: usize,
}

// The line of the job at the place of a refusal, if its place is a job.
#[tactic(auto, unfolding(crate::specs::Inputs::line_named))]
fn line_named(word: Refusal, place: u16, text: &[u8]) -> Option<u64>
    ensures { result ≡ line_named (number_of word) place text.now }
{
    match word {
        Refusal::Period | Refusal::Budget | Refusal::NoFit => {
            Some(jobtext::line_of(text, usize::from(place)))
        }
        _ => None,
    }
}

// The reason of a refusal, of a list that is empty or not. The text has at most 64 jobs, so the word Count is of the core limit.
fn reason(word: Refusal, empty: bool) -> &'static str {
    match word {
        Refusal::Count => ": the core limit is above 8",
        Refusal::Period => ": the period is not 1 to 60000",
        Refusal::Budget => ": the budget is not 1 to the period",
        Refusal::NoFit => ": no core takes this job",
        Refusal::Start if empty => ": the start of an empty list is not 0",
        Refusal::Start => ": the start is not below the number of jobs",
        _ => "",
    }
}

// Says why the list of a text, empty or not, is refused. Returns the line that it names, if it names one.
pub fn say_refused(rt: &impl Eprint, rejection: Rejection, text: &[u8], empty: bool) -> Option<u64>
    ensures { result ≡ line_named (number_of rejection.word) rejection.place text.now }
{
    let line = line_named(rejection.word, rejection.place, text);
    let reason = reason(rejection.word, empty);
    let _ = match line {
        Some(line) => eprintln!(rt; "{rejection} line {line}{reason}"),
        None => eprintln!(rt; "{rejection}{reason}"),
    };
    line
}

// The jobs of a text, or what is wrong with it.
fn read_text(rt: &impl Eprint, text: &[u8], jobs: &mut [u8]) -> Option<Lengths>
    ensures inside { Inside result text.now jobs.new × (length jobs.new ≡ length jobs.old) }
    ensures taken { Taken result text.now jobs.old jobs.new }
{
    match jobtext::read_jobs(text, jobs) {
        Ok(length) => Some(Lengths {
            text: text.len(),
            jobs: usize::from(length),
        }),
        Err(wrong) => {
            let _ = eprintln!(rt; "{wrong}");
            None
        }
    }
}

// Reads a text from standard input and its jobs, or says what is wrong. A text that fills its buffer is too long, so a caller lends 65,536
// bytes for it, and 256 for the jobs.
pub fn read_list(rt: &(impl Source + Eprint), text: &mut [u8], jobs: &mut [u8]) -> Option<Lengths>
    ensures inside { Inside result text.new jobs.new }
    ensures taken { Taken result text.new jobs.old jobs.new }
    ensures text_len_unchanged { (length text.new ≡ length text.old) × (length jobs.new ≡ length jobs.old) }
{
    let n = input::read_input(rt, text)?;
    if n == text.len() {
        let _ = eprintln!(rt; "the text is longer than the limit of 65535 bytes");
        return None;
    }
    read_text(rt, &text[..n], jobs)
}
