// A row of core states on one beat: each is given its tick, and a lent row of bytes takes the answers (docs/SHEET.md, section 13).
#![tactic(auto)]

ghost use Rattle.std.specs.Prelude.{◌≡◌, map, ◌≤◌, length};
ghost use Rattle.std.specs.List.{position};
ghost use Rattle.timing.specs.Calls.{tick};
ghost use Rattle.state.specs.State.{foreign};
ghost use Rattle.state.specs.Operations.{answer_of, step};
ghost use Rattle.row.specs.Bytes.{answer_byte};
ghost use Rattle.row.specs.Row.{written, outcome_of, row_outcome, row_states, row_bytes};
ghost use Rattle.row.specs.OnTime.{RowRuns};

use sheet::{Refusal, Rejection};
use state::{Answer, Core, Reply};

// The position of the first foreign state.
fn first_foreign(row: &[Core]) -> Option<usize>
    ensures { result ≡ position foreign row.now }
{
    row.iter().position(|core| core.is_foreign())
}

// An answer as a byte: the number of the task that has the tick, else 255.
#[tactic(auto, unfolding(crate::specs::Bytes::answer_byte))]
fn byte_of(answer: Answer) -> u8
    ensures { result ≡ answer_byte (answer_of answer) }
{
    match answer {
        Ok(Reply::Served(task)) => task,
        _ => 255,
    }
}

// Each state of a row is given its tick. (`zip` in place of the index: of what it writes the proof would know the lengths and no element.)
fn tick_each(row: &mut [Core], answers: &mut [u8])
    requires { length row.old ≤ length answers.old }
    ensures states { row.new ≡ map (step tick) row.old }
    ensures bytes { answers.new ≡ written row.old answers.old }
{
    for (i, core) in row.iter_mut().enumerate() {
        let ticked = core.tick();
        *core = ticked.core;
        answers[i] = byte_of(ticked.answer);
    }
}

// One tick for every state of a row: 24 where there are fewer answer bytes than states, 21 with the position of the first foreign state,
// else each state becomes what its own tick hands back, and the byte at its position is the number of the task that has the tick, or 255.
pub fn tick_row(row: &mut [Core], answers: &mut [u8]) -> Result<(), Rejection<usize>>
    ensures answer { outcome_of result ≡ row_outcome row.old (length answers.old) }
    ensures states { row.new ≡ row_states (row_outcome row.old (length answers.old)) row.old }
    ensures bytes { answers.new ≡ row_bytes (row_outcome row.old (length answers.old)) row.old answers.old }
    ensures runs { RowRuns row.old }
{
    if answers.len() < row.len() {
        return Err(Refusal::Row.at(0));
    }
    if let Some(at) = first_foreign(row) {
        return Err(Refusal::Foreign.at(at));
    }
    tick_each(row, answers);
    Ok(())
}
