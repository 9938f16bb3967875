// One row of a table of rules: the refusal by its word, where the rule is broken.
#![tactic(auto, unfolding(sheet::specs::Table::scan, sheet::specs::Table::whole, sheet::specs::Table::core))]

ghost use Rattle.std.specs.Prelude.{◌≡◌, [], ◌∷◌};
ghost use Rattle.sheet.specs.Refusals.{number_of};
ghost use Rattle.sheet.specs.Table.{◌at◌, core, whole, scan, refusal_of};

use sheet::{Refusal, Rejection};

// A rule that is broken at a task.
pub(crate) fn refuse(task: Option<u8>, word: Refusal) -> Result<(), Rejection>
    ensures { refusal_of result ≡ scan (number_of word at task ∷ []) }
{
    match task {
        Some(i) => Err(word.at(u16::from(i))),
        None => Ok(()),
    }
}

// A rule that is broken at a core.
pub(crate) fn refuse_core(place: Option<u8>, word: Refusal) -> Result<(), Rejection>
    ensures { refusal_of result ≡ scan (number_of word at core place ∷ []) }
{
    match place {
        Some(k) => Err(word.at(64 + u16::from(k))),
        None => Ok(()),
    }
}

// A rule about the whole sheet.
pub(crate) fn refuse_if(broken: bool, word: Refusal) -> Result<(), Rejection>
    ensures { refusal_of result ≡ scan (number_of word at whole broken ∷ []) }
{
    if broken { Err(word.at(0)) } else { Ok(()) }
}
