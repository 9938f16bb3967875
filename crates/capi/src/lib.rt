// The C interface, declared in include/homvaits.h. Every call is total; `refusal` is 0 where nothing is refused, else the refusal's number
// (docs/SHEET.md, section 9); fields that do not apply are 0.
#![tactic(auto)]

ghost use Rattle.std.specs.Prelude.{◌≡◌, List, length, take};
ghost use Rattle.checker.specs.Verdict.{verdict, accepted, outcome_of as check_outcome};
ghost use Rattle.planner.specs.Plan.{plan_outcome, plan_output, outcome_of as planner_outcome};
ghost use Rattle.listing.specs.Answers.{listed, holding, answer_of as listing_answer};
ghost use Rattle.jobs.specs.Jobs.{list_rows};
ghost use Rattle.sheet.specs.Table.{scan};
ghost use Rattle.timing.specs.Calls.{Call, release, finish, tick};
ghost use Rattle.state.specs.Operations.{answer_of, ask, step};
ghost use Rattle.dispatcher.specs.Starts.{sheet_answer, sheet_state, list_answer, list_state};
ghost use Rattle.dispatcher.specs.OnTime.{Kept};
ghost use Rattle.row.specs.Row.{outcome_of as row_answer, row_outcome, row_states, row_bytes};
ghost use Rattle.row.specs.OnTime.{RowRuns};
ghost use Rattle.margin.specs.Answers.{margin_answer, outcome_of as margin_outcome};
ghost use Rattle.margin.specs.Exact.{Exact};
ghost use Rattle.mover.specs.Answers.{move_verdict, move_answer, move_output, answer_of as mover_answer};
ghost use Rattle.capi.specs.Answers.{layout, checked_of, planned_of, listed_of, stepped_of, ticked_of, row_ticked_of, margined_of, moved_of};
ghost use Rattle.capi.specs.Moved.{RunsAlike};
ghost use Rattle.capi.specs.Planned.{RunsOnTime};

use checker::Counts;
use planner::Planned;
use sheet::Rejection;
use state::{Core, Reply, Step};

#[repr(C)]
#[derive(Clone, Copy)]
pub struct Checked {
    pub refusal: u8,
    pub place: u16,
    pub tasks: u8,
    pub cores: u8,
}

#[repr(C)]
#[derive(Clone, Copy)]
pub struct PlanAnswer {
    pub refusal: u8,
    pub place: u16,
    pub tasks: u8,
    pub cores: u8,
    pub length: u16,
}

#[repr(C)]
#[derive(Clone, Copy)]
pub struct ListAnswer {
    pub refusal: u8,
    pub place: u16,
    pub length: u16,
}

#[repr(C)]
#[derive(Clone, Copy)]
pub struct MoveAnswer {
    pub refusal: u8,
    pub place: u16,
    pub length: u16,
}

#[repr(C)]
#[derive(Clone, Copy)]
pub struct StepAnswer {
    pub refusal: u8,
    pub place: u16,
    pub core: Core,
}

// The bytes that C leaves free between the fields have names here: an answer that is whole is copied once less.
#[repr(C)]
#[derive(Clone, Copy)]
pub struct Ticked {
    pub refusal: u8,
    pub free: u8,
    pub place: u16,
    pub task: u8,
    pub free1: u8,
    pub free2: u16,
    pub core: Core,
}

#[repr(C)]
#[derive(Clone, Copy)]
pub struct RowTicked {
    pub refusal: u8,
    pub place: u64,
}

#[repr(C)]
#[derive(Clone, Copy)]
pub struct Margined {
    pub refusal: u8,
    pub place: u16,
    pub margin: i32,
}

// How an answer of the library is handed to C.

impl From<Result<Counts, Rejection>> for Checked {
    ghost from_gives = { λ answer r. r ≡ checked_of (check_outcome answer) };

    #[tactic(auto, unfolding(crate::specs::Answers::checked_of))]
    fn from(answer: Result<Counts, Rejection>) -> Checked {
        match answer {
            Ok(Counts { tasks, cores }) => Checked {
                refusal: 0,
                place: 0,
                tasks,
                cores,
            },
            Err(Rejection { word, place }) => Checked {
                refusal: u8::from(word),
                place,
                tasks: 0,
                cores: 0,
            },
        }
    }
}

impl From<Result<Planned, Rejection>> for PlanAnswer {
    ghost from_gives = { λ answer r. r ≡ planned_of (planner_outcome answer) };

    #[tactic(auto, unfolding(crate::specs::Answers::planned_of))]
    fn from(answer: Result<Planned, Rejection>) -> PlanAnswer {
        match answer {
            Ok(
                Planned {
                    tasks,
                    cores,
                    length,
                },
            ) => PlanAnswer {
                refusal: 0,
                place: 0,
                tasks,
                cores,
                length,
            },
            Err(Rejection { word, place }) => PlanAnswer {
                refusal: u8::from(word),
                place,
                tasks: 0,
                cores: 0,
                length: 0,
            },
        }
    }
}

impl From<Result<u16, Rejection>> for ListAnswer {
    ghost from_gives = { λ answer r. r ≡ listed_of (listing_answer answer) };

    #[tactic(auto, unfolding(crate::specs::Answers::listed_of))]
    fn from(answer: Result<u16, Rejection>) -> ListAnswer {
        match answer {
            Ok(length) => ListAnswer {
                refusal: 0,
                place: 0,
                length,
            },
            Err(Rejection { word, place }) => ListAnswer {
                refusal: u8::from(word),
                place,
                length: 0,
            },
        }
    }
}

impl From<Result<u16, Rejection>> for MoveAnswer {
    ghost from_gives = { λ answer r. r ≡ moved_of (mover_answer answer) };

    #[tactic(auto, unfolding(crate::specs::Answers::moved_of))]
    fn from(answer: Result<u16, Rejection>) -> MoveAnswer {
        match answer {
            Ok(length) => MoveAnswer {
                refusal: 0,
                place: 0,
                length,
            },
            Err(Rejection { word, place }) => MoveAnswer {
                refusal: u8::from(word),
                place,
                length: 0,
            },
        }
    }
}

impl From<Step> for StepAnswer {
    ghost from_gives = { λ step r. r ≡ stepped_of (answer_of step.answer) step.core };

    #[tactic(auto, unfolding(crate::specs::Answers::stepped_of))]
    fn from(step: Step) -> StepAnswer {
        let (refusal, place) = match step.answer {
            Ok(_) => (0, 0),
            Err(Rejection { word, place }) => (u8::from(word), place),
        };
        StepAnswer {
            refusal,
            place,
            core: step.core,
        }
    }
}

impl From<Step> for Ticked {
    ghost from_gives = { λ step r. r ≡ ticked_of (answer_of step.answer) step.core };

    #[tactic(auto, unfolding(crate::specs::Answers::ticked_of))]
    fn from(step: Step) -> Ticked {
        let (refusal, place, task) = match step.answer {
            Ok(Reply::Served(task)) => (0, 0, task),
            Ok(Reply::Idle) => (0, 0, 255),
            Ok(Reply::Accepted) => (0, 0, 0),
            Err(Rejection { word, place }) => (u8::from(word), place, 0),
        };
        Ticked {
            refusal,
            free: 0,
            place,
            task,
            free1: 0,
            free2: 0,
            core: step.core,
        }
    }
}

impl From<Result<(), Rejection<usize>>> for RowTicked {
    ghost from_gives = { λ answer r. r ≡ row_ticked_of (row_answer answer) };

    #[tactic(auto, unfolding(crate::specs::Answers::row_ticked_of))]
    fn from(answer: Result<(), Rejection<usize>>) -> RowTicked {
        match answer {
            Ok(()) => RowTicked {
                refusal: 0,
                place: 0,
            },
            Err(Rejection { word, place }) => RowTicked {
                refusal: u8::from(word),
                place: place as u64,
            },
        }
    }
}

impl From<Result<i32, Rejection>> for Margined {
    ghost from_gives = { λ answer r. r ≡ margined_of (margin_outcome answer) };

    #[tactic(auto, unfolding(crate::specs::Answers::margined_of))]
    fn from(answer: Result<i32, Rejection>) -> Margined {
        match answer {
            Ok(margin) => Margined {
                refusal: 0,
                place: 0,
                margin,
            },
            Err(Rejection { word, place }) => Margined {
                refusal: u8::from(word),
                place,
                margin: 0,
            },
        }
    }
}

const LAYOUT: u32 = 1;

#[unsafe(no_mangle)]
pub extern "C" fn homvaits_layout() -> u32
    ensures { result ≡ layout }
{
    LAYOUT
}

// The same, under a name that has the number, for linkers and build scripts. It promises the number in its name, so another number wants
// another name.
#[unsafe(no_mangle)]
pub extern "C" fn homvaits_layout_1() -> u32
    ensures { result ≡ 1 }
{
    homvaits_layout()
}

#[unsafe(no_mangle)]
pub extern "C" fn homvaits_check(sheet: &[u8]) -> Checked
    ensures { result ≡ checked_of (verdict sheet.now) }
{
    checker::check(sheet).into()
}

// The checker accepts the sheet that is written, and every core of it starts and runs the listed jobs on time, whatever calls follow.
#[tactic(auto, using(crate::proofs::Answers::plan_accepts))]
#[unsafe(no_mangle)]
pub extern "C" fn homvaits_plan(jobs: &[u8], limit: u64, start: u64, out: &mut [u8]) -> PlanAnswer
    ensures value { result ≡ planned_of (plan_outcome jobs.now limit start (length out.old)) }
    ensures out_after { out.new ≡ plan_output jobs.now limit start out.old }
    ensures accepts { result.refusal ≡ 0 → verdict (take result.length out.new) ≡ accepted result.tasks result.cores }
    ensures on_time { result.refusal ≡ 0 → RunsOnTime jobs.now (take result.length out.new) result.cores }
{
    planner::plan(jobs, limit, start, out).into()
}

#[unsafe(no_mangle)]
pub extern "C" fn homvaits_list(sheet: &[u8], out: &mut [u8]) -> ListAnswer
    ensures value { result ≡ listed_of (listed sheet.now out.old) }
    ensures out_after { out.new ≡ holding sheet.now out.old }
{
    listing::list_sheet(sheet, out).into()
}

// The core of an accepted start ends every job on time, whatever calls follow.
#[unsafe(no_mangle)]
pub extern "C" fn homvaits_start(sheet: &[u8], core: u64) -> StepAnswer
    ensures value { result ≡ stepped_of (sheet_answer (verdict sheet.now) core) (sheet_state (verdict sheet.now) sheet.now core) }
    ensures on_time { result.refusal ≡ 0 → (cs : List Call) → Kept sheet.now core result.core cs }
{
    dispatcher::start_sheet(sheet, core).into()
}

#[unsafe(no_mangle)]
pub extern "C" fn homvaits_start_list(jobs: &[u8]) -> StepAnswer
    ensures { result ≡ stepped_of (list_answer (scan (list_rows 0 jobs.now))) (list_state (scan (list_rows 0 jobs.now)) jobs.now) }
{
    dispatcher::start_list(jobs).into()
}

#[unsafe(no_mangle)]
pub extern "C" fn homvaits_release(core: Core, number: u64) -> StepAnswer
    ensures { result ≡ stepped_of (ask (release number) core) (step (release number) core) }
{
    core.release(number).into()
}

#[unsafe(no_mangle)]
pub extern "C" fn homvaits_finish(core: Core, number: u64) -> StepAnswer
    ensures { result ≡ stepped_of (ask (finish number) core) (step (finish number) core) }
{
    core.finish(number).into()
}

#[unsafe(no_mangle)]
pub extern "C" fn homvaits_tick(core: Core) -> Ticked
    ensures { result ≡ ticked_of (ask tick core) (step tick core) }
{
    core.tick().into()
}

// Each core of the row has the log of its own calls, and one that was started from a sheet ends every job on time.
#[unsafe(no_mangle)]
pub extern "C" fn homvaits_tick_row(row: &mut [Core], answers: &mut [u8]) -> RowTicked
    ensures answer { result ≡ row_ticked_of (row_outcome row.old (length answers.old)) }
    ensures states { row.new ≡ row_states (row_outcome row.old (length answers.old)) row.old }
    ensures bytes { answers.new ≡ row_bytes (row_outcome row.old (length answers.old)) row.old answers.old }
    ensures runs { RowRuns row.old }
{
    row::tick_row(row, answers).into()
}

// The margins of a list are zero or more exactly when no run from its bench start leaves a job pending once its period has passed.
#[unsafe(no_mangle)]
pub extern "C" fn homvaits_margin(jobs: &[u8], number: u64) -> Margined
    ensures value { result ≡ margined_of (margin_answer jobs.now number) }
    ensures exact { Exact jobs.now }
{
    margin::margin(jobs, number).into()
}

// The sheet that is written is accepted, starts and lists as the one that was given, and moved again it gives the same bytes.
#[unsafe(no_mangle)]
pub extern "C" fn homvaits_move(sheet: &[u8], out: &mut [u8]) -> MoveAnswer
    ensures value { result ≡ moved_of (move_answer (move_verdict sheet.now) sheet.now (length out.old)) }
    ensures out_after { out.new ≡ move_output (move_verdict sheet.now) sheet.now out.old }
    ensures runs_alike { result.refusal ≡ 0 → RunsAlike sheet.now (take result.length out.new) }
{
    mover::move_sheet(sheet, out).into()
}
