// The state of a core, and release, finish and tick (docs/SHEET.md, sections 6 and 14).
#![tactic(auto)]

mod form;

ghost use Rattle.std.specs.Prelude.{◌≡◌, cond, ◌-◌, ◌<◌, ◌≤◌, eqb, ◌==◌, IfOk, IfErr};
ghost use Rattle.std.specs.List.{position};
ghost use Rattle.timing.specs.Tasks.{older, used};
ghost use Rattle.timing.specs.Calls.{release, finish, tick, no_stroke, stroke_ticks, stroke_ticked};
ghost use Rattle.timing.specs.Serving.{nth};
ghost use Rattle.state.specs.State.{stroke_in, foreign};
ghost use Rattle.state.specs.Operations.{refusal, Operation, Unaltered, Serves};
ghost use Rattle.state.specs.Steps.{spot, changed, with_stroke, acceptance};

use form::Pass;
use sheet::{Refusal, Rejection};
use timing::Task;

// The state of a core: its tasks are the first `count` places, in priority order; the number of the task whose stroke lasts and the ticks left
// to it, both 0 for none. The count stands beside the places, as in the C struct `homvaits_core`.
#[repr(C)]
#[derive(Clone, Copy)]
pub struct Core {
    pub count: usize,
    pub tasks: [Task; 64],
    pub stroke_task: u8,
    pub stroke_left: u8,
}

// What a call that is not refused answers: a start, a release or a finish is accepted, a tick goes to the task with a number or is idle.
#[derive(Clone, Copy, Debug, PartialEq, Eq)]
pub enum Reply {
    Accepted,
    Served(u8),
    Idle,
}

// What a call answers.
pub type Answer = Result<Reply, Rejection>;

// The answer of a start or an operation, and the state that it hands back.
#[derive(Clone, Copy)]
pub struct Step {
    pub answer: Answer,
    pub core: Core,
}

impl Step {
    // A refused call hands the state back as given.
    pub fn refused(core: Core, why: Rejection) -> Step
        ensures { result ≡ refusal core why }
    {
        Step {
            answer: Err(why),
            core,
        }
    }
}

// The task one tick older, up to its period.
#[tactic(auto, unfolding(timing::specs::Tasks::older, timing::specs::Tasks::with_job))]
fn aged(t: Task) -> Task
    ensures { result ≡ older t }
{
    let age = if t.age < t.period {
        t.age + 1
    } else {
        t.period
    };
    Task { age, ..t }
}

// The ticks left of the stroke in which a task has its tick, after it: of so many, or of a stroke that begins where there are none.
fn ticks_after(ticks: u8, t: Task) -> u8
    ensures { result ≡ stroke_ticks ticks t - 1 }
{
    if 0 < ticks {
        return ticks - 1;
    }
    (u16::from(t.stroke).min(t.left) as u8).saturating_sub(1)
}

// The place of the first task with this number.
fn first_named(tasks: &[Task], number: u64) -> Option<usize>
    ensures { result ≡ position (λ t. t.number == number) tasks.now }
{
    tasks.iter().position(|t| u64::from(t.number) == number)
}

impl Core {
    // Whether the state breaks its own form (21).
    pub fn is_foreign(&self) -> bool
        ensures { result ≡ foreign self.now }
    {
        let Some(tasks) = self.tasks.get(..self.count) else {
            return true;
        };
        let mut pass = Pass::new(self.stroke_task, self.stroke_left);
        for (i, &t) in tasks.iter().enumerate() {
            if pass.breaks(t) {
                return true;
            }
            pass = pass.after(i, t);
        }
        pass.ends_foreign(self.count)
    }

    // The place of the task with this number: 21, then 17, else where it stands.
    #[tactic(auto, unfolding(crate::specs::Steps::spot, timing::specs::Tasks::named))]
    fn spot_of(&self, number: u64) -> Result<usize, Rejection>
        ensures { result ≡ spot self.now number }
    {
        if self.is_foreign() {
            return Err(Refusal::Foreign.at(0));
        }
        first_named(&self.tasks[..self.count], number).ok_or(Refusal::Unlisted.at(0))
    }

    // The state with another task at a place.
    fn with_task(self, at: usize, t: Task) -> Core
        requires { at < 64 }
        ensures { result ≡ changed self at t }
    {
        let mut next = self;
        next.tasks[at] = t;
        next
    }

    // The state without its stroke, if that is of the task with this number. Two fields of a copy change: a state made anew would come without
    // the bytes that C leaves behind the fields.
    fn without_stroke(self, number: u8) -> Core
        ensures { result ≡ with_stroke self (cond (eqb self.stroke_task number) no_stroke (stroke_in self)) }
    {
        let mut next = self;
        if next.stroke_task == number {
            next.stroke_task = 0;
            next.stroke_left = 0;
        }
        next
    }

    // The place of the task that a release names, and the task with its new job: 21, 17, 18, 19.
    fn released(&self, number: u64) -> Result<(usize, Task), Rejection>
        ensures refused { IfErr result (λ r. Operation (release number) self.now (refusal self.now r)) }
        ensures accepted { IfOk result (λ x. (x.0 < 64) × Operation (release number) self.now (acceptance self.now x.0 x.1)) }
    {
        let at = self.spot_of(number)?;
        let t = self.tasks[at];
        let place = u16::from(t.number);
        if t.age < t.period {
            return Err(Refusal::Early.at(place));
        }
        if 0 < t.left {
            return Err(Refusal::Late.at(place));
        }
        let released = Task {
            age: 0,
            left: t.budget,
            ..t
        };
        Ok((at, released))
    }

    // The place of the task that a finish names, and the task with its job ended: 21, 17, 20.
    fn finished(&self, number: u64) -> Result<(usize, Task), Rejection>
        ensures refused { IfErr result (λ r. Operation (finish number) self.now (refusal self.now r)) }
        ensures accepted { IfOk result (λ x. (x.0 < 64) × Operation (finish number) self.now (acceptance (with_stroke self.now (cond (eqb self.now.stroke_task x.1.number) no_stroke (stroke_in self.now))) x.0 x.1)) }
    {
        let at = self.spot_of(number)?;
        let t = self.tasks[at];
        if t.left == 0 {
            return Err(Refusal::Quiet.at(u16::from(t.number)));
        }
        Ok((at, Task { left: 0, ..t }))
    }

    // A job of the task is released: 21, 17, 18, 19, else age 0 and ticks left e.
    pub fn release(self, number: u64) -> Step
        ensures operation { Operation (release number) self result }
        ensures refused_unaltered { Unaltered self result }
    {
        match self.released(number) {
            Err(why) => Step::refused(self, why),
            Ok((at, t)) => Step {
                answer: Ok(Reply::Accepted),
                core: self.with_task(at, t),
            },
        }
    }

    // The task's job is ended early: 21, 17, 20, else ticks left 0, and its stroke ends with it.
    pub fn finish(self, number: u64) -> Step
        ensures operation { Operation (finish number) self result }
        ensures refused_unaltered { Unaltered self result }
    {
        match self.finished(number) {
            Err(why) => Step::refused(self, why),
            Ok((at, t)) => Step {
                answer: Ok(Reply::Accepted),
                core: self.without_stroke(t.number).with_task(at, t),
            },
        }
    }

    // The task at a place has the tick, in its stroke or in one that begins; the answer is its number.
    fn serve(&mut self, at: usize) -> u8
        requires pending { 1 ≤ (nth self.old.tasks at).left }
        requires room { at < 64 }
        ensures number { result ≡ (nth self.old.tasks at).number }
        ensures state { self.new ≡ with_stroke (changed self.old at (used (nth self.old.tasks at))) (stroke_ticked (stroke_in self.old) (nth self.old.tasks at)) }
    {
        let t = self.tasks[at];
        self.tasks[at] = Task {
            left: t.left - 1,
            ..t
        };
        let left = ticks_after(self.stroke_left, t);
        let task = if left == 0 { 0 } else { t.number };
        self.stroke_left = left;
        self.stroke_task = task;
        t.number
    }

    // One tick passes: 21, else the stroke's task, or outside a stroke the first pending task, has one tick less left, and every age rises by
    // one, up to its period. One pass tests the form, sets the marks and the ages. It goes by index over the copy: an iterator over the tasks of
    // `self` costs one more copy of the state and stores every field of a task, 1.1 of the time.
    pub fn tick(self) -> Step
        ensures operation { Operation tick self result }
        ensures refused_unaltered { Unaltered self result }
        ensures serves { Serves self result }
    {
        if 64 < self.count {
            return Step::refused(self, Refusal::Foreign.at(0));
        }
        let mut next = self;
        let mut pending = [0; 64];
        let mut pass = Pass::new(self.stroke_task, self.stroke_left);
        for i in 0..self.count {
            let t = next.tasks[i];
            if pass.breaks(t) {
                return Step::refused(self, Refusal::Foreign.at(0));
            }
            pass = pass.after(i, t);
            pending[i] = marks::mark(t);
            next.tasks[i] = aged(t);
        }
        if pass.ends_foreign(self.count) {
            return Step::refused(self, Refusal::Foreign.at(0));
        }
        let first = if 0 < self.stroke_left {
            pass.place
        } else {
            marks::first_marked(&pending, self.count)
        };
        if self.count <= first {
            return Step {
                answer: Ok(Reply::Idle),
                core: next,
            };
        }
        let number = next.serve(first);
        Step {
            answer: Ok(Reply::Served(number)),
            core: next,
        }
    }
}
