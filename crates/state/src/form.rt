// The form of a state, whose breach is 21 Foreign, tested in one pass over its tasks. What can be told at the end is not asked of each task:
// periods rise, so the last is the longest; the bitwise or of the numbers shows whether one is above 63, and a bit for each whether one
// stands twice; the task of the stroke that lasts is met on the way.
ghost use Rattle.std.specs.Prelude.{◌≡◌, ◌%◌, ◌^◌};
ghost use Rattle.state.specs.Steps.{rank, most_left, breaks, begun, after, ends_foreign};

use timing::Task;

// What the pass keeps: the number and the ticks left of the stroke that lasts; the rank of the last task, the bitwise or of the numbers, and a
// bit for each number; the place of the stroke's task, 64 before it is met, and the most ticks that its stroke may have left.
#[derive(Clone, Copy)]
pub(crate) struct Pass {
    own: u8,
    left: u8,
    last: u32,
    numbers: u8,
    seen: u64,
    pub place: usize,
    most: u16,
}

// A number that rises with the priority order of sound tasks.
fn rank_of(t: Task) -> u32
    ensures { result ≡ rank t }
{
    u32::from(t.period) * 64 + u32::from(t.number)
}

// The bit that stands for a number.
fn bit_of(number: u8) -> u64
    ensures { result ≡ 2 ^ (number % 64) }
{
    1 << (number % 64)
}

// The most ticks that a stroke of the task may have left: its length less one, or those of the job.
fn most_left(t: Task) -> u16
    ensures { result ≡ most_left t }
{
    u16::from(t.stroke.saturating_sub(1)).min(t.left)
}

impl Pass {
    // The pass before the first task.
    pub(crate) fn new(own: u8, left: u8) -> Pass
        ensures { result ≡ begun own left }
    {
        Pass {
            own,
            left,
            last: 0,
            numbers: 0,
            seen: 0,
            place: 64,
            most: 0,
        }
    }

    // Whether the next task breaks the form.
    pub(crate) fn breaks(self, t: Task) -> bool
        ensures { result ≡ breaks self.last t }
    {
        let stroke = u16::from(t.stroke);
        (rank_of(t) <= self.last)
            | (stroke < 1)
            | (t.budget < stroke)
            | (t.period < t.budget)
            | (t.period < t.age)
            | (t.budget < t.left)
    }

    // The pass after the next task, at place i.
    pub(crate) fn after(self, i: usize, t: Task) -> Pass
        ensures { result ≡ after i self t }
    {
        let next = Pass {
            last: rank_of(t),
            numbers: self.numbers | t.number,
            seen: self.seen | bit_of(t.number),
            ..self
        };
        if (0 < self.left) & (t.number == self.own) {
            return Pass {
                place: i,
                most: most_left(t),
                ..next
            };
        }
        next
    }

    // Whether the pass over all tasks shows that the form is broken, where no task did.
    pub(crate) fn ends_foreign(self, count: usize) -> bool
        ensures { result ≡ ends_foreign self count }
    {
        (63 < self.numbers)
            | (60_000 < self.last / 64)
            | ((self.seen.count_ones() as usize) < count)
            | (self.most < u16::from(self.left))
            | ((self.left == 0) & (0 < self.own))
    }
}
