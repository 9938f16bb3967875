// First fit over the ring, walked once round from the start.
ghost use Rattle.std.specs.Prelude.{◌≡◌, ◌≤◌, ◌+◌, ◌++◌, length};
ghost use Rattle.std.specs.List.{find, range_with_len};
ghost use Rattle.jobs.specs.Jobs.{job_count};
ghost use Rattle.planner.specs.FirstFit.{rotate};
ghost use Rattle.planner.specs.Plan.{fit_of};
ghost use Rattle.planner.specs.Steps.{takes_in, core_in, walk_in, fitted};

use crate::Assignment;
use crate::sets::Jobs;
use arrayvec::ArrayVec;
use fit::By;
use sheet::{Refusal, Rejection};

// Puts a part of a list behind an order. One task at a time and inlined: `rotate_left` and `try_extend_from_slice` would need C's `memmove`.
#[inline(always)]
fn append(order: &mut ArrayVec<u8, 64>, part: &[u8])
    requires { length order.old.items + length part.now ≤ 64 }
    ensures { order.new.items ≡ order.old.items ++ part.now }
{
    for &i in part {
        order.push(i);
    }
}

// A list walked once round from a start.
#[tactic(auto, unfolding(crate::specs::FirstFit::rotate))]
#[inline(always)]
fn turned(ring: &[u8], start: usize) -> ArrayVec<u8, 64>
    requires { (start ≤ length ring.now) × (length ring.now ≤ 64) }
    ensures { result.items ≡ rotate start ring.now }
{
    let mut turned = ArrayVec::new();
    append(&mut turned, &ring[start..]);
    append(&mut turned, &ring[..start]);
    turned
}

impl Jobs<'_> {
    // Whether the tasks of core k pass together with task i.
    fn takes(&self, a: &Assignment, i: u8, k: u8) -> bool
        requires { a.now.cores ≤ 8 }
        ensures { result ≡ takes_in self.now.list.now i a.now.core k }
    {
        self.figures_on(&a.with(i, k), k).is_some()
    }

    // The first of the open cores that takes task i.
    fn first_open(&self, a: &Assignment, i: u8) -> Option<u8>
        requires { a.now.cores ≤ 8 }
        ensures { result ≡ find (takes_in self.now.list.now i a.now.core) (range_with_len 0 a.now.cores) }
    {
        (0..a.cores).find(|&k| self.takes(a, i, k))
    }

    // The core for task i: the first that takes it, or a new one below the limit.
    fn core_for(&self, limit: u8, a: &Assignment, i: u8) -> Option<u8>
        requires { a.now.cores ≤ 8 }
        ensures { result ≡ core_in self.now.list.now limit i a.now }
    {
        self.first_open(a, i)
            .or((a.cores < limit).then_some(a.cores))
    }

    // First fit over the tasks of a walk.
    fn walk(&self, tasks: &[u8], limit: u8) -> Result<Assignment, Rejection>
        requires { limit ≤ 8 }
        ensures { result ≡ fitted (walk_in self.now.list.now limit tasks.now) }
    {
        let mut a = Assignment::unassigned();
        for &i in tasks {
            let Some(k) = self.core_for(limit, &a, i) else {
                return Err(Refusal::NoFit.at(u16::from(i)));
            };
            a = a.with(i, k);
        }
        Ok(a)
    }

    // First fit over the ring, once round from a start.
    pub(crate) fn first_fit(&self, limit: u8, start: usize) -> Result<Assignment, Rejection>
        requires { (limit ≤ 8) × (start ≤ job_count self.now.list.now) }
        ensures { result ≡ fitted (fit_of self.now.list.now limit start) }
    {
        let ring = jobs::in_order(By::Ring, self.list, self.count());
        self.walk(turned(ring.as_slice(), start).as_slice(), limit)
    }
}
