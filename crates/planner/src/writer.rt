// The bytes of a sheet. Each writer puts its bytes at the front of the part that it is lent.
ghost use Rattle.std.specs.Prelude.{◌≡◌, ◌*◌, ◌≤◌, length};
ghost use Rattle.fit.specs.Lists.{numbers, joined, over};
ghost use Rattle.jobs.specs.Jobs.{job_count, job_period, job_budget};
ghost use Rattle.planner.specs.Sheet.{header, task_record, core_record, sheet_of};
ghost use Rattle.planner.specs.Steps.{Assigned, task_bytes, core_bytes};

use crate::Assignment;
use crate::sets::{CoreRate, Jobs};

#[tactic(auto, unfolding(fit::specs::Lists::over, crate::specs::Sheet::header))]
fn put_header(part: &mut [u8], n: u8, c: u8)
    requires { 8 ≤ length part.old }
    ensures { part.new ≡ over (header n c) part.old }
{
    part[..8].copy_from_slice(&[b'T', b'S', b'H', 1, 0, n, c, 0]);
}

fn put_task(part: &mut [u8], p: u16, e: u16, k: u8, m: u32)
    requires { 10 ≤ length part.old }
    ensures { part.new ≡ over (task_record p e k m) part.old }
{
    let [p0, p1] = p.to_le_bytes();
    let [e0, e1] = e.to_le_bytes();
    let [m0, m1, m2, m3] = m.to_le_bytes();
    part[..10].copy_from_slice(&[p0, p1, e0, e1, k, 0, m0, m1, m2, m3]);
}

fn put_core(part: &mut [u8], core: CoreRate)
    requires { 8 ≤ length part.old }
    ensures { part.new ≡ over (core_record core.pivot core.divisor) part.old }
{
    let [q0, q1] = core.pivot.to_le_bytes();
    let [d0, d1, d2, d3] = core.divisor.to_le_bytes();
    part[..8].copy_from_slice(&[q0, q1, 0, 0, d0, d1, d2, d3]);
}

// The core records, into the part after the last task.
fn put_cores(part: &mut [u8], cores: &[CoreRate])
    requires { 8 * length cores.now ≤ length part.old }
    ensures { part.new ≡ over (joined (core_bytes cores.now) (numbers 0 (length cores.now))) part.old }
{
    for (k, &core) in cores.iter().enumerate() {
        put_core(&mut part[8 * k..], core);
    }
}

impl Jobs<'_> {
    // The task records. `part` is the output from byte 8.
    fn put_tasks(&self, part: &mut [u8], a: &Assignment, factors: &[u32; 64])
        requires { 10 * job_count self.now.list.now ≤ length part.old }
        ensures { part.new ≡ over (joined (task_bytes self.now.list.now a.now.core factors.now) (numbers 0 (job_count self.now.list.now))) part.old }
    {
        for i in 0..self.count() {
            let j = usize::from(i);
            put_task(
                &mut part[10 * j..],
                jobs::period(self.list, i),
                jobs::budget(self.list, i),
                a.core[j],
                factors[j],
            );
        }
    }

    // Writes the sheet of an assignment and returns its length.
    pub(crate) fn write_sheet(&self, a: &Assignment, out: &mut [u8]) -> u16
        requires { (712 ≤ length out.old) × Assigned self.now.list.now a.now }
        ensures { let sheet = sheet_of (job_period self.now.list.now) (job_budget self.now.list.now) (job_count self.now.list.now) a.now in (result ≡ length sheet) × (out.new ≡ over sheet out.old) }
    {
        let rates = self.rates_of(a);
        let n = self.count();
        put_header(out, n, a.cores);
        self.put_tasks(&mut out[8..], a, &rates.factors);
        let at = 8 + 10 * usize::from(n);
        put_cores(&mut out[at..], &rates.cores[..usize::from(a.cores)]);
        (at + 8 * usize::from(a.cores)) as u16
    }
}
