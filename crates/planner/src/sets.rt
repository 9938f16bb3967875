// The tasks of each core, and the figures of cores.
ghost use Rattle.std.specs.Prelude.{◌≡◌, ◌≤◌, length};
ghost use Rattle.fit.specs.declared.By.TheVariants.{Period};
ghost use Rattle.fit.specs.Priority.{is_on};
ghost use Rattle.fit.specs.Lists.{select, at};
ghost use Rattle.fit.specs.Ring.{order_by};
ghost use Rattle.jobs.specs.Jobs.{job_count, job_period};
ghost use Rattle.figures.specs.Answers.{outcome};
ghost use Rattle.planner.specs.Steps.{figures_in, Assigned, spread as spreadOver, Rated};

use crate::{Assignment, store};
use arrayvec::ArrayVec;
use figures::CoreFigures;

// A job list of at most 64 entries, and all its tasks in priority order.
#[derive(Clone, Copy)]
pub(crate) struct Jobs<'a> {
    pub(crate) list: &'a [u8],
    pub(crate) order: &'a [u8],
    ghost few: { job_count list.now ≤ 64 },
    ghost tasks: { order.now ≡ order_by Period (job_period list.now) (job_count list.now) },
}

// What the sheet has of a core.
#[derive(Clone, Copy)]
pub(crate) struct CoreRate {
    pub(crate) pivot: u16,
    pub(crate) divisor: u32,
}

// The rates of the open cores by number, and factors by task number.
#[derive(Clone, Copy)]
pub(crate) struct Rates {
    pub(crate) cores: [CoreRate; 8],
    pub(crate) factors: [u32; 64],
}

const NO_RATE: CoreRate = CoreRate {
    pivot: 0,
    divisor: 0,
};

// The figures of a core that has none.
const NO_FIGURES: CoreFigures = CoreFigures {
    pivot: 0,
    divisor: 0,
    factors: [0; 64],
};

// Puts a core's own factors at the numbers of its listed tasks.
fn spread(factors: &mut [u32; 64], list: &[u8], own: &[u32; 64])
    requires { length list.now ≤ 64 }
    ensures { factors.new ≡ spreadOver own.now list.now 0 factors.old }
{
    for (place, &i) in list.iter().enumerate() {
        store(factors, i, own[place]);
    }
}

impl Jobs<'_> {
    // How many jobs there are.
    #[tactic(auto, unfolding(jobs::specs::Jobs::job_count))]
    pub(crate) fn count(&self) -> u8
        ensures { result ≡ job_count self.now.list.now }
    {
        (self.list.len() / 4) as u8
    }

    // The tasks of core k in priority order.
    #[tactic(auto, using(crate::proofs::Gathering::select_on, crate::proofs::Gathering::select_off), unfolding(fit::specs::Lists::select))]
    fn tasks_on(&self, a: &Assignment, k: u8) -> ArrayVec<u8, 64>
        ensures { result.items ≡ select (is_on (at a.now.core) k) self.now.order.now }
    {
        let mut tasks = ArrayVec::new();
        for &i in self.order {
            if a.core_of(i) == k {
                tasks.push(i);
            }
        }
        tasks
    }

    // The figures of core k, if its tasks pass.
    pub(crate) fn figures_on(&self, a: &Assignment, k: u8) -> Option<CoreFigures>
        ensures { result ≡ outcome (figures_in self.now.list.now a.now.core k) }
    {
        let tasks = self.tasks_on(a, k);
        let mut periods = ArrayVec::<u16, 64>::new();
        let mut budgets = ArrayVec::<u16, 64>::new();
        for &i in tasks.as_slice() {
            periods.push(jobs::period(self.list, i));
            budgets.push(jobs::budget(self.list, i));
        }
        figures::first_passing(periods.as_slice(), budgets.as_slice())
    }

    // The rates of an assignment.
    pub(crate) fn rates_of(&self, a: &Assignment) -> Rates
        requires { Assigned self.now.list.now a.now }
        ensures { Rated self.now.list.now a.now result }
    {
        let mut cores = [NO_RATE; 8];
        let mut factors = [0; 64];
        for k in 0..a.cores {
            let figures = self.figures_on(a, k).unwrap_or(NO_FIGURES);
            cores[usize::from(k)] = CoreRate {
                pivot: figures.pivot,
                divisor: figures.divisor,
            };
            let tasks = self.tasks_on(a, k);
            spread(&mut factors, tasks.as_slice(), &figures.factors);
        }
        Rates { cores, factors }
    }
}
