// The figures of a core: Sr and DCT for a pivot, the load test, and the first construction that passes (docs/SHEET.md, section 5).
#![tactic(auto)]

ghost use Rattle.std.specs.Prelude.{◌≡◌, ℕ, ◌+◌, ◌*◌, ◌/◌, ◌<◌, ◌≤◌, true, map, length, take};
ghost use Rattle.std.specs.List.{find, range_with_len};
ghost use Rattle.fit.specs.Lists.{select, at, padded};
ghost use Rattle.figures.specs.Constructions.{Power, least_power, largest_power, sr as srOf, down, downs, dct as dctOf};
ghost use Rattle.figures.specs.Passing.{passes as passesOf, first, each_pivot, in_range, trials, sorted_periods, task_set, first_passing};
ghost use Rattle.figures.specs.Steps.{Usable, read_back, feasible};
ghost use Rattle.figures.specs.Answers.{written, outcome};

// The pivot's period, the divisor, and the factors in priority order, then zeros.
#[derive(Clone, Copy, Debug, PartialEq, Eq)]
pub struct CoreFigures {
    pub pivot: u16,
    pub divisor: u32,
    pub factors: [u32; 64],
}

// The periods and budgets of a core's tasks in priority order.
#[derive(Clone, Copy)]
struct TaskSet<'a> {
    periods: &'a [u16],
    budgets: &'a [u16],
    ghost few: { length periods.now ≤ 64 },
    ghost even: { length periods.now ≡ length budgets.now },
    ghost sorted: { sorted_periods 1 periods.now ≡ true },
}

// The base of Sr, two or three.
#[derive(Clone, Copy)]
struct Base {
    number: u64,
    ghost low: { 2 ≤ number },
    ghost high: { number ≤ 3 },
}

impl Base {
    const TWO: Base = Base { number: 2 };

    const THREE: Base = Base { number: 3 };

    // The least power of the base with q at most p times it.
    fn least_power(self, q: u64, p: u64) -> u64
        requires { (q ≤ 60000) × (1 ≤ p) × (p ≤ 60000) }
        ensures { result ≡ least_power self.number q p }
    {
        let mut power = 1;
        let mut reach = p;
        while reach < q {
            power *= self.number;
            reach *= self.number;
        }
        power
    }

    // The largest power of the base with q times it at most `limit`, sought from a power that is small enough.
    fn largest_power(self, q: u64, limit: u64, from: u64) -> u64
        requires { (1 ≤ q) × (limit ≤ 10_800_000_000) × (q * from ≤ limit) × Power self.number from }
        ensures { result ≡ largest_power self.number q limit }
    {
        let mut power = from;
        let mut next = q * from * self.number;
        while next <= limit {
            power *= self.number;
            next *= self.number;
        }
        power
    }
}

// DCT before the pivot, where an accelerated period is q / d: the d of a task with period p, from that of the task after it.
fn down_step(q: u64, p: u64, d: u64) -> u64
    requires { (1 ≤ q) × (q ≤ 60000) × (1 ≤ p) × (p ≤ 60000) × (1 ≤ d) × (d ≤ 120000) }
    ensures { result ≡ down q p d }
{
    d * q.div_ceil(d * p)
}

// DCT after the pivot: the factor of a task with period p, where that of the task before it is m.
fn up_step(q: u64, p: u64, d: u64, m: u64) -> u64
    requires { (1 ≤ q) × (q ≤ 60000) × (p ≤ 60000) × (d ≤ 120000) × (1 ≤ m) × (m ≤ 120000) }
    ensures { result ≡ m * (p * d / (q * m)) }
{
    m * (p * d / (q * m))
}

// DCT: the factors of the tasks before the pivot, and of the pivot, from their d.
fn lower_factors(divisors: [u32; 64], pivot: usize) -> [u32; 64]
    requires { (pivot < 64) × ((k : ℕ) → k ≤ pivot → 0 < at divisors k) }
    ensures { result ≡ padded (map (λ x. at divisors 0 / x) (take (pivot + 1) divisors)) }
{
    let d = divisors[0];
    let mut factors = [0u32; 64];
    for i in 0..=pivot {
        factors[i] = d / divisors[i];
    }
    factors
}

// One task's part of the load: e * d * (last / m).
fn share(e: u16, d: u32, last: u32, m: u32) -> u64
    requires { (d ≤ 120000) × (last ≤ 120000) × (1 ≤ m) }
    ensures { (result ≡ e * d * (last / m)) × (result ≤ 943_704_000_000_000) }
{
    u64::from(e) * u64::from(d) * u64::from(last / m)
}

#[tactic(auto, unfolding(crate::specs::Passing::sorted_periods))]
fn is_sorted(periods: &[u16]) -> bool
    ensures { result ≡ sorted_periods 1 periods.now }
{
    let mut before = 1;
    for &p in periods {
        if !(before..=60_000).contains(&p) {
            return false;
        }
        before = p;
    }
    true
}

#[tactic(auto, unfolding(crate::specs::Passing::task_set))]
fn is_task_set(periods: &[u16], budgets: &[u16]) -> bool
    ensures { result ≡ task_set periods.now budgets.now }
{
    periods.len() <= 64 && periods.len() == budgets.len() && is_sorted(periods)
}

impl TaskSet<'_> {
    // Sr on a base, with the task at place `pivot` as pivot.
    fn sr(&self, base: Base, pivot: usize) -> CoreFigures
        requires { pivot < length self.now.periods.now }
        ensures { result ≡ written (srOf base.number self.now.periods.now pivot) }
    {
        let q = u64::from(self.periods[pivot]);
        let d = base.least_power(q, u64::from(self.periods[0]));
        let mut factors = [0u32; 64];
        let mut power = 1;
        for (i, &p) in self.periods.iter().enumerate() {
            power = base.largest_power(q, u64::from(p) * d, power);
            factors[i] = power as u32;
        }
        CoreFigures {
            pivot: self.periods[pivot],
            divisor: d as u32,
            factors,
        }
    }

    // Whether Sr on a base, with the task at place `pivot` as pivot, is in range and passes; no figure is stored. The last factor is the
    // largest, and not below the divisor.
    fn is_sr_feasible(&self, base: Base, pivot: usize) -> bool
        requires { pivot < length self.now.periods.now }
        ensures { result ≡ feasible self.now.budgets.now (srOf base.number self.now.periods.now pivot) }
    {
        let q = u64::from(self.periods[pivot]);
        let d = base.least_power(q, u64::from(self.periods[0]));
        let last = base.largest_power(q, u64::from(self.periods[self.periods.len() - 1]) * d, 1);
        if 120_000 < last {
            return false;
        }
        let full = q * last;
        let mut total = 0;
        let mut power = 1;
        for (i, &p) in self.periods.iter().enumerate() {
            power = base.largest_power(q, u64::from(p) * d, power);
            total += share(self.budgets[i], d as u32, last as u32, power as u32);
            if full < total {
                return false;
            }
        }
        true
    }

    // DCT: the d of each task before the pivot, and of the pivot.
    fn divisors(&self, pivot: usize) -> [u32; 64]
        requires { pivot < length self.now.periods.now }
        ensures { result ≡ padded (downs (at self.now.periods.now pivot) (take pivot self.now.periods.now)) }
    {
        let q = u64::from(self.periods[pivot]);
        let mut list = [0u32; 64];
        list[pivot] = 1;
        let mut d = 1;
        for i in (0..pivot).rev() {
            d = down_step(q, u64::from(self.periods[i]), d);
            list[i] = d as u32;
        }
        list
    }

    // DCT: the factors of all tasks; those up to the pivot's are given.
    fn upper_factors(&self, pivot: usize, d: u64, lower: [u32; 64]) -> [u32; 64]
        requires { (pivot < length self.now.periods.now) × (d ≡ (dctOf self.now.periods.now pivot).D) × (lower ≡ padded (take (pivot + 1) (dctOf self.now.periods.now pivot).factors)) }
        ensures { result ≡ padded (dctOf self.now.periods.now pivot).factors }
    {
        let q = u64::from(self.periods[pivot]);
        let mut factors = lower;
        let mut m = d;
        for i in pivot + 1..self.periods.len() {
            m = up_step(q, u64::from(self.periods[i]), d, m);
            factors[i] = m as u32;
        }
        factors
    }

    // DCT with the task at place `pivot` as pivot.
    fn dct(&self, pivot: usize) -> CoreFigures
        requires { pivot < length self.now.periods.now }
        ensures { result ≡ written (dctOf self.now.periods.now pivot) }
    {
        let list = self.divisors(pivot);
        let divisor = list[0];
        CoreFigures {
            pivot: self.periods[pivot],
            divisor,
            factors: self.upper_factors(pivot, u64::from(divisor), lower_factors(list, pivot)),
        }
    }

    // Whether the load is at most one with these figures.
    fn passes(&self, f: &CoreFigures) -> bool
        requires { Usable f.now.divisor f.now.factors (length self.now.budgets.now) }
        ensures { result ≡ passesOf self.now.budgets.now (read_back f.now) }
    {
        let last = f.factors[self.budgets.len() - 1];
        let limit = fit::product(f.pivot, last);
        let mut total = 0;
        for (i, &e) in self.budgets.iter().enumerate() {
            total += share(e, f.divisor, last, f.factors[i]);
            if limit < total {
                return false;
            }
        }
        true
    }

    // Whether DCT, with the task at place `pivot` as pivot, is in range and passes.
    fn is_dct_feasible(&self, pivot: usize) -> bool
        requires { pivot < length self.now.periods.now }
        ensures { result ≡ feasible self.now.budgets.now (dctOf self.now.periods.now pivot) }
    {
        self.passes(&self.dct(pivot))
    }

    // The first task by priority with which as pivot Sr on a base is in range and passes.
    fn sr_pivot(&self, base: Base) -> Option<usize>
        ensures { result ≡ find (λ i. feasible self.now.budgets.now (srOf base.number self.now.periods.now i)) (range_with_len 0 (length self.now.periods.now)) }
    {
        (0..self.periods.len()).find(|&i| self.is_sr_feasible(base, i))
    }

    // The same by DCT.
    fn dct_pivot(&self) -> Option<usize>
        ensures { result ≡ find (λ i. feasible self.now.budgets.now (dctOf self.now.periods.now i)) (range_with_len 0 (length self.now.periods.now)) }
    {
        (0..self.periods.len()).find(|&i| self.is_dct_feasible(i))
    }

    // The figures with that pivot, by Sr on a base and by DCT.
    fn first_sr(&self, base: Base) -> Option<CoreFigures>
        ensures { result ≡ outcome (first self.now.budgets.now (select in_range (each_pivot (srOf base.number) self.now.periods.now))) }
    {
        let pivot = self.sr_pivot(base)?;
        Some(self.sr(base, pivot))
    }

    fn first_dct(&self) -> Option<CoreFigures>
        ensures { result ≡ outcome (first self.now.budgets.now (select in_range (each_pivot dctOf self.now.periods.now))) }
    {
        let pivot = self.dct_pivot()?;
        Some(self.dct(pivot))
    }

    // The first of the trials that passes.
    fn first_passing(&self) -> Option<CoreFigures>
        ensures { result ≡ outcome (first self.now.budgets.now (trials self.now.periods.now)) }
    {
        // `or_else` tells the prover nothing of what its closure answers.
        if let Some(figures) = self.first_sr(Base::TWO) {
            return Some(figures);
        }
        if let Some(figures) = self.first_sr(Base::THREE) {
            return Some(figures);
        }
        self.first_dct()
    }
}

// The figures of a core with these tasks, if a construction passes. Anything but a set of tasks (`task_set`) does not pass.
#[tactic(auto, unfolding(crate::specs::Passing::task_set, crate::specs::Passing::first_passing))]
pub fn first_passing(periods: &[u16], budgets: &[u16]) -> Option<CoreFigures>
    ensures { result ≡ outcome (first_passing periods.now budgets.now) }
{
    if !is_task_set(periods, budgets) {
        return None;
    }
    TaskSet { periods, budgets }.first_passing()
}
