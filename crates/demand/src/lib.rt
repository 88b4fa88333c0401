// The search for the overloaded interval that comes first.
#![tactic(auto)]

ghost use Rattle.std.specs.Prelude.{◌≡◌, List, cond, ℕ, ◌<◌, ◌≤◌};
ghost use Rattle.sheet.specs.HandedIn.{on_table};
ghost use Rattle.sheet.specs.Table.{most_jobs, day_of};
ghost use Rattle.columns.specs.Columns.{ColumnsOf};
ghost use Rattle.totals.specs.Totals.{Summed};
ghost use Rattle.interval.specs.declared.Kind.TheVariants.{Time, Energy};
ghost use Rattle.demand.specs.Search.{found_at, latest_start, first_overload, Searches};
ghost use Rattle.demand.specs.Steps.{Totalled, DueBy, DemandsOf, Finds, NextDeadline};

pub use interval::Kind;
use sheet::{CheckedDay, Refusal, Table};
use std::fmt;

// An overloaded interval, the slots from `from` up to, not including, `to`: what its jobs demand in
// that kind is above what it can supply.
#[derive(Clone, Copy, Debug, PartialEq, Eq)]
pub struct Overload {
    pub kind: Kind,
    pub from: u16,
    pub to: u16,
    pub demand: u32,
    pub supply: u32,
}

// A table's jobs by columns, as `columns::by_columns` answers them.
type Columns = [u16; columns::LENGTH];

// The running totals of a harvest, as `totals::running` answers them.
type Totals = [u32; totals::ENTRIES];

// The amount where it counts, otherwise 0.
fn counted_if(counts: bool, amount: u32) -> u32
    ensures { (result ≡ cond counts amount 0) × (result ≤ amount) }
{
    if counts { amount } else { 0 }
}

// A day as the search reads it: its table, the table's jobs by columns, and the running totals of its
// harvest; and what it needs to know of them.
#[derive(Clone, Copy)]
struct Accepted<'a> {
    table: &'a Table,
    columns: &'a Columns,
    totals: &'a Totals,
    ghost few: { table.now.count ≤ most_jobs },
    ghost by_columns: { ColumnsOf table.now columns.now },
    ghost totalled: { Totalled table.now.slots totals.now },
}

// What each job demands, of each kind.
#[derive(Drop)]
struct Shares {
    time: [u32; sheet::MOST_JOBS],
    energy: [u32; sheet::MOST_JOBS],
}

// The jobs of a day that are due by an end: the share of each that is, and zero where a deadline comes later.
#[derive(Clone, Copy)]
struct Due<'a> {
    day: Accepted<'a>,
    to: u16,
    shares: &'a Shares,
    ghost in_day: { to ≤ day.table.now.slots },
    ghost time: { DueBy Time day.table.now day.table.now.count to shares.now.time },
    ghost energy: { DueBy Energy day.table.now day.table.now.count to shares.now.energy },
}

// What the jobs of an interval demand, of each kind.
#[derive(Clone, Copy)]
struct Demands {
    time: u32,
    energy: u32,
}

impl<'a> Accepted<'a> {
    // What is due by an end, by the shares that are set for it. Every number is loaded before it is known to
    // count, here and in `demands`: a load under an `if` would keep the loop from being run several jobs at a time.
    fn due_by(self, to: u16, shares: &'a mut Shares) -> Due<'a>
        requires { to ≤ self.table.now.slots }
        ensures same_table { result.day.table.now ≡ self.entry.table.now }
        ensures same_totals { result.day.totals.now ≡ self.entry.totals.now }
        ensures end { result.to ≡ to }
    {
        let columns = self.columns;
        for k in 0..self.table.count {
            let wanted = u32::from(columns[columns::WANTED + k]);
            let costs = wanted * u32::from(columns[columns::ENERGY + k]);
            let counts = columns[columns::DEADLINE + k] <= to;
            shares.time[k] = counted_if(counts, wanted);
            shares.energy[k] = counted_if(counts, costs);
        }
        Due {
            day: self,
            to,
            shares,
        }
    }

    // The first deadline after a slot. The least so far begins above all of the day, as a plain number, so that
    // this loop too runs several jobs at a time.
    fn next_deadline(&self, after: u16) -> Option<u16>
        ensures { NextDeadline self.now.table.now after result }
    {
        let slots = self.table.slots;
        let mut least = slots + 1;
        let columns = self.columns;
        for &own in &columns[columns::DEADLINE..columns::DEADLINE + self.table.count] {
            if after < own && own < least {
                least = own;
            }
        }
        if least <= slots { Some(least) } else { None }
    }
}

impl Due<'_> {
    // The demands of the interval from this start to the end: of the jobs that are due, those with a release
    // at or after the start.
    fn demands(&self, from: u16) -> Demands
        ensures { DemandsOf self.now.day.table.now from self.now.to result }
    {
        let releases = self.day.columns;
        let shares = self.shares;
        let mut time: u32 = 0;
        let mut energy: u32 = 0;
        for k in 0..self.day.table.count {
            let counts = from <= releases[k];
            time += counted_if(counts, shares.time[k]);
            energy += counted_if(counts, shares.energy[k]);
        }
        Demands { time, energy }
    }

    // The interval from this start to the end: time before energy.
    fn found_at(&self, from: u16) -> Option<Overload>
        requires { from < self.now.to }
        ensures { Finds self.now.day.table.now self.now.day.totals.now (λ d. found_at d from self.now.to) result }
    {
        let to = self.to;
        let totals = self.day.totals;
        let sums = self.demands(from);
        let slots = u32::from(to - from);
        let supply = u32::from(self.day.table.capacity) + totals[usize::from(to)]
            - totals[usize::from(from)];
        if slots < sums.time {
            return Some(Overload {
                kind: Kind::Time,
                from,
                to,
                demand: sums.time,
                supply: slots,
            });
        }
        if supply < sums.energy {
            return Some(Overload {
                kind: Kind::Energy,
                from,
                to,
                demand: sums.energy,
                supply,
            });
        }
        None
    }

    // The overloaded interval with the latest start among those from a job's release to the end. A start that
    // comes no later than what is found already is not tried.
    fn latest_start(&self) -> Option<Overload>
        ensures { Finds self.now.day.table.now self.now.day.totals.now (λ d. latest_start d self.now.to self.now.to) result }
    {
        let mut latest = None;
        let mut earliest: u16 = 0;
        let releases = self.day.columns;
        for &from in &releases[..self.day.table.count] {
            if earliest <= from && from < self.to {
                let found = self.found_at(from);
                if let Some(_) = found {
                    latest = found;
                    earliest = from + 1;
                }
            }
        }
        latest
    }
}

// The overloaded interval of a day with the smallest end, then the latest start, time before energy: the
// deadlines upwards. For whoever has checked the table with a harvest and has the running totals of that
// harvest: `search` here, and the planner.
pub fn first_overload(t: &Table, totals: &[u32; totals::ENTRIES]) -> Option<Overload>
    requires { (harvest : List ℕ) × Summed (day_of t.now harvest) totals.now }
    ensures { (harvest : List ℕ) → Summed (day_of t.now harvest) totals.now → result ≡ first_overload (day_of t.now harvest) }
{
    let columns = columns::by_columns(t);
    let day = Accepted {
        table: t,
        columns: &columns,
        totals,
    };
    let mut shares = Shares {
        time: [0; sheet::MOST_JOBS],
        energy: [0; sheet::MOST_JOBS],
    };
    let mut after = 0;
    while let Some(to) = day.next_deadline(after) {
        let found = day.due_by(to, &mut shares).latest_start();
        if let Some(_) = found {
            return found;
        }
        after = to;
    }
    None
}

// Searches a table and its harvest for an overloaded interval: the one that comes first, or none. It takes
// any table and any harvest and refuses what `sheet::check` refuses: 3, 4, 5 or 6.
pub fn search(t: Table, harvest: &[u8]) -> Result<Option<Overload>, Refusal>
    ensures { Searches (on_table t harvest.now) result }
{
    let day = CheckedDay::new(&t, harvest)?;
    let totals = totals::running(day.harvest);
    Ok(first_overload(day.table, &totals))
}

impl fmt::Display for Overload {
    fn fmt<W: fmt::Write>(&self, f: &mut fmt::Formatter<W>) -> fmt::Result {
        let o = *self;
        write!(
            f,
            "{} {} {} demand {} supply {}",
            o.kind, o.from, o.to, o.demand, o.supply
        )
    }
}
