// A table's jobs by columns, in one array: a sum over all jobs runs over columns several times as fast
// as over the table. Whoever sums makes them for itself; no call of another crate is handed columns.
#![tactic(auto)]

ghost use Rattle.columns.specs.Columns.{ColumnsOf};

use sheet::Table;

// Where each column begins; the releases begin at 0.
pub const DEADLINE: usize = sheet::MOST_JOBS;

pub const WANTED: usize = 2 * sheet::MOST_JOBS;

pub const ENERGY: usize = 3 * sheet::MOST_JOBS;

// Four columns.
pub const LENGTH: usize = 4 * sheet::MOST_JOBS;

// The release, the deadline, the slots wanted and the energy of job k stand at k, 64 + k, 128 + k and
// 192 + k, for each of the first 64 jobs; zeros in the other places.
pub fn by_columns(t: &Table) -> [u16; LENGTH]
    ensures { ColumnsOf t.now result }
{
    let count = t.count.min(sheet::MOST_JOBS);
    let mut columns = [0u16; LENGTH];
    for k in 0..count {
        let j = t.jobs[k];
        columns[k] = j.release;
        columns[DEADLINE + k] = j.deadline;
        columns[WANTED + k] = j.wanted;
        // read where it stands, so that the proof knows it for a byte
        columns[ENERGY + k] = u16::from(t.jobs[k].energy);
    }
    columns
}
