// Running totals of a harvest: what the first slots harvest, for every number of them, so that the
// harvest of any slots in a row is the difference of two.
#![tactic(auto)]

ghost use Rattle.totals.specs.Totals.{TotalsOf};

// An entry for each number of slots, from none to the longest day's.
pub const ENTRIES: usize = sheet::MOST_SLOTS as usize + 1;

// Entry k is what the first k slots harvest, for every k up to the harvest's length and 1,440; zeros
// beyond.
pub fn running(harvest: &[u8]) -> [u32; ENTRIES]
    ensures { TotalsOf harvest.now result }
{
    let slots = harvest.len().min(usize::from(sheet::MOST_SLOTS));
    let mut sums = [0u32; ENTRIES];
    let mut sum = 0;
    for (k, byte) in harvest[..slots].iter().enumerate() {
        sum += u32::from(sheet::counted(*byte));
        sums[k + 1] = sum;
    }
    sums
}
