// Sums over a sitting.

#![tactic(auto)]

ghost use Rattle.std.specs.Prelude.{◌≡◌};
ghost use Rattle.definition_sums.specs.Sums as Sums;
ghost use Rattle.sums.specs.View.{sums_of};

use refusals::Refusal;

const MAX_SITTING: usize = 8192;

/// The greatest verdict number in use.
pub const GREATEST_NUMBER: u32 = 30;

/// How many verdict numbers there are, from 0 to the greatest in use.
pub const NUMBERS: usize = 31;

/// How often each verdict number occurred, from 0 to the greatest in use; sum and count of the peaks of the accepted.
#[derive(Clone, Copy, Debug, PartialEq, Eq)]
pub struct SittingSums {
    pub counts: [u32; NUMBERS],
    pub sum: u64,
    pub count: u32,
}

// Numbers by turns, and no pairs: so C callers lend them.
/// The sums over a list of verdict numbers and peaks by turns: at most 8,192 numbers, an even count of them, and no verdict
/// number above the greatest in use.
pub fn sums(sitting: &[u32]) -> Result<SittingSums, Refusal>
    ensures { sums_of result ≡ Sums.sums sitting.now }
{
    let (pairs, rest) = sitting.as_chunks::<2>();
    if sitting.len() > MAX_SITTING || !rest.is_empty() {
        return Err(Refusal::BadSitting);
    }
    let mut counts = [0; NUMBERS];
    let mut sum = 0;
    for &[number, peak] in pairs {
        if number > GREATEST_NUMBER {
            return Err(Refusal::BadSitting);
        }
        counts[number as usize] += 1;
        if number == 0 {
            sum += u64::from(peak);
        }
    }
    Ok(SittingSums {
        counts,
        sum,
        count: counts[0],
    })
}
