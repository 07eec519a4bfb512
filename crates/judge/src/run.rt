// The units of a run of classes.
ghost use Rattle.std.specs.Prelude.{◌≡◌, ◌+◌, ◌≤◌, ◌<◌, length};
ghost use Rattle.plan.specs.Counts.{units, counts_after, counts};

use plan::Counts;

// Classes that are counted at a time: as many as byte counters hold, in turns of 32.
const PART: usize = 224;

// About half of n; of more than 64 a multiple of 64, so that count_part has whole turns.
pub fn half(n: usize) -> usize
    requires { (2 ≤ n) × (n ≤ 1000) }
    ensures { (1 ≤ result) × (result < n) }
{
    if n <= 64 {
        return n / 2;
    }
    (n + 63) / 128 * 64
}

// The units of a part. With byte counters the loop is compiled to vector code, 32 classes a turn.
fn count_part(part: &[u8]) -> Counts
    requires { length part.now ≤ 224 }
    ensures { result ≡ counts part.now }
{
    let mut nongood: u8 = 0;
    let mut bad: u8 = 0;
    for class in part {
        nongood += (*class != 0) as u8;
        bad += (*class == 2) as u8;
    }
    Counts {
        good: part.len() as u32 - u32::from(nongood),
        marginal: u32::from(nongood - bad),
        bad: u32::from(bad),
    }
}

// The counts with a run's classes.
pub fn count_run(run: &[u8], before: Counts) -> Counts
    requires { units before + length run.now ≤ 1000 }
    ensures { result ≡ counts_after before run.now }
{
    let mut c = before;
    for part in run.chunks(PART) {
        c = c + count_part(part);
    }
    c
}
