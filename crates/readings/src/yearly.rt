// Downtime: the seconds of a year of 365 days that a lower and an upper mass stand for.
ghost use Rattle.std.specs.Prelude.{◌≡◌, ◌+◌, ◌*◌, ◌/◌, ◌≤◌, IfOk, OnErr};
ghost use Rattle.mass.specs.Refusal.{number_in};
ghost use Rattle.mass.specs.Split.{whole};
ghost use Rattle.readings.specs.Downtime.{downtime_refusal, seconds_of, EnclosesDowntime, NoBounds};

use crate::Seconds;
use mass::Refusal;

// 31,536,000 seconds over 10^18 is 1971 over this number.
const PARTS: u64 = 62_500_000_000_000;

// (m × 1971 + added) ÷ PARTS: with 0 added the seconds of a mass are rounded down, with PARTS − 1 up. There is no wider integer, so it goes
// by the mass's quotient and remainder.
fn seconds_with(m: u64, added: u64) -> u64
    requires { (m ≤ whole) × (added ≤ 62500000000000) }
    ensures { result ≡ (m * 1971 + added) / 62500000000000 }
{
    m / PARTS * 1971 + (m % PARTS * 1971 + added) / PARTS
}

// The seconds of a lower and an upper mass of at most one whole each.
pub fn seconds_of(lower: u64, upper: u64) -> Seconds
    requires { (lower ≤ whole) × (upper ≤ whole) }
    ensures { result ≡ seconds_of lower upper }
{
    Seconds {
        lower: seconds_with(lower, 0),
        upper: seconds_with(upper, PARTS - 1),
    }
}

// The downtime of a lower and an upper mass: each times 31,536,000 seconds, over 10^18, the lower one rounded down and the upper one up.
// Where the two are the bounds of a pair, with planned work or without, nothing is refused, and its exact downtime lies between the two
// answers.
#[tactic(auto, using(mass::proofs::RefusalLaws::refuses))]
pub fn downtime(lower: u64, upper: u64) -> Result<Seconds, Refusal>
    ensures number { number_in result ≡ downtime_refusal lower upper }
    ensures seconds { IfOk result (λ s. s ≡ seconds_of lower upper) }
    ensures enclosed { IfOk result (λ s. EnclosesDowntime lower upper s) }
    ensures given { OnErr result (NoBounds lower upper) }
{
    mass::mass_test(lower)?;
    mass::mass_test(upper)?;
    Ok(seconds_of(lower, upper))
}
