// Service credits: document 02, request U6. A contract has a yearly fee, a limit in seconds a year, and a rate for each started minute of
// downtime above the limit; fee, rate and credits are in cents.
// Assumes nothing.
#![tactic(auto)]

ghost use Rattle.std.specs.Prelude.{◌≡◌, ◌≤◌, IfOk, OnOk};
ghost use Rattle.mass.specs.Refusal.{number_in};
ghost use Rattle.mass.specs.Split.{whole};
ghost use Rattle.plan.specs.LentLists.{plan_of_lists, in_words};
ghost use Rattle.network.specs.Outage.{intact};
ghost use Rattle.readings.specs.Downtime.{year, seconds_of};
ghost use Rattle.credits.specs.Credit.{most_cents, terms_test, credit_for, headroom_of, credits_of};
ghost use Rattle.credits.specs.Credit.{credit_number, credit_of, exact_credit, CreditWithin};

use mass::Refusal;
use plan::Header;

// The credits of a pair for its lower and its upper downtime, and the headroom: the limit minus the upper downtime, in seconds.
#[derive(Clone, Copy)]
pub struct Credits {
    pub lower: u64,
    pub upper: u64,
    pub headroom: i64,
}

// The most cents of a fee or a rate, and the seconds of 365 days.
const MOST_CENTS: u64 = 1_000_000_000_000;

const YEAR: u64 = 31_536_000;

// 20: the fee, the rate or the limit is too high.
fn terms_test(fee: u64, limit: u64, rate: u64) -> Result<(), Refusal>
    ensures number { number_in result ≡ terms_test fee limit rate }
    ensures in_range { OnOk result ((limit ≤ year) × (rate ≤ most_cents)) }
{
    Refusal::Terms.when(MOST_CENTS < fee || MOST_CENTS < rate || YEAR < limit)
}

// The credit for a downtime in whole seconds: the rate times the started minutes above the limit, or the fee if less.
fn credit_for(fee: u64, limit: u64, rate: u64, seconds: u64) -> u64
    requires { (rate ≤ most_cents) × (seconds ≤ year) }
    ensures { result ≡ credit_for fee limit rate 1 seconds }
{
    let due = rate * ((seconds.saturating_sub(limit) + 59) / 60);
    due.min(fee)
}

// The headroom.
fn headroom_of(limit: u64, seconds: u64) -> i64
    requires { (limit ≤ year) × (seconds ≤ year) }
    ensures { result ≡ headroom_of limit seconds }
{
    limit as i64 - seconds as i64
}

// The credits of a pair with these bounds, by terms that are in range.
fn credits_of(lower: u64, upper: u64, fee: u64, limit: u64, rate: u64) -> Credits
    requires masses { (lower ≤ whole) × (upper ≤ whole) }
    requires in_range { (limit ≤ year) × (rate ≤ most_cents) }
    ensures { result ≡ credits_of fee limit rate (seconds_of lower upper) }
{
    let seconds = readings::seconds_of(lower, upper);
    let headroom = headroom_of(limit, seconds.upper);
    Credits {
        lower: credit_for(fee, limit, rate, seconds.lower),
        upper: credit_for(fee, limit, rate, seconds.upper),
        headroom,
    }
}

// The credits of a pair by a contract, for its lower and its upper downtime, and the headroom. The credit of the exact downtime lies
// between the two.
#[tactic(auto, using(mass::proofs::RefusalLaws::refuses), unfolding(crate::specs::Credit::credit_number))]
pub fn credit(
    h: Header,
    links: &[u8],
    events: &[u64],
    v: u64,
    w: u64,
    fee: u64,
    limit: u64,
    rate: u64,
) -> Result<Credits, Refusal>
    ensures number { number_in result ≡ credit_number (in_words h links.now events.now) v w fee limit rate }
    ensures credits { IfOk result (λ c. c ≡ credit_of intact (plan_of_lists h links.now events.now) v w fee limit rate) }
    ensures ordered { IfOk result (λ c. c.lower ≤ c.upper) }
    ensures enclosed { IfOk result (λ c.
        CreditWithin (exact_credit intact (plan_of_lists h links.now events.now) v w fee limit rate) c) }
{
    let bounds = bounds::pair(h, links, events, v, w)?;
    terms_test(fee, limit, rate)?;
    Ok(credits_of(bounds.lower, bounds.upper, fee, limit, rate))
}
