// The credit of a pair with its answer as numbers, for the export of crate `probe`: the number of the refusal, or 0, is returned, and the
// values are laid down in a lent list, as far as it has room.
ghost use Rattle.std.specs.Prelude.{◌≡◌};
ghost use Rattle.plan.specs.LentLists.{plan_of_lists, in_words};
ghost use Rattle.network.specs.Outage.{intact};
ghost use Rattle.credits.specs.Credit.{credit_number, credit_of};
ghost use Rattle.host_answers.specs.Laid.{laid, values_or_zeros};
ghost use Rattle.host_readings.specs.CreditAnswers.{word_of, credits_values};

use credits::Credits;
use host_answers::give;
use plan::Header;

// A signed number as an unsigned one: 2^64 is added where it is negative, so that −(k + 1) is k less than 2^64 − 1.
fn word_of(n: i64) -> u64
    ensures { result ≡ word_of n }
{
    if n >= 0 {
        return n as u64;
    }
    18_446_744_073_709_551_615 - ((0 - (n + 1)) as u64)
}

// The lower and the upper credit, and the headroom.
fn credits_values(credits: Credits) -> [u64; 3]
    ensures { result ≡ credits_values credits }
{
    [credits.lower, credits.upper, word_of(credits.headroom)]
}

// The credit of a pair by a contract's fee, limit in seconds and rate: lays down both credits and the headroom.
pub fn credit(
    h: Header,
    links: &[u8],
    events: &[u64],
    v: u64,
    w: u64,
    fee: u64,
    limit: u64,
    rate: u64,
    res: &mut [u64],
) -> u32
    ensures number { result ≡ credit_number (in_words h links.now events.now) v w fee limit rate }
    ensures res { res.new ≡ laid
        (values_or_zeros 3 result (credits_values
        (credit_of intact (plan_of_lists h links.now events.now) v w fee limit rate))) res.old }
{
    let answer = credits::credit(h, links, events, v, w, fee, limit, rate);
    give(answer.map(credits_values), res)
}
