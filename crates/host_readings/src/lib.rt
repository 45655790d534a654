// The answers of the topology list, the figure, the witness and the downtime as numbers, for the exports of crate `probe`, as crate
// `host_answers` has those of the other calls: the number of the refusal, or 0, is returned, and the values are laid down in a lent list, as far
// as it has room. The downtime, which needs no plan, is called here too.
// The credit of a pair stands in a module of its own.
// Assumes nothing.
#![tactic(auto)]

mod credit_words;

ghost use Rattle.std.specs.Prelude.{◌≡◌, IfOk};
ghost use Rattle.mass.specs.Refusal.{number_in};
ghost use Rattle.readings.specs.Figure.{floats_in, Numbers};
ghost use Rattle.readings.specs.Downtime.{downtime_refusal, seconds_of};
ghost use Rattle.host_answers.specs.Laid.{laid, given, values_or_zeros};
ghost use Rattle.host_readings.specs.FurtherAnswers.{entries_values, figure_values, seconds_values, failing_values};

pub use credit_words::credit;
use host_answers::give;
use mass::Refusal;
use readings::{Seconds, Shares};
use walk::Failing;

fn entries_values(count: usize) -> [u64; 1]
    ensures { result ≡ entries_values count }
{
    [count as u64]
}

// How many entries the topology list has.
#[tactic(auto, using(host_answers::proofs::GivenLaws::values_made))]
pub fn give_entries(answer: Result<usize, Refusal>, res: &mut [u64]) -> u32
    ensures number { result ≡ number_in answer }
    ensures res { res.new ≡ laid (given entries_values 1 answer) res.old }
{
    give(answer.map(entries_values), res)
}

// 1 and the bits of the two floats of a figure; three zeros where there is none.
fn figure_values(figure: Option<Shares>) -> [u64; 3]
    requires { Numbers (floats_in figure) }
    ensures { result ≡ figure_values figure }
{
    match figure {
        Some(shares) => [1, shares.disconnected.to_bits(), shares.examined.to_bits()],
        None => [0; 3],
    }
}

// A figure as 1 and the bits of its two floats; where there is none, three zeros.
#[tactic(auto, using(host_answers::proofs::GivenLaws::values_made))]
pub fn give_figure(answer: Result<Option<Shares>, Refusal>, bits: &mut [u64]) -> u32
    requires { IfOk answer (λ f. Numbers (floats_in f)) }
    ensures number { result ≡ number_in answer }
    ensures bits { bits.new ≡ laid (given figure_values 3 answer) bits.old }
{
    give(answer.map(figure_values), bits)
}

fn seconds_values(seconds: Seconds) -> [u64; 2]
    ensures { result ≡ seconds_values seconds }
{
    [seconds.lower, seconds.upper]
}

// The downtime of a lower and an upper mass: lays down the seconds of both.
pub fn downtime(lower: u64, upper: u64, res: &mut [u64]) -> u32
    ensures number { result ≡ downtime_refusal lower upper }
    ensures res { res.new ≡ laid
        (values_or_zeros 2 result (seconds_values (seconds_of lower upper))) res.old }
{
    give(readings::downtime(lower, upper).map(seconds_values), res)
}

fn failing_values(set: Failing) -> [u64; 2]
    ensures { result ≡ failing_values set }
{
    [set.low, set.high]
}

// The two words of the set of failing events.
#[tactic(auto, using(host_answers::proofs::GivenLaws::values_made))]
pub fn give_failing(answer: Result<Failing, Refusal>, res: &mut [u64]) -> u32
    ensures number { result ≡ number_in answer }
    ensures res { res.new ≡ laid (given failing_values 2 answer) res.old }
{
    give(answer.map(failing_values), res)
}
