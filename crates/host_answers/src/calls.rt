// The answers of reading, writing, the run and the bounds of a pair.
#![tactic(auto, using(crate::proofs::GivenLaws::values_made))]

ghost use Rattle.std.specs.Prelude.{◌≡◌};
ghost use Rattle.mass.specs.Refusal.{number_in};
ghost use Rattle.host_answers.specs.Laid.{laid, given};
ghost use Rattle.host_answers.specs.Answers.{header_values, size_values, totals_values, bounds_values};

use crate::lay::give;
use bounds::{PairBounds, Totals};
use mass::Refusal;
use plan::Header;

fn header_values(h: Header) -> [u64; 5]
    ensures { result ≡ header_values h }
{
    [h.nodes, h.links, h.events, h.threshold, h.cap]
}

// The five numbers of the plan that was read.
pub fn give_header(answer: Result<Header, Refusal>, numbers: &mut [u64]) -> u32
    ensures number { result ≡ number_in answer }
    ensures numbers { numbers.new ≡ laid (given header_values 5 answer) numbers.old }
{
    give(answer.map(header_values), numbers)
}

fn size_values(count: usize) -> [u64; 1]
    ensures { result ≡ size_values count }
{
    [count as u64]
}

// The size of what was written.
pub fn give_size(answer: Result<usize, Refusal>, size: &mut [u64]) -> u32
    ensures number { result ≡ number_in answer }
    ensures size { size.new ≡ laid (given size_values 1 answer) size.old }
{
    give(answer.map(size_values), size)
}

fn totals_values(totals: Totals) -> [u64; 3]
    ensures { result ≡ totals_values totals }
{
    [totals.count, totals.complete, totals.mass]
}

// The examined count, complete and E.
pub fn give_totals(answer: Result<Totals, Refusal>, res: &mut [u64]) -> u32
    ensures number { result ≡ number_in answer }
    ensures res { res.new ≡ laid (given totals_values 3 answer) res.old }
{
    give(answer.map(totals_values), res)
}

fn bounds_values(bounds: PairBounds) -> [u64; 2]
    ensures { result ≡ bounds_values bounds }
{
    [bounds.lower, bounds.upper]
}

// The lower and the upper bound.
pub fn give_pair(answer: Result<PairBounds, Refusal>, res: &mut [u64]) -> u32
    ensures number { result ≡ number_in answer }
    ensures res { res.new ≡ laid (given bounds_values 2 answer) res.old }
{
    give(answer.map(bounds_values), res)
}
