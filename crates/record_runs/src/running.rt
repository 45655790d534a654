// The run on a plan file by way of records: one function with plain parameters over the reader and the run on lists of records.
ghost use Rattle.std.specs.Prelude.{◌≡◌, length, IfOk};
ghost use Rattle.mass.specs.Refusal.{number_in};
ghost use Rattle.plan.specs.File.{plan_of};
ghost use Rattle.plan.specs.Calls.{filled};
ghost use Rattle.network.specs.Outage.{intact};
ghost use Rattle.bounds.specs.Bounds.{lower_list, upper_list, EnclosesAll};
ghost use Rattle.bounds.specs.Calls.{totals_of};
ghost use Rattle.record_runs.specs.Running.{file_number};

use crate::run_records;
use bounds::Totals;
use mass::Refusal;
use record_lists::Event;
use record_reading::read_records;

// Reads a plan into a list of records of its own, and runs over all its pairs: fills the two lists with the bounds of the pairs, in order,
// and answers the examined count, complete and E. A refusal changes nothing.
#[tactic(auto, using(crate::proofs::FileLaws::file_refused), unfolding(crate::specs::Running::file_number))]
pub fn run_plan(s: &[u8], lower: &mut [u64], upper: &mut [u64]) -> Result<Totals, Refusal>
    ensures number { number_in result ≡ file_number s.now (length lower.old) (length upper.old) }
    ensures totals { IfOk result (λ t. t ≡ totals_of (plan_of s.now)) }
    ensures lowers { lower.new ≡ filled (number_in result)
        (lower_list intact (plan_of s.now)) lower.old }
    ensures uppers { upper.new ≡ filled (number_in result)
        (upper_list intact (plan_of s.now)) upper.old }
    ensures demand3 { IfOk result (λ t. EnclosesAll intact (plan_of s.now) lower.new upper.new t.count) }
{
    let mut links = [0u8; 256];
    let mut events = [Event {
        probability: 0,
        nodes: 0,
        links_low: 0,
        links_high: 0,
    }; 128];
    let header = read_records(s, &mut links, &mut events)?;
    run_records(header, &links, &events, lower, upper)
}
