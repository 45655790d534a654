// Copying a plan file by way of records: one function with plain parameters over the reader and the writer on lists of records.
ghost use Rattle.std.specs.Prelude.{◌≡◌, length, IfOk};
ghost use Rattle.mass.specs.Refusal.{number_in};
ghost use Rattle.plan.specs.Calls.{filled};
ghost use Rattle.record_runs.specs.Copying.{copy_number};

use mass::Refusal;
use record_lists::{Event, write_records};
use record_reading::read_records;

// Reads a plan into a list of records of its own, and writes it again: the bytes that are accepted are copied. A refusal changes nothing.
#[tactic(auto, using(crate::proofs::FileLaws::file_refused), unfolding(crate::specs::Copying::copy_number))]
pub fn copy_plan(s: &[u8], out: &mut [u8]) -> Result<usize, Refusal>
    ensures number { number_in result ≡ copy_number s.now (length out.old) }
    ensures size { IfOk result (λ n. n ≡ length s.now) }
    ensures out { out.new ≡ filled (number_in result) s.now out.old }
{
    let mut links = [0u8; 256];
    let mut events = [Event {
        probability: 0,
        nodes: 0,
        links_low: 0,
        links_high: 0,
    }; 128];
    let header = read_records(s, &mut links, &mut events)?;
    write_records(header, &links, &events, out)
}
