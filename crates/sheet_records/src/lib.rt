// Reading an equipment sheet into a lent list of records: document 02, request U2. The functions on lists of records are thin
// over functions on arrays and numbers. Assumes nothing.
#![tactic(auto)]

mod words;

ghost use Rattle.std.specs.Prelude.{◌≡◌, IfOk};
ghost use Rattle.mass.specs.Refusal.{number_in};
ghost use Rattle.plan.specs.Calls.{filled};
ghost use Rattle.record_reading.specs.Filled.{filled_records};
ghost use Rattle.sheets.specs.SheetCalls.{counts_of, read_sheet_number, sheet_words};
ghost use Rattle.sheet_records.specs.SheetRecords.{sheet_records_number, sheet_records};

use mass::Refusal;
use record_lists::{Event, fill, flatten};
use sheets::Counts;
use words::hand_over;

// Reads a sheet into a lent list, a record to an event. A refusal changes nothing.
pub fn read_records(s: &[u8], events: &mut [Event]) -> Result<Counts, Refusal>
    ensures number { number_in result ≡ sheet_records_number s.now events.old }
    ensures counts { IfOk result (λ c. c ≡ counts_of s.now) }
    ensures events { events.new ≡ filled_records (sheet_records_number s.now events.old)
        (sheet_records s.now) events.old }
{
    let mut words = [0u64; 512];
    let counts = sheets::read_core(s, events.len(), &mut words)?;
    fill(&words, events, counts.lines as usize);
    Ok(counts)
}

// Reads a sheet into a list of records of its own, and hands their words over to a lent list, four to an event. A refusal changes
// nothing.
#[tactic(auto, using(crate::proofs::SheetRecordsLaws::sheet_refused))]
pub fn read_by_records(s: &[u8], events: &mut [u64]) -> Result<Counts, Refusal>
    ensures number { number_in result ≡ read_sheet_number s.now events.old }
    ensures counts { IfOk result (λ c. c ≡ counts_of s.now) }
    ensures events { events.new ≡ filled (read_sheet_number s.now events.old)
        (sheet_words s.now) events.old }
{
    let mut list = [Event {
        probability: 0,
        nodes: 0,
        links_low: 0,
        links_high: 0,
    }; 128];
    let mut words = [0u64; 512];
    let counts = read_records(s, &mut list)?;
    flatten(&list, &mut words);
    hand_over(counts.lines as usize, &words, events)?;
    Ok(counts)
}
