// Equipment sheets with their answers as numbers, for the exports of crate `probe`: the number of the refusal, or 0, is returned, and the
// counts are laid down in a lent list, as far as it has room.
// Assumes nothing.
#![tactic(auto)]

ghost use Rattle.std.specs.Prelude.{◌≡◌};
ghost use Rattle.mass.specs.Refusal.{number_in};
ghost use Rattle.plan.specs.Calls.{filled};
ghost use Rattle.sheets.specs.SheetFile.{sheet_refusal};
ghost use Rattle.sheets.specs.SheetCalls.{counts_of, read_sheet_number, sheet_words};
ghost use Rattle.host_answers.specs.Laid.{laid, given, values_or_zeros};
ghost use Rattle.host_sheets.specs.SheetAnswers.{counts_values};

use host_answers::give;
use mass::Refusal;
use sheets::Counts;

// The counts of a sheet: nodes, links and lines.
fn counts_values(c: Counts) -> [u64; 3]
    ensures { result ≡ counts_values c }
{
    [c.nodes, c.links, c.lines]
}

// The counts of an answer, zeros where it is a refusal, and its number.
fn give_counts(answer: Result<Counts, Refusal>, counts: &mut [u64]) -> u32
    ensures number { result ≡ number_in answer }
    ensures counts { counts.new ≡ laid (given counts_values 3 answer) counts.old }
{
    give(Ok(counts_values(sheets::counts_in(answer))), counts);
    sheets::number_in(answer)
}

// Checks a sheet.
pub fn check(sheet: &[u8]) -> u32
    ensures { result ≡ sheet_refusal sheet.now }
{
    mass::number_in(&sheets::check(sheet))
}

// Reads a sheet into a lent list of words, and lays down its counts of nodes, links and lines.
pub fn read(sheet: &[u8], events: &mut [u64], counts: &mut [u64]) -> u32
    ensures number { result ≡ read_sheet_number sheet.now events.old }
    ensures events { events.new ≡ filled result (sheet_words sheet.now) events.old }
    ensures counts { counts.new ≡ laid (values_or_zeros 3 result (counts_values (counts_of sheet.now))) counts.old }
{
    give_counts(sheets::read(sheet, events), counts)
}

// The same by way of records.
pub fn read_by_records(sheet: &[u8], events: &mut [u64], counts: &mut [u64]) -> u32
    ensures number { result ≡ read_sheet_number sheet.now events.old }
    ensures events { events.new ≡ filled result (sheet_words sheet.now) events.old }
    ensures counts { counts.new ≡ laid (values_or_zeros 3 result (counts_values (counts_of sheet.now))) counts.old }
{
    give_counts(sheet_records::read_by_records(sheet, events), counts)
}
