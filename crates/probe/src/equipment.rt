// Exports of equipment sheets: the check, and reading into a lent list of words, straight and by way of records.
ghost use Rattle.std.specs.Prelude.{◌≡◌};
ghost use Rattle.plan.specs.Calls.{filled};
ghost use Rattle.sheets.specs.SheetFile.{sheet_refusal};
ghost use Rattle.sheets.specs.SheetCalls.{counts_of, read_sheet_number, sheet_words};
ghost use Rattle.host_answers.specs.Laid.{laid, values_or_zeros};
ghost use Rattle.host_sheets.specs.SheetAnswers.{counts_values};

#[unsafe(no_mangle)]
pub extern "C" fn probe_check_sheet(sheet: &[u8]) -> u32
    ensures { result ≡ sheet_refusal sheet.now }
{
    host_sheets::check(sheet)
}

#[unsafe(no_mangle)]
pub extern "C" fn probe_sheet(sheet: &[u8], events: &mut [u64], counts: &mut [u64]) -> u32
    ensures number { result ≡ read_sheet_number sheet.now events.old }
    ensures events { events.new ≡ filled result (sheet_words sheet.now) events.old }
    ensures counts { counts.new ≡ laid (values_or_zeros 3 result (counts_values (counts_of sheet.now))) counts.old }
{
    host_sheets::read(sheet, events, counts)
}

#[unsafe(no_mangle)]
pub extern "C" fn probe_sheet_records(sheet: &[u8], events: &mut [u64], counts: &mut [u64]) -> u32
    ensures number { result ≡ read_sheet_number sheet.now events.old }
    ensures events { events.new ≡ filled result (sheet_words sheet.now) events.old }
    ensures counts { counts.new ≡ laid (values_or_zeros 3 result (counts_values (counts_of sheet.now))) counts.old }
{
    host_sheets::read_by_records(sheet, events, counts)
}
