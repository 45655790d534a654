// Holding a sheet to its number, and a reading to its counts. Lists hold a pattern, word 77, before the call.
ghost use Rattle.std.specs.Prelude.{◌≡◌};
ghost use Rattle.plan.specs.Calls.{filled};
ghost use Rattle.sheets.specs.SheetCalls.{read_sheet_number, sheet_words};

use std::io;
use trials_vectors::{WORD, all_same, same_part};

// Holds a sheet to its number, by the check and by a reading into a list with room for every sheet. A refusal changes nothing.
pub fn number(rt: &impl Print, label: &[u8], sheet: &[u8], want: u64) -> io::Result<()> {
    let mut events = [WORD; 512];
    let checked = mass::number_in(&sheets::check(sheet));
    same_part(rt, label, b"checked", checked as u64, want)?;
    let answer = sheets::read(sheet, &mut events);
    same_part(rt, label, b"read", sheets::number_in(answer) as u64, want)?;
    if want != 0 {
        all_same(rt, label, &events, WORD)?;
    }
    Ok(())
}

// Reads a sheet into a list, and holds its answer to no refusal and to these counts.
pub fn counts(
    rt: &impl Print,
    label: &[u8],
    sheet: &[u8],
    events: &mut [u64],
    nodes: u64,
    links: u64,
    lines: u64,
) -> io::Result<()>
    ensures { events.new ≡ filled (read_sheet_number sheet.now events.old)
        (sheet_words sheet.now) events.old }
{
    let answer = sheets::read(sheet, events);
    let c = sheets::counts_in(answer);
    same_part(rt, label, b"number", sheets::number_in(answer) as u64, 0)?;
    same_part(rt, label, b"nodes", c.nodes, nodes)?;
    same_part(rt, label, b"links", c.links, links)?;
    same_part(rt, label, b"lines", c.lines, lines)
}
