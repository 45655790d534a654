// Reading a sheet into a lent list: its lines become events in falling probability. A first pass only checks, so that a refusal changes
// nothing.
ghost use Rattle.std.specs.Prelude.{◌≡◌, map, ◌+◌, ◌≤◌, min, length, drop, IfOk};
ghost use Rattle.std.proofs.lemmas.List.Edits.{sets};
ghost use Rattle.mass.specs.Refusal.{number_in};
ghost use Rattle.mass.specs.Split.{certain};
ghost use Rattle.plan.specs.Plan.{Event};
ghost use Rattle.plan.specs.Lists.{event_words};
ghost use Rattle.plan.specs.Calls.{filled};
ghost use Rattle.sheet_order.specs.Order.{ordered};
ghost use Rattle.sheets.specs.Sheet.{unavailability, event_of_line};
ghost use Rattle.sheets.specs.SheetFile.{lines_refusal, line_in, lines_at};
ghost use Rattle.sheets.specs.SheetCalls.{counts_of, read_sheet_refusal, read_sheet_number, counts_in, sheet_words};

use crate::Counts;
use crate::file::{check, line_size, product};
use mass::Refusal;
use plan::{byte_at, number_at};

// The probability of the line at a position, or 10^9 + 1 where it is more.
fn line_probability(s: &[u8], at: usize) -> u64
    requires { at + 13 ≤ length s.now }
    ensures { result ≡ min (unavailability (line_in (drop at s.now))) (certain + 1) }
{
    product(
        number_at(s, at, 4),
        number_at(s, at + 4, 4),
        number_at(s, at + 8, 4),
    )
}

// Lays down the words of the events of the lines, which are accepted, in falling probability.
fn fill_lines(s: &[u8], start: usize, count: u64, nodes: u64, links: u64, words: &mut [u64; 512])
    requires nodes_bound { (nodes ≤ 64) × (links ≤ 128) × (count ≤ 128) }
    requires s_value { lines_refusal nodes links count (drop start s.now) ≡ 0 }
    ensures { words.new ≡ sets words.old 0
        (event_words (ordered (λ (e : Event). e.probability) (map event_of_line (lines_at count (drop start s.now))))) }
{
    let mut at = start;
    // The lines that are left, from `at` on, are accepted; the first `done` events are those of the lines before them, in order, and the
    // words after them are untouched.
    for done in 0..count as usize {
        let members = plan_reading::members_of(s, at + 13, byte_at(s, at + 12), nodes, links);
        sheet_order::insert(&mut *words, done, line_probability(s, at), members);
        at += line_size(s, at);
    }
}

// The counts in the header.
fn counts_of(s: &[u8]) -> Counts
    requires { 8 ≤ length s.now }
    ensures { result ≡ counts_of s.now }
{
    Counts {
        nodes: byte_at(s, 5),
        links: byte_at(s, 6),
        lines: byte_at(s, 7),
    }
}

// The tests of a reading: those of the sheet, then 12.
#[tactic(auto, using(mass::proofs::RefusalLaws::refuses), unfolding(crate::specs::SheetCalls::read_sheet_refusal))]
fn read_test(s: &[u8], room: usize) -> Result<(), Refusal>
    ensures { number_in result ≡ read_sheet_refusal room s.now }
{
    check(s)?;
    refusals::room_test(room, byte_at(s, 7) as usize)
}

// Reads a sheet into the array, where the lent list has room for `room` whole events.
pub fn read_core(s: &[u8], room: usize, words: &mut [u64; 512]) -> Result<Counts, Refusal>
    ensures number { number_in result ≡ read_sheet_refusal room s.now }
    ensures counts { IfOk result (λ c. c ≡ counts_of s.now) }
    ensures words { words.new ≡ filled (read_sheet_refusal room s.now)
        (sheet_words s.now) words.old }
{
    read_test(s, room)?;
    let counts = counts_of(s);
    fill_lines(s, 8, counts.lines, counts.nodes, counts.links, words);
    Ok(counts)
}

// The number of an answer.
pub fn number_in(answer: Result<Counts, Refusal>) -> u32
    ensures { result ≡ number_in answer }
{
    mass::number_in(&answer)
}

// The counts of an answer: all are 0 where it refuses.
pub fn counts_in(answer: Result<Counts, Refusal>) -> Counts
    ensures { result ≡ counts_in answer }
{
    answer.unwrap_or(Counts {
        nodes: 0,
        links: 0,
        lines: 0,
    })
}

// Reads a sheet into a lent list, four words to an event. A refusal changes nothing.
pub fn read(s: &[u8], events: &mut [u64]) -> Result<Counts, Refusal>
    ensures number { number_in result ≡ read_sheet_number s.now events.old }
    ensures counts { IfOk result (λ c. c ≡ counts_of s.now) }
    ensures events { events.new ≡ filled (read_sheet_number s.now events.old)
        (sheet_words s.now) events.old }
{
    let mut words = [0u64; 512];
    let counts = read_core(s, events.len() / 4, &mut words)?;
    plan_lists::copy_first(&words, events, 0, 4 * (counts.lines as usize));
    Ok(counts)
}
