// The check of a sheet file: the refusal of its bytes, if they are no sheet.
ghost use Rattle.std.specs.Prelude.{◌≡◌, ◌+◌, ◌*◌, ◌≤◌, min, length, drop, OnOk};
ghost use Rattle.mass.specs.Refusal.{number_in};
ghost use Rattle.mass.specs.Split.{certain};
ghost use Rattle.sheets.specs.SheetFile.{product_test, lines_test, sheet_header_refusal, line_refusal, line_size, lines_refusal, sheet_refusal};

use mass::{CERTAIN, Refusal};
use plan::{byte_at, left_of, number_at};

// The product of FIT, hours and length, or 10^9 + 1 where it is more.
pub fn product(fit: u64, hours: u64, extent: u64) -> u64
    ensures { result ≡ min (fit * hours * extent) (certain + 1) }
{
    fit.saturating_mul(hours)
        .saturating_mul(extent)
        .min(CERTAIN + 1)
}

// 17: the product of FIT, hours and length is above 10^9.
fn product_test(fit: u64, hours: u64, extent: u64) -> Result<(), Refusal>
    ensures { number_in result ≡ product_test fit hours extent }
{
    Refusal::Product.when(CERTAIN < product(fit, hours, extent))
}

// 18: more than 128 lines.
fn lines_test(lines: u64) -> Result<(), Refusal>
    ensures { number_in result ≡ lines_test lines }
{
    Refusal::Lines.when(128 < lines)
}

// 1 for the header, then 2, 3, 4.
#[tactic(auto, using(mass::proofs::RefusalLaws::refuses), unfolding(crate::specs::SheetFile::sheet_header_refusal))]
fn header_refusal(s: &[u8]) -> Result<(), Refusal>
    ensures number { number_in result ≡ sheet_header_refusal s.now }
    ensures there { OnOk result (8 ≤ length s.now) }
{
    refusals::short_test(s.len(), 8)?;
    refusals::mark_test(69, 81, 83, byte_at(s, 0), byte_at(s, 1), byte_at(s, 2))?;
    refusals::version_test(number_at(s, 3, 2))?;
    refusals::counts_test(byte_at(s, 5), byte_at(s, 6), 0)
}

// A line: 1, then each member, then 17.
#[tactic(auto, using(mass::proofs::RefusalLaws::refuses), unfolding(crate::specs::SheetFile::line_refusal))]
fn line_refusal(s: &[u8], at: usize, nodes: u64, links: u64) -> Result<(), Refusal>
    ensures number { number_in result ≡ line_refusal nodes links (drop at s.now) }
    ensures there { OnOk result (at + 13 ≤ length s.now) }
{
    refusals::short_test(left_of(s, at), 13)?;
    plan::members_refusal(s, at + 13, byte_at(s, at + 12), nodes, links)?;
    product_test(
        number_at(s, at, 4),
        number_at(s, at + 4, 4),
        number_at(s, at + 8, 4),
    )
}

// How many bytes a line takes.
pub fn line_size(s: &[u8], at: usize) -> usize
    requires { at + 13 ≤ length s.now }
    ensures { result ≡ line_size (drop at s.now) }
{
    13 + 2 * (byte_at(s, at + 12) as usize)
}

// All lines, then 11.
#[tactic(auto, using(mass::proofs::RefusalLaws::refuses))]
fn lines_refusal(s: &[u8], start: usize, count: u64, nodes: u64, links: u64) -> Result<(), Refusal>
    ensures { number_in result ≡ lines_refusal nodes links count (drop start s.now) }
{
    let mut at = start;
    // The lines that are left, from `at` on, and the bytes after them, are refused as the whole is: the lines before them pass.
    for _ in 0..count {
        line_refusal(s, at, nodes, links)?;
        at += line_size(s, at);
    }
    refusals::left_test(left_of(s, at))
}

// The refusal of the bytes of a sheet, if they are no sheet.
#[tactic(auto, using(mass::proofs::RefusalLaws::refuses), unfolding(crate::specs::SheetFile::sheet_refusal))]
pub fn check(s: &[u8]) -> Result<(), Refusal>
    ensures number { number_in result ≡ sheet_refusal s.now }
    ensures there { OnOk result (8 ≤ length s.now) }
{
    header_refusal(s)?;
    let count = byte_at(s, 7);
    lines_refusal(s, 8, count, byte_at(s, 5), byte_at(s, 6))?;
    lines_test(count)
}
