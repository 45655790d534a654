// Holding an answer to what it should be. Masses are in ten-thousandths of the whole, 10^14 units each.
//
// What a threshold's place and block hold, for two plans. In both there are three nodes, link 0 is 0-1 and link 1 is 1-2. W for works, F for
// fails, event 0 first. Every product is exact, so no unit is lost. Lower is the sum of what disconnects a pair, upper is lower plus 10,000 less
// E.
//
// The first plan. Event 0, q = 1/10, has link 0; event 1, q = 1/100, has link 1. W 9,000, F 1,000.
//   WW 9,000 x 99/100 = 8,910   no pair is disconnected
//   WF 9,000 x 1/100  =    90   0-2, 1-2
//   FW 1,000 x 99/100 =   990   0-1, 0-2
//   FF 1,000 x 1/100  =    10   0-1, 0-2, 1-2
//
// The second plan. Event 0, q = 1/2, has link 0; event 1 has link 1, event 2 nothing, event 3 node 2, each with q = 1/10. So 0-1 is
// disconnected where event 0 fails, 1-2 where 1 or 3 does, and 0-2 where 0, 1 or 3 does. W and F 5,000 each, WW 4,500, WF 500, WWW 4,050, WWF
// 450, WFW 450, WFF 50, and the same below F.
//    1 WWWW 3,645  none          9 FWWW 3,645  0-1, 0-2
//    2 WWWF   405  0-2, 1-2     10 FWWF   405  all
//    3 WWFW   405  none         11 FWFW   405  0-1, 0-2
//    4 WWFF    45  0-2, 1-2     12 FWFF    45  all
//    5 WFWW   405  0-2, 1-2     13 FFWW   405  all
//    6 WFWF    45  0-2, 1-2     14 FFWF    45  all
//    7 WFFW    45  0-2, 1-2     15 FFFW    45  all
//    8 WFFF     5  0-2, 1-2     16 FFFF     5  all
ghost use Rattle.std.specs.Prelude.{◌<◌};

use mass::Refusal;
use std::io;
use thresholds::Answered;
use trials_threshold_vectors::{answered, untouched};
use trials_vectors::same_at;

const UNIT: u64 = 100_000_000_000_000;

// Prints what differs at a place.
fn number(
    rt: &impl Print,
    label: &[u8],
    part: &[u8],
    place: usize,
    got: u64,
    want: u64,
) -> io::Result<()> {
    if got != want {
        rt.write_all(label)?;
        rt.write_all(b", ")?;
        same_at(rt, part, place, got, want)?;
    }
    Ok(())
}

fn mass(
    rt: &impl Print,
    label: &[u8],
    part: &[u8],
    place: usize,
    got: u64,
    want: u64,
) -> io::Result<()> {
    number(rt, label, part, place, got / UNIT, want)?;
    number(rt, label, part, place, got % UNIT, 0)
}

// Holds the bounds of the pairs 0-1, 0-2 and 1-2 in the block that begins at an entry.
fn block(
    rt: &impl Print,
    label: &[u8],
    part: &[u8],
    list: &[u64; 52],
    at: usize,
    first: u64,
    second: u64,
    third: u64,
) -> io::Result<()>
    requires { at < 48 }
{
    mass(rt, label, part, at, list[at], first)?;
    mass(rt, label, part, at + 1, list[at + 1], second)?;
    mass(rt, label, part, at + 2, list[at + 2], third)
}

// The byte of a text at a place, and 0 past its last.
fn letter(text: &[u8], place: usize) -> u8 {
    if place < text.len() {
        return text[place];
    }
    0
}

fn flag(digit: u8) -> u64 {
    if digit == b'1' {
        return 1;
    }
    0
}

// Count, E, the lower bounds of 0-1, 0-2 and 1-2, and their upper bounds.
fn outcome(name: u8) -> [u64; 8] {
    match name {
        // nothing is examined
        b'0' => [0, 0, 0, 0, 0, 10_000, 10_000, 10_000],
        // the first plan: WW, then FW too, WF too, and FF too
        b'1' => [1, 8_910, 0, 0, 0, 1_090, 1_090, 1_090],
        b'2' => [2, 9_900, 990, 990, 0, 1_090, 1_090, 100],
        b'3' => [3, 9_990, 990, 1_080, 90, 1_000, 1_090, 100],
        b'4' => [4, 10_000, 1_000, 1_090, 100, 1_000, 1_090, 100],
        // the second plan: end 1; ends 1 and 9; ends 1 and 2
        b'a' => [1, 3_645, 0, 0, 0, 6_355, 6_355, 6_355],
        b'b' => [2, 7_290, 3_645, 3_645, 0, 6_355, 6_355, 2_710],
        b'c' => [2, 4_050, 0, 405, 405, 5_950, 6_355, 6_355],
        // ends 1, 2, 3 and 5; 9 too; 10, 11 and 13 too
        b'd' => [4, 4_860, 0, 810, 810, 5_140, 5_950, 5_950],
        b'e' => [5, 8_505, 3_645, 4_455, 810, 5_140, 5_950, 2_305],
        b'f' => [8, 9_720, 4_860, 5_670, 1_620, 5_140, 5_950, 1_900],
        // the first 7, 8, 14, 15 ends; all 16
        b'g' => [7, 4_995, 0, 945, 945, 5_005, 5_950, 5_950],
        b'h' => [8, 5_000, 0, 950, 950, 5_000, 5_950, 5_950],
        b'i' => [14, 9_950, 4_950, 5_900, 1_850, 5_000, 5_950, 1_900],
        b'j' => [15, 9_995, 4_995, 5_945, 1_895, 5_000, 5_950, 1_900],
        b'k' => [16, 10_000, 5_000, 5_950, 1_900, 5_000, 5_950, 1_900],
        _ => [7; 8],
    }
}

// Holds what stands at a threshold's place and in its block to an outcome, and complete to a digit.
fn row(
    rt: &impl Print,
    label: &[u8],
    a: Answered,
    lower: &[u64; 52],
    upper: &[u64; 52],
    place: usize,
    name: u8,
    digit: u8,
) -> io::Result<()>
    requires { place < 16 }
{
    let want = outcome(name);
    let counts = a.count;
    let completes = a.complete;
    let masses = a.mass;
    number(rt, label, b"count", place, counts[place], want[0])?;
    number(rt, label, b"complete", place, completes[place], flag(digit))?;
    mass(rt, label, b"E", place, masses[place], want[1])?;
    let at = 3 * place;
    block(rt, label, b"lower", lower, at, want[2], want[3], want[4])?;
    block(rt, label, b"upper", upper, at, want[5], want[6], want[7])
}

// An accepted call on a plan of three nodes, with lists that held WORD: for each threshold the text has an outcome, a digit, which is complete,
// and a blank. The places past the last are 0, and the entries past the last block are untouched.
pub fn rows(
    rt: &impl Print,
    label: &[u8],
    answer: Result<Answered, Refusal>,
    lower: &[u64; 52],
    upper: &[u64; 52],
    text: &[u8],
) -> io::Result<()> {
    let thresholds = text.len() / 3;
    answered(rt, label, answer, thresholds)?;
    let Ok(a) = answer else {
        return Ok(());
    };
    let mut past = 0;
    for i in 0..16 {
        if i < thresholds {
            row(
                rt,
                label,
                a,
                lower,
                upper,
                i,
                letter(text, 3 * i),
                letter(text, 3 * i + 1),
            )?;
            past = 3 * i + 3;
        }
    }
    untouched(rt, label, lower, upper, past)
}
