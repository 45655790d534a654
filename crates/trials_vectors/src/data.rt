// What the vectors on reading and writing share.
ghost use Rattle.std.specs.Prelude.{◌≡◌, [], ◌∷◌};
ghost use Rattle.trials_vectors.specs.Data.{LinksUpTo, LargeFile, FullEvents};

use crate::compare::{same, same_part};
use mass::{Refusal, number_in};
use plan::Header;
use plan_lists::copy_first;
use std::io;

// What a lent list holds before a call.
pub const BYTE: u8 = 170;

pub const WORD: u64 = 77;

// The header with these numbers.
pub fn header(nodes: u64, links: u64, events: u64, threshold: u64, cap: u64) -> Header
    ensures { result ≡ record { nodes = nodes; links = links; events = events; threshold = threshold; cap = cap } }
{
    Header {
        nodes,
        links,
        events,
        threshold,
        cap,
    }
}

// 128 links of 64 nodes: link i joins i / 3, at most 42, and 43 + i % 21, at most 63.
pub fn many_links() -> [u8; 256]
    ensures { LinksUpTo 128 result }
{
    let mut links = [0u8; 256];
    for i in 0..128 {
        links[2 * i] = (i / 3) as u8;
        links[2 * i + 1] = (43 + i % 21) as u8;
    }
    links
}

// The file of a plan of 64 nodes, these 128 links and two events, with t = 10^18 and cap = 1,000,000: 20 bytes, 256 for the links, 19 for
// the first event and 7 for the second. The first has q = 10^9, nodes 0 and 63, and links 0, 63, 64, 66 and 127; the second q = 258 and
// link 65.
pub fn large_file() -> [u8; 302]
    ensures { LargeFile result }
{
    let links = many_links();
    let mut file = [0u8; 302];
    copy_first(
        b"RSG\x01\x00\x40\x80\x02\x00\x00\x64\xa7\xb3\xb6\xe0\x0d\x40\x42\x0f\x00",
        &mut file,
        0,
        20,
    );
    copy_first(&links, &mut file, 20, 256);
    copy_first(
        b"\x00\xca\x9a\x3b\x07\x00\x00\x00\x3f\x01\x00\x01\x3f\x01\x40\x01\x42\x01\x7f\x02\x01\x00\x00\x01\x01\x41",
        &mut file,
        276,
        26,
    );
    file
}

// The four words of each of those events: 9,223,372,036,854,775,808 is 2^63. In the high word link 64 is bit 0, link 65 bit 1, link 66 bit
// 2.
pub fn large_events() -> [u64; 8]
    ensures { result ≡ 1000000000 ∷ 9223372036854775809 ∷ 9223372036854775809 ∷ 9223372036854775813 ∷ 258 ∷ 0 ∷ 0 ∷ 2 ∷ [] }
{
    [
        1_000_000_000,
        9_223_372_036_854_775_809,
        9_223_372_036_854_775_809,
        9_223_372_036_854_775_813,
        258,
        0,
        0,
        2,
    ]
}

// 128 events, each with q = 10^9, all 64 nodes and all 128 links.
pub fn full_events() -> [u64; 512]
    ensures { FullEvents result }
{
    let mut words = [18_446_744_073_709_551_615u64; 512];
    for i in 0..128 {
        words[4 * i] = 1_000_000_000;
    }
    words
}

// Holds the answer of a reading to the numbers of an accepted plan.
pub fn accepted(
    rt: &impl Print,
    label: &[u8],
    answer: Result<Header, Refusal>,
    want: Header,
) -> io::Result<()> {
    match answer {
        Err(refusal) => same(rt, label, u32::from(refusal) as u64, 0),
        Ok(h) => {
            same_part(rt, label, b"nodes", h.nodes, want.nodes)?;
            same_part(rt, label, b"links", h.links, want.links)?;
            same_part(rt, label, b"events", h.events, want.events)?;
            same_part(rt, label, b"threshold", h.threshold, want.threshold)?;
            same_part(rt, label, b"cap", h.cap, want.cap)
        }
    }
}

// Holds an answer to the number of a refusal, or to 0.
pub fn refused<T: Drop>(
    rt: &impl Print,
    label: &[u8],
    answer: Result<T, Refusal>,
    want: u64,
) -> io::Result<()> {
    same(rt, label, number_in(&answer) as u64, want)
}

// Holds the answer of a writing to how many bytes it should lay down.
pub fn written(
    rt: &impl Print,
    label: &[u8],
    answer: Result<usize, Refusal>,
    want: u64,
) -> io::Result<()> {
    match answer {
        Err(refusal) => same(rt, label, u32::from(refusal) as u64, 0),
        Ok(count) => same(rt, label, count as u64, want),
    }
}
