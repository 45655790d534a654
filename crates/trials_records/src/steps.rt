// The reader's steps: the member that stands at a position, by the kind and the number of its element, and where the reader stands after it.
use mass::Refusal;
use plan::Element;
use record_reading::read_member;
use std::io;
use trials_vectors::{large_file, same, same_part};

// The kind of a member (0 node, 1 link), 2 where it is refused.
fn kind_of(step: Result<Element, Refusal>) -> u64 {
    match step {
        Ok(Element::Node(_)) => 0,
        Ok(Element::Link(_)) => 1,
        Err(_) => 2,
    }
}

// The number of a member, or of the refusal.
fn number_of(step: Result<Element, Refusal>) -> u64 {
    match step {
        Ok(Element::Node(i) | Element::Link(i)) => i,
        Err(refusal) => u32::from(refusal) as u64,
    }
}

fn step(
    rt: &impl Print,
    label: &[u8],
    got: Result<Element, Refusal>,
    at: usize,
    kind: u64,
    number: u64,
    position: u64,
) -> io::Result<()> {
    same(rt, label, kind_of(got), kind)?;
    same(rt, label, number_of(got), number)?;
    same_part(rt, label, b"position", at as u64, position)
}

// The three members of the triangle stand at 31, 38 and 45: links 0, 1 and 2.
pub fn links(rt: &impl Print) -> io::Result<()> {
    let plan =
        b"RSG\x01\x00\x03\x03\x03\x01\x00\x00\x00\x00\x00\x00\x00\x64\x00\x00\x00\x00\x01\x00\x02\x01\x02\x01\x00\x00\x00\x01\x01\x00\x01\x00\x00\x00\x01\x01\x01\x01\x00\x00\x00\x01\x01\x02";
    let mut at = 31;
    let first = read_member(plan, &mut at, 3, 3, 0);
    step(rt, b"the triangle's first member", first, at, 1, 0, 33)?;
    at = 38;
    let second = read_member(plan, &mut at, 3, 3, 0);
    step(rt, b"the triangle's second member", second, at, 1, 1, 40)?;
    at = 45;
    let third = read_member(plan, &mut at, 3, 3, 0);
    step(rt, b"the triangle's third member", third, at, 1, 2, 47)
}

// The first event of the large plan begins at 276, after 20 bytes and 256 for the links, and its members at 281: nodes 0 and 63, then links 0
// and 63, and others.
pub fn moved(rt: &impl Print) -> io::Result<()> {
    from_member_to_member(rt, &large_file())
}

// Each step is made where the reader stands after the one before, and `least` is the rank before and 1.
fn from_member_to_member(rt: &impl Print, file: &[u8]) -> io::Result<()> {
    let mut at = 281;
    let first = read_member(file, &mut at, 64, 128, 0);
    step(rt, b"node 0", first, at, 0, 0, 283)?;
    let second = read_member(file, &mut at, 64, 128, 1);
    step(rt, b"node 63", second, at, 0, 63, 285)?;
    let third = read_member(file, &mut at, 64, 128, 64);
    step(rt, b"link 0", third, at, 1, 0, 287)?;
    let fourth = read_member(file, &mut at, 64, 128, 257);
    step(rt, b"link 63", fourth, at, 1, 63, 289)
}

// A step that is refused leaves the reader where it was, and the next step reads the same member: node 2 has rank 2.
pub fn stays(rt: &impl Print) -> io::Result<()> {
    let mut at = 0;
    let refused = read_member(b"\x00\x02", &mut at, 3, 3, 3);
    step(rt, b"a member that does not rise", refused, at, 2, 10, 0)?;
    let again = read_member(b"\x00\x02", &mut at, 3, 3, 2);
    step(rt, b"the same member", again, at, 0, 2, 2)?;
    let ended = read_member(b"\x00\x02", &mut at, 3, 3, 3);
    step(rt, b"at the end", ended, at, 2, 1, 2)
}

// 1 where the bytes end inside the member and far past the end; then 10. The reader stays.
pub fn refused(rt: &impl Print) -> io::Result<()> {
    let mut at = 2;
    let cut = read_member(b"\x00\x02\x00", &mut at, 3, 3, 0);
    step(rt, b"one byte", cut, at, 2, 1, 2)?;
    at = 18_446_744_073_709_551_615;
    let past = read_member(b"\x00\x02", &mut at, 3, 3, 0);
    step(
        rt,
        b"past the end",
        past,
        at,
        2,
        1,
        18_446_744_073_709_551_615,
    )?;
    at = 0;
    let node = read_member(b"\x00\x03", &mut at, 3, 3, 0);
    step(rt, b"node 3 of 3", node, at, 2, 10, 0)?;
    let link = read_member(b"\x01\x03", &mut at, 64, 3, 0);
    step(rt, b"link 3 of 3", link, at, 2, 10, 0)?;
    let kind = read_member(b"\x02\x00", &mut at, 3, 3, 0);
    step(rt, b"kind 2", kind, at, 2, 10, 0)
}
