// The check of a plan file: the refusal of a list of bytes, if there is one.
ghost use Rattle.std.specs.Prelude.{◌≡◌, ◌+◌, ◌*◌, ◌≤◌, ◌<◌, length, get_or, drop, IfOk, OnOk};
ghost use Rattle.mass.specs.Refusal.{number_in};
ghost use Rattle.mass.specs.Split.{certain};
ghost use Rattle.refusals.specs.Tests.{rank};
ghost use Rattle.plan.specs.File.{header_refusal, links_refusal, member_refusal, members_refusal, event_refusal, events_refusal, event_size, refusal};
ghost use Rattle.plan.specs.Calls.{element_of, header_of};

use crate::bytes::{byte_at, left_of, number_at};
use crate::{Element, Header};
use mass::Refusal;

// 1 for the header, then 2 to 6.
#[tactic(auto, using(mass::proofs::RefusalLaws::refuses), unfolding(crate::specs::File::header_refusal))]
pub fn header_refusal(s: &[u8]) -> Result<(), Refusal>
    ensures number { number_in result ≡ header_refusal s.now }
    ensures there { OnOk result (20 ≤ length s.now) }
{
    refusals::short_test(s.len(), 20)?;
    refusals::mark_test(82, 83, 71, byte_at(s, 0), byte_at(s, 1), byte_at(s, 2))?;
    refusals::version_test(number_at(s, 3, 2))?;
    refusals::numbers_test(
        byte_at(s, 5),
        byte_at(s, 6),
        byte_at(s, 7),
        number_at(s, 8, 8),
        number_at(s, 16, 4),
    )
}

// The numbers of the header.
pub fn header_of(s: &[u8]) -> Header
    requires { 20 ≤ length s.now }
    ensures { result ≡ header_of s.now }
{
    Header {
        nodes: byte_at(s, 5),
        links: byte_at(s, 6),
        events: byte_at(s, 7),
        threshold: number_at(s, 8, 8),
        cap: number_at(s, 16, 4),
    }
}

// Each link, 1 then 7.
#[tactic(auto, using(mass::proofs::RefusalLaws::refuses))]
pub fn links_refusal(s: &[u8], start: usize, count: u64, nodes: u64) -> Result<(), Refusal>
    ensures { number_in result ≡ links_refusal nodes count (drop start s.now) }
{
    let mut at = start;
    // The links that are left, from `at` on, are refused as all links are: those before them pass.
    for _ in 0..count {
        refusals::short_test(left_of(s, at), 2)?;
        refusals::ends_test(nodes, byte_at(s, at), byte_at(s, at + 1))?;
        at += 2;
    }
    Ok(())
}

// The element of a kind and a number.
pub fn element_of(kind: u64, number: u64) -> Element
    ensures { result ≡ element_of kind number }
{
    match kind {
        0 => Element::Node(number),
        _ => Element::Link(number),
    }
}

// The member at a position, whose rank has to be `least` or more.
#[tactic(auto, using(mass::proofs::RefusalLaws::refuses), unfolding(crate::specs::File::member_refusal))]
pub fn member_at(
    s: &[u8],
    at: usize,
    nodes: u64,
    links: u64,
    least: u64,
) -> Result<Element, Refusal>
    ensures number { number_in result ≡ member_refusal nodes links least (drop at s.now) }
    ensures there { OnOk result (at + 2 ≤ length s.now) }
    ensures element { IfOk result (λ e. e ≡ element_of (get_or s.now at 0) (get_or s.now (at + 1) 0)) }
{
    refusals::short_test(left_of(s, at), 2)?;
    let kind = byte_at(s, at);
    let number = byte_at(s, at + 1);
    refusals::member_test(nodes, links, least, kind, number)?;
    Ok(element_of(kind, number))
}

// The rank of the member at a position: nodes before links, each by number.
pub fn rank_at(s: &[u8], at: usize) -> u64
    requires { at + 2 ≤ length s.now }
    ensures is { result ≡ rank (get_or s.now at 0) (get_or s.now (at + 1) 0) }
    ensures below { result < 65536 }
{
    byte_at(s, at) * 256 + byte_at(s, at + 1)
}

// Each member, 1 then 10.
#[tactic(auto, using(mass::proofs::RefusalLaws::refuses))]
pub fn members_refusal(
    s: &[u8],
    start: usize,
    count: u64,
    nodes: u64,
    links: u64,
) -> Result<(), Refusal>
    ensures { number_in result ≡ members_refusal nodes links 0 count (drop start s.now) }
{
    let mut at = start;
    let mut least = 0;
    // The members that are left, from `at` on, of rank `least` or more, are refused as all members are: those before them pass.
    for _ in 0..count {
        member_at(s, at, nodes, links, least)?;
        least = rank_at(s, at) + 1;
        at += 2;
    }
    Ok(())
}

// An event: 1, 8, 9, then each member.
#[tactic(auto, using(mass::proofs::RefusalLaws::refuses), unfolding(crate::specs::File::event_refusal))]
pub fn event_refusal(
    s: &[u8],
    at: usize,
    nodes: u64,
    links: u64,
    before: u64,
) -> Result<(), Refusal>
    ensures number { number_in result ≡ event_refusal nodes links before (drop at s.now) }
    ensures there { OnOk result (at + 5 ≤ length s.now) }
{
    refusals::short_test(left_of(s, at), 5)?;
    let q = number_at(s, at, 4);
    mass::probability_test(q)?;
    refusals::order_test(before, q)?;
    members_refusal(s, at + 5, byte_at(s, at + 4), nodes, links)
}

// How many bytes an event takes.
pub fn event_size(s: &[u8], at: usize) -> usize
    requires { at + 5 ≤ length s.now }
    ensures { result ≡ event_size (drop at s.now) }
{
    5 + 2 * (byte_at(s, at + 4) as usize)
}

// All events, then 11.
#[tactic(auto, using(mass::proofs::RefusalLaws::refuses))]
pub fn events_refusal(
    s: &[u8],
    start: usize,
    count: u64,
    nodes: u64,
    links: u64,
) -> Result<(), Refusal>
    ensures { number_in result ≡ events_refusal nodes links certain count (drop start s.now) }
{
    let mut at = start;
    let mut before = mass::CERTAIN;
    // The events that are left, from `at` on, after the probability `before`, and the bytes after them are refused as the whole is: the
    // events before them pass.
    for _ in 0..count {
        event_refusal(s, at, nodes, links, before)?;
        before = number_at(s, at, 4);
        at += event_size(s, at);
    }
    refusals::left_test(left_of(s, at))
}

// The refusal of a list of bytes, if it is no plan.
#[tactic(auto, using(mass::proofs::RefusalLaws::refuses), unfolding(crate::specs::File::refusal))]
pub fn check(s: &[u8]) -> Result<(), Refusal>
    ensures { number_in result ≡ refusal s.now }
{
    header_refusal(s)?;
    let nodes = byte_at(s, 5);
    let count = byte_at(s, 6);
    links_refusal(s, 20, count, nodes)?;
    events_refusal(s, 20 + 2 * (count as usize), byte_at(s, 7), nodes, count)
}
