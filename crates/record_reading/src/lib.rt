// A reader that keeps the caller's bytes and its position in them together, and hands the events over as a lent list of records: document
// 01, section "Plan file". Every function that takes a list of records, or a reader, is thin over functions on slices, arrays and
// numbers. Assumes nothing.
#![tactic(auto)]

mod members;
mod words;

ghost use Rattle.std.specs.Prelude.{◌≡◌, ◌+◌, ◌≤◌, length, get_or, drop, IfOk, OnOk};
ghost use Rattle.mass.specs.Refusal.{number_in};
ghost use Rattle.plan.specs.Lists.{link_bytes};
ghost use Rattle.plan.specs.File.{member_refusal, plan_of};
ghost use Rattle.plan.specs.Calls.{filled, element_of, header_of};
ghost use Rattle.record_reading.specs.Filled.{event_records, records_number, filled_records};
ghost use Rattle.record_reading.specs.Steps.{position_after};

use mass::Refusal;
pub use members::read_members;
use plan::{Element, Header};
use record_lists::{Event, fill};
use words::read_words_at;

#[derive(Clone, Copy)]
pub struct Reader<'a> {
    pub src: &'a [u8],
    pub at: usize,
}

impl<'a> Reader<'a> {
    // A reader of the bytes from a position on.
    pub fn new(src: &'a [u8], at: usize) -> Reader<'a>
        ensures { (result.src ≡ src.entry) × (result.at ≡ at) }
    {
        Reader { src, at }
    }

    // The member at the reader's position, or its refusal: its rank is at least `least`. The reader moves past the member's two bytes where
    // one is given, and stays where it is refused.
    pub fn next_member(&mut self, nodes: u64, links: u64, least: u64) -> Result<Element, Refusal>
        ensures number { number_in result ≡ member_refusal nodes links least (drop self.old.at self.old.src.now) }
        ensures there { OnOk result (self.old.at + 2 ≤ length self.old.src.now) }
        ensures element { IfOk result (λ e. e ≡ element_of (get_or self.old.src.now self.old.at 0) (get_or self.old.src.now (self.old.at + 1) 0)) }
        ensures reader { (self.new.src ≡ self.old.src) × (self.new.at ≡
            position_after (member_refusal nodes links least (drop self.old.at self.old.src.now)) self.old.at) }
    {
        let element = plan::member_at(self.src, self.at, nodes, links, least)?;
        self.at += 2;
        Ok(element)
    }

    // Reads the plan that begins at the reader's position into lent lists: the links' bytes, and a record to an event. A refusal changes
    // nothing; a position past the end leaves no byte, and 1 is given.
    pub fn read(self, links: &mut [u8], events: &mut [Event]) -> Result<Header, Refusal>
        ensures number { number_in result ≡ records_number (drop self.entry.at self.entry.src.now) links.old events.old }
        ensures header { IfOk result (λ h. h ≡ header_of (drop self.entry.at self.entry.src.now)) }
        ensures links { links.new ≡ filled
            (records_number (drop self.entry.at self.entry.src.now) links.old events.old)
            (link_bytes (plan_of (drop self.entry.at self.entry.src.now)).links) links.old }
        ensures events { events.new ≡ filled_records
            (records_number (drop self.entry.at self.entry.src.now) links.old events.old)
            (event_records (plan_of (drop self.entry.at self.entry.src.now)).events) events.old }
    {
        let mut words = [0u64; 512];
        let header = read_words_at(self.src, self.at, links, events.len(), &mut words)?;
        fill(&words, events, header.events as usize);
        Ok(header)
    }
}

// A step of a reader made at a position, which moves as the reader does: its contract says nothing of a reader.
pub fn read_member(
    s: &[u8],
    at: &mut usize,
    nodes: u64,
    links: u64,
    least: u64,
) -> Result<Element, Refusal>
    ensures number { number_in result ≡ member_refusal nodes links least (drop at.old s.now) }
    ensures there { OnOk result (at.old + 2 ≤ length s.now) }
    ensures element { IfOk result (λ e. e ≡ element_of (get_or s.now at.old 0) (get_or s.now (at.old + 1) 0)) }
    ensures position { at.new ≡ position_after (member_refusal nodes links least (drop at.old s.now)) at.old }
{
    let mut reader = Reader::new(s, *at);
    let step = reader.next_member(nodes, links, least);
    *at = reader.at;
    step
}

// Reads a plan into lent lists: the links' bytes, and a record to an event. A refusal changes nothing.
pub fn read_records(s: &[u8], links: &mut [u8], events: &mut [Event]) -> Result<Header, Refusal>
    ensures number { number_in result ≡ records_number s.now links.old events.old }
    ensures header { IfOk result (λ h. h ≡ header_of s.now) }
    ensures links { links.new ≡ filled (records_number s.now links.old events.old)
        (link_bytes (plan_of s.now).links) links.old }
    ensures events { events.new ≡ filled_records (records_number s.now links.old events.old)
        (event_records (plan_of s.now).events) events.old }
{
    Reader::new(s, 0).read(links, events)
}
