// Holding a walk to another in every field.
use std::io;
use trials_vectors::{same_list, same_part};
use walk_state::Walk;

// Holds the numbers of a walk's header to those of another.
fn same_header(rt: &impl Print, label: &[u8], got: Walk, want: Walk) -> io::Result<()> {
    let a = got.header;
    let b = want.header;
    same_part(rt, label, b"nodes", a.nodes, b.nodes)?;
    same_part(rt, label, b"links", a.links, b.links)?;
    same_part(rt, label, b"events", a.events, b.events)?;
    same_part(rt, label, b"threshold", a.threshold, b.threshold)?;
    same_part(rt, label, b"cap", a.cap, b.cap)
}

fn same_links(rt: &impl Print, label: &[u8], got: [u8; 256], want: [u8; 256]) -> io::Result<()> {
    same_list(rt, label, &got, &want)
}

fn same_events(rt: &impl Print, label: &[u8], got: [u64; 512], want: [u64; 512]) -> io::Result<()> {
    same_list(rt, label, &got, &want)
}

fn same_sums(rt: &impl Print, label: &[u8], got: [u64; 2016], want: [u64; 2016]) -> io::Result<()> {
    same_list(rt, label, &got, &want)
}

// Holds the lists of a plan that a walk has to those of another.
fn same_plan(rt: &impl Print, label: &[u8], got: Walk, want: Walk) -> io::Result<()> {
    let links = got.links;
    let want_links = want.links;
    same_links(rt, label, links, want_links)?;
    let events = got.events;
    let want_events = want.events;
    same_events(rt, label, events, want_events)
}

// Holds the stack and the sums of a walk to those of another.
fn same_state(rt: &impl Print, label: &[u8], got: Walk, want: Walk) -> io::Result<()> {
    let stack = got.stack;
    let want_stack = want.stack;
    same_events(rt, label, stack, want_stack)?;
    let sums = got.sums;
    let want_sums = want.sums;
    same_sums(rt, label, sums, want_sums)
}

// Holds a walk to another, in every field.
pub fn same_walk(rt: &impl Print, label: &[u8], got: Walk, want: Walk) -> io::Result<()> {
    same_header(rt, label, got, want)?;
    same_plan(rt, label, got, want)?;
    same_state(rt, label, got, want)?;
    same_part(rt, label, b"at", got.at as u64, want.at as u64)?;
    same_part(rt, label, b"reached", got.reached, want.reached)?;
    same_part(rt, label, b"count", got.count, want.count)?;
    same_part(rt, label, b"mass", got.mass, want.mass)
}
