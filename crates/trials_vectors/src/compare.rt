// Comparing a result with what it should be.

use std::fmt::Display;
use std::io;

// Prints the label and both numbers where they differ.
pub fn same(rt: &impl Print, label: &[u8], got: u64, want: u64) -> io::Result<()> {
    if got != want {
        rt.write_all(label)?;
        differ(rt, got, want)?;
    }
    Ok(())
}

// The same for a part of a result, which has a name of its own.
pub fn same_part(
    rt: &impl Print,
    label: &[u8],
    part: &[u8],
    got: u64,
    want: u64,
) -> io::Result<()> {
    if got != want {
        rt.write_all(label)?;
        rt.write_all(b", ")?;
        rt.write_all(part)?;
        differ(rt, got, want)?;
    }
    Ok(())
}

// The same for the item of a list at a position.
pub fn same_at<T: Copy + PartialEq + Display>(
    rt: &impl Print,
    label: &[u8],
    at: usize,
    got: T,
    want: T,
) -> io::Result<()> {
    if got != want {
        rt.write_all(label)?;
        println!(rt; ", at {at}: got {got}, expected {want}")?;
    }
    Ok(())
}

fn differ(rt: &impl Print, got: u64, want: u64) -> io::Result<()> {
    println!(rt; ": got {got}, expected {want}")
}

// Holds a list to another, the lengths too.
pub fn same_list<T: Copy + PartialEq + Display>(
    rt: &impl Print,
    label: &[u8],
    got: &[T],
    want: &[T],
) -> io::Result<()> {
    same_part(rt, label, b"length", got.len() as u64, want.len() as u64)?;
    for (i, (found, wanted)) in got.iter().zip(want).enumerate() {
        same_at(rt, label, i, *found, *wanted)?;
    }
    Ok(())
}

// Holds every item of a list to one value.
pub fn all_same<T: Copy + PartialEq + Display>(
    rt: &impl Print,
    label: &[u8],
    got: &[T],
    want: T,
) -> io::Result<()> {
    for (i, found) in got.iter().enumerate() {
        same_at(rt, label, i, *found, want)?;
    }
    Ok(())
}
