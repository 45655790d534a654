// Lists of go-on calls on the plan of `trials_panel_vectors`, from a full quota.
use panel::Quota;
use std::io;
use trials_panel_vectors::{FULL, begun, left_after, less, shown, went_on, wide_at};

// Every list of calls, at caps that leave the whole walk, and below them.
pub fn lists(rt: &impl Print) -> io::Result<()> {
    // caps above the number of ends, and one that is this number: complete at the last end
    all(rt, b"cap 1,000,000", 1_000_000)?;
    all(rt, b"cap 15", 15)?;
    all(rt, b"cap 14", 14)?;
    below(rt)
}

// Goes on by each number of a list of at most 16, after which the walk is to have reached so many ends.
fn list(rt: &impl Print, label: &[u8], cap: u64, ks: &[u8], so_far: &[u8]) -> io::Result<()> {
    let mut w = begun(rt, cap)?;
    let mut quota = Quota { left: FULL };
    shown(rt, label, w, 0)?;
    let mut before = 0;
    for i in 0..16 {
        if ks.len() <= i {
            return Ok(());
        }
        let r = wide_at(so_far, i);
        went_on(
            rt,
            label,
            &mut w,
            &mut quota,
            wide_at(ks, i),
            0,
            less(r, before),
            r,
            left_after(r),
        )?;
        before = r;
    }
    Ok(())
}

// All 14 ends one by one, and two calls more.
fn ones(rt: &impl Print, label: &[u8], cap: u64) -> io::Result<()> {
    list(
        rt,
        label,
        cap,
        b"\x01\x01\x01\x01\x01\x01\x01\x01\x01\x01\x01\x01\x01\x01\x01\x01",
        b"\x01\x02\x03\x04\x05\x06\x07\x08\x09\x0a\x0b\x0c\x0d\x0e\x0e\x0e",
    )
}

// All 14 ends by 2, 3, 5 and 7, which finds 4 left, and 11, which finds none.
fn primes(rt: &impl Print, label: &[u8], cap: u64) -> io::Result<()> {
    list(
        rt,
        label,
        cap,
        b"\x02\x03\x05\x07\x0b",
        b"\x02\x05\x0a\x0e\x0e",
    )
}

// All 14 ends by 4, 6 and 9, which finds 4 left, with 0s before, between and after.
fn zeros(rt: &impl Print, label: &[u8], cap: u64) -> io::Result<()> {
    list(
        rt,
        label,
        cap,
        b"\x00\x04\x00\x00\x06\x00\x09\x00",
        b"\x00\x04\x04\x04\x0a\x0a\x0e\x0e",
    )
}

// All 14 ends at once, and one call more.
fn at_once(rt: &impl Print, label: &[u8], cap: u64) -> io::Result<()> {
    list(rt, label, cap, b"\xff\xff", b"\x0e\x0e")
}

fn all(rt: &impl Print, label: &[u8], cap: u64) -> io::Result<()> {
    ones(rt, label, cap)?;
    primes(rt, label, cap)?;
    zeros(rt, label, cap)?;
    at_once(rt, label, cap)
}

// A cap of 9: no end past it is reached, and the walk is not complete.
fn nine_ones(rt: &impl Print) -> io::Result<()> {
    list(
        rt,
        b"1s at cap 9",
        9,
        b"\x01\x01\x01\x01\x01\x01\x01\x01\x01\x01\x01",
        b"\x01\x02\x03\x04\x05\x06\x07\x08\x09\x09\x09",
    )
}

fn nine_primes(rt: &impl Print) -> io::Result<()> {
    list(
        rt,
        b"primes at cap 9",
        9,
        b"\x02\x03\x05\x07",
        b"\x02\x05\x09\x09",
    )
}

fn nine_zeros(rt: &impl Print) -> io::Result<()> {
    list(
        rt,
        b"0s at cap 9",
        9,
        b"\x00\x04\x00\x00\x06\x00\x09",
        b"\x00\x04\x04\x04\x09\x09\x09",
    )
}

// The cap is the last relevant end, two before the last one.
fn twelve(rt: &impl Print) -> io::Result<()> {
    list(rt, b"cap 12", 12, b"\x0b\x05\x01", b"\x0b\x0c\x0c")
}

// The cap is one below the last end.
fn thirteen(rt: &impl Print) -> io::Result<()> {
    list(rt, b"cap 13", 13, b"\x06\xff\x01", b"\x06\x0d\x0d")
}

fn one(rt: &impl Print) -> io::Result<()> {
    list(rt, b"cap 1", 1, b"\x00\x01\x01", b"\x00\x01\x01")
}

// Caps below the number of ends: not complete.
fn below(rt: &impl Print) -> io::Result<()> {
    nine_ones(rt)?;
    nine_primes(rt)?;
    nine_zeros(rt)?;
    twelve(rt)?;
    thirteen(rt)?;
    one(rt)
}
