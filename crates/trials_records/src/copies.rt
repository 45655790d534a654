// Copying a plan by way of records: what is accepted is copied byte for byte, and a refusal changes nothing.
use std::io;
use trials_vectors::{BYTE, all_same, large_file, same_list, written};

// The triangle of document 01: 20 bytes, 6 for the links and 7 for each event. Three bytes are left over.
pub fn triangle(rt: &impl Print) -> io::Result<()> {
    let mut out = [BYTE; 50];
    let answer = record_runs::copy_plan(
        b"RSG\x01\x00\x03\x03\x03\x01\x00\x00\x00\x00\x00\x00\x00\x64\x00\x00\x00\x00\x01\x00\x02\x01\x02\x01\x00\x00\x00\x01\x01\x00\x01\x00\x00\x00\x01\x01\x01\x01\x00\x00\x00\x01\x01\x02",
        &mut out,
    );
    written(rt, b"copy the triangle", answer, 47)?;
    same_list(
        rt,
        b"the copied triangle",
        &out,
        b"RSG\x01\x00\x03\x03\x03\x01\x00\x00\x00\x00\x00\x00\x00\x64\x00\x00\x00\x00\x01\x00\x02\x01\x02\x01\x00\x00\x00\x01\x01\x00\x01\x00\x00\x00\x01\x01\x01\x01\x00\x00\x00\x01\x01\x02\xaa\xaa\xaa",
    )
}

// Node 63, link 127 and both words of the links: 302 bytes. Two bytes are left over.
pub fn large(rt: &impl Print) -> io::Result<()> {
    let mut out = [BYTE; 304];
    let answer = record_runs::copy_plan(&large_file(), &mut out);
    written(rt, b"copy the large plan", answer, 302)?;
    same_list(rt, b"the copied large plan", &out[0..302], &large_file())?;
    same_list(
        rt,
        b"past the copied large plan",
        &out[302..304],
        b"\xaa\xaa",
    )
}

// Two nodes and nothing else: the header alone.
pub fn header_alone(rt: &impl Print) -> io::Result<()> {
    let mut out = [BYTE; 20];
    let answer = record_runs::copy_plan(
        b"RSG\x01\x00\x02\x00\x00\x01\x00\x00\x00\x00\x00\x00\x00\x64\x00\x00\x00",
        &mut out,
    );
    written(rt, b"copy a header", answer, 20)?;
    same_list(
        rt,
        b"the copied header",
        &out,
        b"RSG\x01\x00\x02\x00\x00\x01\x00\x00\x00\x00\x00\x00\x00\x64\x00\x00\x00",
    )
}

// The reader's number, and not one of the writer's: 2 for the mark, 10 for a link 3 of 3, 11 for a byte after the last event.
pub fn refused(rt: &impl Print) -> io::Result<()> {
    let mut out = [BYTE; 64];
    let mark = record_runs::copy_plan(
        b"RSH\x01\x00\x02\x00\x00\x01\x00\x00\x00\x00\x00\x00\x00\x64\x00\x00\x00",
        &mut out,
    );
    trials_vectors::refused(rt, b"copy a file of another mark", mark, 2)?;
    let member = record_runs::copy_plan(
        b"RSG\x01\x00\x03\x03\x01\x01\x00\x00\x00\x00\x00\x00\x00\x64\x00\x00\x00\x00\x01\x00\x02\x01\x02\x01\x00\x00\x00\x01\x01\x03",
        &mut out,
    );
    trials_vectors::refused(rt, b"copy a plan with a link that is not there", member, 10)?;
    let after = record_runs::copy_plan(
        b"RSG\x01\x00\x02\x00\x00\x01\x00\x00\x00\x00\x00\x00\x00\x64\x00\x00\x00\x00",
        &mut out,
    );
    trials_vectors::refused(rt, b"copy a file with a byte too many", after, 11)?;
    all_same(rt, b"after refused copies", &out, BYTE)
}

// 46 bytes of room for the 47 of the triangle.
pub fn short_output(rt: &impl Print) -> io::Result<()> {
    let mut out = [BYTE; 46];
    let answer = record_runs::copy_plan(
        b"RSG\x01\x00\x03\x03\x03\x01\x00\x00\x00\x00\x00\x00\x00\x64\x00\x00\x00\x00\x01\x00\x02\x01\x02\x01\x00\x00\x00\x01\x01\x00\x01\x00\x00\x00\x01\x01\x01\x01\x00\x00\x00\x01\x01\x02",
        &mut out,
    );
    trials_vectors::refused(rt, b"copy the triangle into 46 bytes", answer, 12)?;
    all_same(rt, b"after a copy without room", &out, BYTE)
}
