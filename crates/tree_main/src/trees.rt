// Trees, each with its line.
use crate::build::{Fault, GOOD, NAMES, RECORDS, Records};
use crate::{build, say};
use std::io;
use table::wide;
use tree::record::WIDTH;

// So many constants.
pub fn many(rt: &impl Print, n: usize) -> io::Result<()> {
    let mut t = [[0; WIDTH]; RECORDS];
    build::constants(&mut t, 0, n);
    say::number(rt, "constants", n)?;
    say::records(rt, &t, n, 0)
}

// A begin or a call of so many constants.
pub fn counted(rt: &impl Print, form: u32, id: u32, count: u32) -> io::Result<()> {
    let n = wide(count) + 1;
    let mut t = [[0; WIDTH]; RECORDS];
    t[0] = [form, id, 0, count, 0, 0];
    build::constants(&mut t, 1, n);
    print!(rt; "record=0 form={form} count={count} ")?;
    say::records(rt, &t, n, 0)
}

// Begins, each in the one before, and constants up to n records.
pub fn nested(rt: &impl Print, begins: usize, n: usize) -> io::Result<()> {
    let mut t = [[0; WIDTH]; RECORDS];
    build::begins(&mut t, 0, begins);
    build::constants(&mut t, begins, n);
    say::number(rt, "begins", begins)?;
    say::number(rt, "records", n)?;
    say::records(rt, &t, n, 0)
}

// A constant, begins, each in the one before and the last of a constant, and a constant.
pub fn between(rt: &impl Print, begins: usize) -> io::Result<()> {
    if 64 < begins {
        return Ok(());
    }
    let mut t = [[0; WIDTH]; RECORDS];
    build::constants(&mut t, 0, 1);
    build::begins(&mut t, 1, begins + 1);
    build::constants(&mut t, begins + 1, begins + 3);
    say::number(rt, "between", begins)?;
    say::records(rt, &t, begins + 3, 0)
}

// The good tree and constants up to n records.
pub fn good_and(rt: &impl Print, n: usize) -> io::Result<()> {
    let mut t = [[0; WIDTH]; RECORDS];
    build::good(&mut t);
    build::constants(&mut t, GOOD, n);
    say::number(rt, "records", n)?;
    say::records(rt, &t, n, NAMES)
}

// The first n numbers of the tree.
fn first(rt: &impl Print, t: &Records, n: usize, names: usize) -> io::Result<()> {
    say::number(rt, "numbers", n)?;
    say::number(rt, "names", names)?;
    say::numbers(rt, t, n, names)
}

// The first n numbers of the good tree.
pub fn part(rt: &impl Print, n: usize, names: usize) -> io::Result<()> {
    let mut t = [[0; WIDTH]; RECORDS];
    build::good(&mut t);
    first(rt, &t, n, names)
}

// Makes faults in the good tree.
fn damage(rt: &impl Print, t: &mut Records, faults: &[Fault]) -> io::Result<()> {
    for fault in faults {
        fault.make(t);
        print!(rt; "{fault} ")?;
    }
    Ok(())
}

// The good tree with faults, with one and not whole, and with one before begins that nest 65 deep.
pub fn faulty(rt: &impl Print, faults: &[Fault]) -> io::Result<()> {
    let mut t = [[0; WIDTH]; RECORDS];
    build::good(&mut t);
    damage(rt, &mut t, faults)?;
    say::records(rt, &t, GOOD, NAMES)
}

pub fn faulty_part(rt: &impl Print, fault: Fault, n: usize, names: usize) -> io::Result<()> {
    let mut t = [[0; WIDTH]; RECORDS];
    build::good(&mut t);
    damage(rt, &mut t, &[fault])?;
    first(rt, &t, n, names)
}

pub fn faulty_deep(rt: &impl Print, fault: Fault) -> io::Result<()> {
    let mut t = [[0; WIDTH]; RECORDS];
    build::good(&mut t);
    damage(rt, &mut t, &[fault])?;
    build::begins(&mut t, 18, 82);
    build::constants(&mut t, 82, 83);
    say::number(rt, "begins", 64)?;
    say::records(rt, &t, 83, NAMES)
}
