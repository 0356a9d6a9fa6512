// The line of a case: what it is, in numbers with their names, and then what the checks say of it.
use crate::build::{RECORDS, Records};
use std::io;
use tree::record::WIDTH;

pub fn number(rt: &impl Print, name: &str, x: usize) -> io::Result<()> {
    print!(rt; "{name}={x} ")
}

// So many starts are printed.
const SHOWN: usize = 4;

// Where the first trees of n records start, how many trees there are, and the record after them.
fn starts(rt: &impl Print, tops: &[u16], n: usize) -> io::Result<()> {
    for (i, &top) in tops.iter().enumerate() {
        let at = usize::from(top);
        if n <= at {
            number(rt, "trees", i)?;
            return number(rt, "end", at);
        }
        if i < SHOWN {
            number(rt, "start", at)?;
        }
    }
    Ok(())
}

// What the checks say of the first n numbers, and of the first n records.
pub fn numbers(rt: &impl Print, t: &Records, n: usize, names: usize) -> io::Result<()> {
    let all = t.as_flattened();
    if all.len() < n {
        return Ok(());
    }
    let mut tops = [0u16; RECORDS + 1];
    match checks::check(&all[..n], names, &mut tops) {
        Ok(()) => {
            starts(rt, &tops, n / WIDTH)?;
            println!(rt; "fit")
        }
        Err(r) => println!(rt; "refused={} at={}", r.number(), r.record()),
    }
}

pub fn records(rt: &impl Print, t: &Records, n: usize, names: usize) -> io::Result<()> {
    if RECORDS < n {
        return Ok(());
    }
    numbers(rt, t, WIDTH * n, names)
}
