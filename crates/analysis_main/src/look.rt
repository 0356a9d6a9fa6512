// What is printed of an answer and of the tables that it leaves.
ghost use Rattle.std.specs.Prelude.{◌≡◌};
ghost use Rattle.analysis_main.specs.Filled.{is_filled};

use answers::{Refusal, Tables};
use std::io;

// What every number is before a call.
pub const FILLING: u32 = 1234567891;

// Whether every number is x.
fn is_filled(t: &[u32], x: u32) -> bool
    ensures { result ≡ is_filled x t.now }
{
    t.iter().all(|y| *y == x)
}

// A table without numbers is as it was.
fn state(t: &[u32]) -> &'static str {
    if is_filled(t, FILLING) {
        "unchanged"
    } else if is_filled(t, 0) {
        "zero"
    } else {
        "changed"
    }
}

pub fn say(rt: &impl Print, answer: Result<(), Refusal>, tables: &Tables) -> io::Result<()> {
    match answer {
        Ok(()) => print!(rt; "accepted")?,
        Err(r) => print!(rt; "refused={} at={}", r.number(), r.record())?,
    }
    println!(rt;
        " facts={} captured={} arguments={} work={}",
        state(tables.facts),
        state(tables.captured),
        state(tables.arguments),
        state(tables.work),
    )
}
