#![tactic(auto)]
// The checks 3 to 8 and 16 one by one: each tells the first record that it refuses.
ghost use Rattle.std.specs.Prelude.{◌≡◌, cond};

pub mod ids;
pub mod limits;
pub mod nest;
pub mod scan;

// What check 2 lets pass.
pub const MOST_RECORDS: usize = 4096;

// The first or the second, as asked.
pub fn pick(first: bool, a: usize, b: usize) -> usize
    ensures { result ≡ cond first a b }
{
    if first { a } else { b }
}
