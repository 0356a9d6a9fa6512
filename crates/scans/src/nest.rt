// Check 5: the nesting walk, which is run only where the one pass of checks does not pass the records (docs/SPEED.md, 57).
ghost use Rattle.std.specs.Prelude.{◌≡◌, ℕ};
ghost use Rattle.tree.specs.Record.{records};
ghost use Rattle.tree.specs.Check.{check5};
ghost use Rattle.scans.specs.Private.Walked.{Walked};

use tree::record;

pub const DEEPEST: usize = 64;

// Why the walk of a tree ends within it.
#[derive(Clone, Copy, PartialEq, Eq, Debug)]
enum Stop {
    // this record is nested too deep
    Deep(usize),
    // the records end first
    Ended,
}

// Walks the tree at record `at`, at the nesting `level`, to the record after it.
fn nest(rs: &[u32], at: usize, level: usize) -> Result<usize, Stop>
    ensures { Walked (records rs.now) at level result }
{
    if record::len(rs) <= at {
        return Err(Stop::Ended);
    }
    if DEEPEST < level {
        return Err(Stop::Deep(at));
    }
    let mut next = at + 1;
    for _ in 0..record::children(rs, at) {
        next = nest(rs, next, level + 1)?;
    }
    Ok(next)
}

// 5: nesting of 65. A `while`, since each walk says where the next tree stands.
pub fn too_deep(rs: &[u32]) -> Option<usize>
    ensures { (N : ℕ) → result ≡ check5 N rs.now }
{
    let mut next = 0;
    while next < record::len(rs) {
        match nest(rs, next, 1) {
            Ok(after) => next = after,
            Err(Stop::Deep(i)) => return Some(i),
            Err(Stop::Ended) => return None,
        }
    }
    None
}
