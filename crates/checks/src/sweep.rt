// Checks 3 to 7 and 16 in one pass: whether none of them applies, and then where the trees start. Which one does apply, and where, the checks in
// order say (docs/SPEED.md, 41 and 52).
ghost use Rattle.std.specs.Prelude.{◌≡◌, true, [], ◌+◌, ◌<◌, ◌≤◌, length};
ghost use Rattle.tree.specs.Record.{records};
ghost use Rattle.checks.specs.Private.Held.{Steps};
ghost use Rattle.scans.specs.Tells.{Tells};
ghost use Rattle.checks.specs.Private.Clear.{Clear};
ghost use Rattle.checks.specs.Leaves.{tops_in, Stores};
ghost use Rattle.tree.specs.Starts.{StartsWith};

use scans::limits::Limits;
use scans::nest::DEEPEST;
use scans::pick;
use scans::scan::taken;
use table::wide;
use tree::record;

// An open record is one word: its nesting, and this for each child to come. The script is the outermost, of nesting 0.
const CHILD: usize = 128;

// The table of the open records but for the innermost: one place for each nesting below 64, and place 0, where none is kept.
const PLACES: usize = 65;

// The innermost open record, and the place where the next one out is kept.
#[derive(Clone, Copy)]
struct Innermost {
    word: usize,
    under: usize,
}

// A record with so many children takes a place of the innermost. Answers the innermost then: the record itself, the one before, or the next
// one out. Which it is comes mixed, as the forms do: each number is picked, and a branch on it would be mispredicted. The table is of u32
// since the compiler would fold the load of a usize into the pick, and then make a branch of it (docs/SPEED.md, 41).
fn step(kept: &mut [u32], a: Innermost, children: usize) -> Innermost
    requires le_word { 128 ≤ a.word }
    requires word_bound { a.word ≤ 4294967295 }
    requires under_nonzero { a.word < 256 → 0 < a.under }
    requires under_in_bounds { a.under + 1 < length kept.old }
    requires children_bound { children ≤ 513 }
    ensures { Steps kept.old a children kept.new result }
{
    let under = a.under;
    let rest = a.word - CHILD;
    let outer = wide(kept[under]);
    kept[under + 1] = rest as u32;
    let leaf = children == 0;
    let done = rest < CHILD;
    Innermost {
        word: pick(
            leaf,
            pick(done, outer, rest),
            CHILD * children + a.word % CHILD + 1,
        ),
        under: under + pick(leaf, 0, 1) - pick(done, 1, 0),
    }
}

// Kept are the open records that have a child to come: those that a record closes are then one at the most. The script has more to come than
// there are records, so it is never closed. Each record is stored where the next start goes, and stays there if no record is open.
pub fn clear(rs: &[u32], names: usize, tops: &mut [u16]) -> bool
    requires rs_len_bound { length (records rs.now) ≤ 4096 }
    requires rs_in_bounds { length (records rs.now) < length tops.old }
    ensures tells { Tells result (Clear names rs.now) }
    ensures told { result ≡ true → StartsWith tops.new (tops_in [] 0 (records rs.now)) }
    ensures stores { Stores rs.now tops.old tops.new }
{
    let n = record::len(rs);
    let limits = Limits::new(names);
    let mut kept = [0u32; PLACES];
    let mut inner = Innermost {
        word: CHILD * (n + 1),
        under: 0,
    };
    let mut due = 0;
    let mut top = 0;
    for i in 0..n {
        if !limits.within(rs, i, due) {
            return false;
        }
        due = taken(due) + limits.names.of(rs, i);
        if DEEPEST <= inner.word % CHILD {
            return false;
        }
        tops[top] = i as u16;
        top += pick(inner.word % CHILD == 0, 1, 0);
        inner = step(&mut kept, inner, limits.children.of(rs, i));
    }
    tops[top] = n as u16;
    inner.word % CHILD == 0
}
