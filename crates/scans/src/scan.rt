// Checks 3, 4, 6, 7 and 16: loops over the records. Each answers the record that it applies to first.
ghost use Rattle.std.specs.Prelude.{◌≡◌, ◌&&◌, ℕ, ◌-◌, ◌<◌, ◌≤◌, eqb, length};
ghost use Rattle.tree.specs.Record.{records, nth};
ghost use Rattle.tree.specs.Check.{check3, check4, check6, check7, check16, untested};

use crate::limits::Limits;
use tree::{form, record};

// 3: a field outside the table.
pub fn field_outside(rs: &[u32], names: usize) -> Option<usize>
    ensures { result ≡ check3 names rs.now }
{
    let limits = Limits::new(names);
    for i in 0..record::len(rs) {
        if !limits.fit(rs, i) {
            return Some(i);
        }
    }
    None
}

// The open places, but for the one that a record takes; at top level it takes none.
pub fn taken(places: usize) -> usize
    ensures { result ≡ places - 1 }
{
    places.saturating_sub(1)
}

// 4: children missing at the end. Every record takes an open place and opens one for each child.
pub fn child_missing(rs: &[u32]) -> Option<usize>
    requires { length (records rs.now) ≤ 4096 }
    ensures { (N : ℕ) → result ≡ check4 N rs.now }
{
    let n = record::len(rs);
    let mut places = 0;
    for i in 0..n {
        places = taken(places) + record::children(rs, i);
    }
    if places == 0 { None } else { Some(n) }
}

// 6: a name's place held by another form. While none is, only the innermost open record has names to come: they stand first, and a name opens none.
pub fn not_a_name(rs: &[u32]) -> Option<usize>
    ensures { (N : ℕ) → result ≡ check6 N rs.now }
{
    let mut due = 0;
    for i in 0..record::len(rs) {
        let f = record::form(rs, i);
        if due == 0 {
            due = form::names(f, record::count(rs, i));
        } else if f != form::IDENTIFIER {
            return Some(i);
        } else {
            due -= 1;
        }
    }
    None
}

pub fn is_empty_call(rs: &[u32], i: usize) -> bool
    requires { i < length (records rs.now) }
    ensures { result ≡ eqb (nth rs.now i).form 8 && eqb (nth rs.now i).count 0 }
{
    record::form(rs, i) == form::CALL && record::count(rs, i) == 0
}

// 7: a call of nothing.
pub fn empty_call(rs: &[u32]) -> Option<usize>
    ensures { (N : ℕ) → result ≡ check7 N rs.now }
{
    (0..record::len(rs)).find(|&i| is_empty_call(rs, i))
}

pub fn is_untested(rs: &[u32], i: usize) -> bool
    requires { i < length (records rs.now) }
    ensures { result ≡ untested (nth rs.now i) }
{
    let f = record::form(rs, i);
    if f == form::WHEN {
        return record::count(rs, i) == 0;
    }
    f == form::UNLESS && record::count(rs, i) == 0
}

// 16: a when or an unless without a test.
pub fn untested(rs: &[u32]) -> Option<usize>
    ensures { (N : ℕ) → result ≡ check16 N rs.now }
{
    (0..record::len(rs)).find(|&i| is_untested(rs, i))
}
