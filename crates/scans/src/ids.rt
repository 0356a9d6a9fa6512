// Check 8 (docs/SPEED.md, 29). Ids that rise from record to record, or fall, are all different. Others are held to the earlier ones of their bucket, which are few,
// unless ids are chosen to share one. A link is a record counted from 1, and 0 ends a chain.
ghost use Rattle.std.specs.Prelude.{◌≡◌, false, not, ◌&&◌, [], ◌+◌, ◌<◌, ◌≤◌, eqb, length};
ghost use Rattle.tree.specs.Record.{records, nth};
ghost use Rattle.tree.specs.Check.{member, repeated};
ghost use Rattle.scans.specs.Tells.{Tells};
ghost use Rattle.scans.specs.Private.Seen.{seen};
ghost use Rattle.scans.specs.Private.InOrder.{InOrder};
ghost use Rattle.scans.specs.Private.Chain.{bucket_of, Chain, Chains};

use crate::{MOST_RECORDS, pick};
use table::wide;
use tree::record;

// Trees of at most this many records have tables of as many links: to clear those of 4096 would be a third of the whole pass at 30 records
// (docs/SPEED.md, 29).
const FEW: usize = 512;

// Ids are below this.
const IDS: usize = 4294967296;

// A prime near 2^32 by the golden ratio.
const MULTIPLIER: usize = 2654435761;

// The product from bit 20 on: those bits spread ids that have a common factor too.
fn bucket(id: u32, buckets: usize) -> usize
    requires { 0 < buckets }
    ensures value { result ≡ bucket_of buckets id }
    ensures few { result < buckets }
{
    wide(id) * MULTIPLIER / 1048576 % buckets
}

// Whether the id stands among the first `last` records, of which the last is of the id's bucket: along the chain, newest first. A `while`, since the
// links say which record is next.
fn stands(rs: &[u32], before: &[u16], last: usize, id: u32) -> bool
    requires last_value { id ≡ 0 → last ≡ 0 }
    requires chain { Chain rs.now before.now id last }
    ensures { result ≡ member id (seen rs.now last) }
{
    let mut p = last;
    while 0 < p {
        p -= 1;
        if record::id(rs, p) == id {
            return true;
        }
        p = usize::from(before[p]);
    }
    false
}

// Whether record i repeats an earlier id; 0 is none. If not, it becomes the newest of its bucket. Which records have an id comes mixed, as the
// forms do: each link is picked, and a branch on it would be mispredicted (docs/SPEED.md, 29).
fn repeats(rs: &[u32], i: usize, newest: &mut [u16], before: &mut [u16]) -> bool
    requires rs_len_bound { length (records rs.now) ≤ 4096 }
    requires i_in_bounds { i < length (records rs.now) }
    requires chains { Chains rs.now newest.old before.old i }
    ensures value { result ≡ not (eqb (nth rs.now i).id 0) && member (nth rs.now i).id (seen rs.now i) }
    ensures chained { result ≡ false → Chains rs.now newest.new before.new (i + 1) }
{
    let id = record::id(rs, i);
    let none = id == 0;
    let b = bucket(id, newest.len());
    let head = usize::from(newest[b]);
    let last = pick(none, 0, head);
    if stands(rs, before, last, id) {
        return true;
    }
    before[i] = last as u16;
    newest[b] = pick(none, head, i + 1) as u16;
    false
}

// 8, in tables of no links: by bucket, the link to its newest record; by record, the link to the one before it in its bucket.
fn repeated_in(rs: &[u32], newest: &mut [u16], before: &mut [u16]) -> Option<usize>
    requires rs_len_bound { length (records rs.now) ≤ 4096 }
    requires chains { Chains rs.now newest.old before.old 0 }
    ensures { result ≡ repeated [] (records rs.now) }
{
    for i in 0..record::len(rs) {
        if repeats(rs, i, newest, before) {
            return Some(i);
        }
    }
    None
}

// The same in tables of so many links, made here.
fn repeated_among<const LINKS: usize>(rs: &[u32]) -> Option<usize>
    requires some { 0 < LINKS }
    requires most { LINKS ≤ 4096 }
    requires room { length (records rs.now) ≤ LINKS }
    ensures { result ≡ repeated [] (records rs.now) }
{
    let mut newest = [0u16; LINKS];
    let mut before = [0u16; LINKS];
    repeated_in(rs, &mut newest, &mut before)
}

// Whether the ids rise from record to record, or fall. Which records have an id comes mixed: the numbers are picked.
fn ordered(rs: &[u32], rising: bool) -> bool
    ensures { Tells result (InOrder rising rs.now) }
{
    let mut last = pick(rising, 0, IDS);
    for i in 0..record::len(rs) {
        let id = wide(record::id(rs, i));
        let same = id == 0;
        let next = pick(same, last, id);
        if pick(rising, next, last) < pick(rising, last, next) + pick(same, 0, 1) {
            return false;
        }
        last = next;
    }
    true
}

// 8: an id used twice, at the record that repeats an earlier one. Ids mostly come in order: then none repeats, and no table is needed.
pub fn repeated_id(rs: &[u32]) -> Option<usize>
    requires { length (records rs.now) ≤ 4096 }
    ensures { result ≡ repeated [] (records rs.now) }
{
    if ordered(rs, true) || ordered(rs, false) {
        return None;
    }
    if record::len(rs) <= FEW {
        repeated_among::<FEW>(rs)
    } else {
        repeated_among::<MOST_RECORDS>(rs)
    }
}
