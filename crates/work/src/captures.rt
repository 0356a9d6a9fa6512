// The captures of a second run, by name. The value of a name is a row of the captured entries.
ghost use Rattle.std.specs.Prelude.{◌≡◌, List, ℕ, ◌+◌, ◌*◌, ◌≤◌, ◌<◌, length, get_or};
ghost use Rattle.table.specs.Region.{region};
ghost use Rattle.scope_map.specs.Hints.{rows_length};
ghost use Rattle.scope_map.specs.Held.{Places};
ghost use Rattle.pass.specs.Run.{list_entries_most};
ghost use Rattle.pass.specs.Lambda.{close_captures};
ghost use Rattle.work.specs.Coded.{Packable};
ghost use Rattle.work.specs.Works.{Spacious, work_long, captures_first, captures_length, capture_data_first};
ghost use Rattle.work.specs.Leaves.{Becomes};
ghost use Rattle.work.specs.Captures.{opened, GetsCapture, LoadsCapture, UsesCapture, DefinesRow, capture_put, DefinesCapture, TellsBinder, StoresBinder};

use crate::{BINDERS, CAPTURES, Pass, TAKEN, narrow};
use scope_map::Found;
use table::wide;

// A record's number is below this.
const RECORDS: u32 = 4096;

// What is known of a capture is so many numbers.
const TAKEN_ROW: usize = 2;

// What is known of a capture beside the row that it stands for: the record and the id of its binder, its uses, and whether the lambda
// around takes the name too.
#[derive(Clone, Copy, PartialEq, Eq)]
pub struct Capture {
    pub binder: u32,
    pub id: u32,
    pub uses: u32,
    pub enclosing: bool,
}

// The newest capture of the name: its place, its layer, and its row of the captured entries.
pub fn newest_capture(p: Pass, work: &[u32], name: u32) -> Option<Found>
    requires { Spacious p work.now }
    ensures { GetsCapture p work.now name result }
{
    p.captures.get(&work[CAPTURES..TAKEN], name)
}

pub fn load_capture(work: &[u32], place: usize) -> Capture
    requires { (length work.now ≡ work_long) × (place < list_entries_most) }
    ensures { LoadsCapture work.now place result }
{
    let mut row = [0; TAKEN_ROW];
    table::get(work, TAKEN + TAKEN_ROW * place, &mut row);
    let [id, last] = row;
    let rest = last / RECORDS;
    Capture {
        binder: last % RECORDS,
        id,
        uses: rest / 2,
        enclosing: rest % 2 == 1,
    }
}

// One use more of the capture at the place.
pub fn use_capture(work: &mut [u32], place: usize)
    requires { (length work.old ≡ work_long) × (place < list_entries_most)
        × (get_or work.old (capture_data_first + 2 * place + 1) 0 < 4294959104) }
    ensures { UsesCapture work.old place work.new }
{
    let i = TAKEN + TAKEN_ROW * place + 1;
    work[i] += 2 * RECORDS;
}

// The place of the capture that defining the name writes.
fn capture_place(p: Pass, work: &[u32], name: u32) -> usize
    requires { Spacious p work.now }
    ensures { Places p.captures (region work.now captures_first captures_length) name result }
{
    p.captures.place(&work[CAPTURES..TAKEN], name)
}

// The map alone: what is known of the capture is not written yet.
fn define_row(p: Pass, work: &mut [u32], name: u32, r: usize) -> Pass
    requires { Spacious p work.old × (3 * p.captures.length + 3 ≤ rows_length) × (r < list_entries_most) }
    ensures { DefinesRow p work.old name r result work.new }
{
    Pass {
        captures: p
            .captures
            .define(&mut work[CAPTURES..TAKEN], name, narrow(r)),
        ..p
    }
}

// All but the id are one number.
fn put_capture(work: &mut [u32], place: usize, t: Capture)
    requires { (length work.old ≡ work_long) × (place < list_entries_most) × Packable t }
    ensures { work.new ≡ capture_put work.old place t }
{
    let rest = 2 * t.uses + t.enclosing as u32;
    let row = [t.id, t.binder + RECORDS * rest];
    table::put(work, TAKEN + TAKEN_ROW * place, &row);
}

// The captured entry in row r is the name's newest capture.
pub fn define_capture(p: Pass, work: &mut [u32], name: u32, r: usize, t: Capture) -> Pass
    requires { Spacious p work.old × (3 * p.captures.length + 3 ≤ rows_length) × (r < list_entries_most) × Packable t }
    ensures { DefinesCapture p work.old name r t result work.new }
{
    let place = capture_place(p, work, name);
    let q = define_row(p, work, name, r);
    put_capture(work, place, t);
    q
}

pub fn open_captures(p: Pass) -> Pass
    requires { p.captures.depth < 4294967295 }
    ensures { (w : List ℕ) → Becomes p w opened result w }
{
    Pass {
        captures: p.captures.push_layer(),
        ..p
    }
}

pub fn close_captures(p: Pass, work: &mut [u32]) -> Pass
    requires { Spacious p work.old }
    ensures { Becomes p work.old close_captures result work.new }
{
    Pass {
        captures: p.captures.pop_layer(&mut work[CAPTURES..TAKEN]),
        ..p
    }
}

// The binder's record of the captured entry in row r.
pub fn binder_at(work: &[u32], r: usize) -> usize
    requires { (length work.now ≡ work_long) × (r < list_entries_most) }
    ensures { TellsBinder work.now r result }
{
    wide(work[BINDERS + r])
}

pub fn set_binder(work: &mut [u32], r: usize, b: usize)
    requires { (length work.old ≡ work_long) × (r < list_entries_most) × (b < 4294967296) }
    ensures { StoresBinder work.old r b work.new }
{
    work[BINDERS + r] = narrow(b);
}
