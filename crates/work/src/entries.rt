// What is known of live names, by the binder's record.
ghost use Rattle.std.specs.Prelude.{◌≡◌, ◌<◌, length};
ghost use Rattle.pass.specs.State.{top_level_entry, local_entry, heap_entry};
ghost use Rattle.pass.specs.Run.{rows_most};
ghost use Rattle.work.specs.Coded.{coded};
ghost use Rattle.work.specs.Works.{work_long};
ghost use Rattle.work.specs.Entries.{used_more, used_last, now_captured, now_mutated};
ghost use Rattle.work.specs.Leaves.{LoadsEntry, StoresEntry};

use crate::{ENTRIES, ENTRY, narrow};
use semantic::NONE;

#[derive(Clone, Copy, PartialEq, Eq)]
pub struct Entry {
    pub captured: bool,
    pub mutated: bool,
    pub uses: u32,
    // the record of the last use, counted from 1; 0 where there is none. It stays a number: with an Option `store_entry` would ask more of it, that
    // one more has room in its row
    pub last: u32,
    pub slot: u32,
    pub heap: u32,
    pub depth: u32,
}

impl Entry {
    // `ScopeInfo::new_top_level`, `new_local` and `new_heap_allocated_var`
    pub fn top_level() -> Self
        ensures { result ≡ coded top_level_entry }
    {
        Entry {
            captured: false,
            mutated: false,
            uses: 0,
            last: 0,
            slot: NONE,
            heap: NONE,
            depth: 1,
        }
    }

    pub fn local(slot: u32, depth: u32) -> Self
        ensures { result ≡ coded (local_entry slot depth) }
    {
        Entry {
            slot,
            depth,
            ..Self::top_level()
        }
    }

    pub fn on_heap(slot: u32, heap: u32, depth: u32) -> Self
        ensures { result ≡ coded (heap_entry slot heap depth) }
    {
        Entry {
            captured: true,
            mutated: true,
            heap,
            ..Self::local(slot, depth)
        }
    }

    pub fn used(mut self) -> Self
        requires { self.uses < 4294967295 }
        ensures { result ≡ used_more self }
    {
        self.uses += 1;
        self
    }

    // Used last by the identifier at this record.
    pub fn used_by(mut self, at: usize) -> Self
        requires { at < rows_most }
        ensures { result ≡ used_last at self }
    {
        self.last = narrow(at + 1);
        self
    }

    pub fn capture(mut self) -> Self
        ensures { result ≡ now_captured self }
    {
        self.captured = true;
        self
    }

    pub fn mutate(mut self) -> Self
        ensures { result ≡ now_mutated self }
    {
        self.mutated = true;
        self
    }
}

pub fn load_entry(work: &[u32], at: usize) -> Entry
    requires { (length work.now ≡ work_long) × (at < rows_most) }
    ensures { LoadsEntry work.now at result }
{
    let mut row = [0; ENTRY];
    table::get(work, ENTRIES + ENTRY * at, &mut row);
    let [first, last, slot, heap, depth] = row;
    Entry {
        captured: first % 2 == 1,
        mutated: first / 2 % 2 == 1,
        uses: first / 4,
        last,
        slot,
        heap,
        depth,
    }
}

pub fn store_entry(work: &mut [u32], at: usize, e: Entry)
    requires { (length work.old ≡ work_long) × (at < rows_most) × (e.uses < 536870912) }
    ensures { StoresEntry work.old at e work.new }
{
    let row = [
        e.captured as u32 + 2 * (e.mutated as u32) + 4 * e.uses,
        e.last,
        e.slot,
        e.heap,
        e.depth,
    ];
    table::put(work, ENTRIES + ENTRY * at, &row);
}
