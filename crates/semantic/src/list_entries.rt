// Captured and argument entries: a row of numbers each.
ghost use Rattle.std.specs.Prelude.{◌≡◌, ◌&&◌, ◌+◌, ◌*◌, ◌≤◌, length};
ghost use Rattle.semantic.specs.Rows.{marks, no_list_entry, list_entry_width, put_list_entry};
ghost use Rattle.semantic.specs.ListEntries.{on_info, with_capture_offsets, with_heap_offsets};
ghost use Rattle.semantic.specs.Leaves.{Amends, Tells, StoresListEntry};

use crate::ScopeInfo;
use crate::fields::{LIST_ENTRY, list_entry};

// The yes-or-no fields, added together as docs/ROWS.md has them.
fn marks(captured: bool, escapes: bool, enclosing: bool, mutated: bool) -> u32
    ensures { result ≡ marks captured escapes enclosing mutated }
{
    u32::from(captured) + 2 * u32::from(escapes) + 4 * u32::from(enclosing) + 8 * u32::from(mutated)
}

pub fn store_list_entry(t: &mut [u32], i: usize, name: u32, info: ScopeInfo)
    requires { list_entry_width * i + list_entry_width ≤ length t.old }
    ensures { StoresListEntry t.old i name info t.new }
{
    let row = [
        name,
        info.id,
        marks(
            info.captured,
            info.escapes,
            info.captured_from_enclosing,
            info.mutated,
        ),
        info.usage_count,
        info.last_used,
        info.stack_offset,
        info.capture_offset,
        info.heap_offset,
        info.read_capture_offset,
        info.read_heap_offset,
        info.parent_heap_offset,
        info.local_heap_offset,
        info.depth,
    ];
    table::put(t, LIST_ENTRY * i, &row);
}

pub fn load_info(t: &[u32], i: usize) -> ScopeInfo
    requires { list_entry_width * i + list_entry_width ≤ length t.now }
    ensures { Tells put_list_entry no_list_entry (λ x. x.info) t.now i result }
{
    let mut row = [0; LIST_ENTRY];
    table::get(t, LIST_ENTRY * i, &mut row);
    let marks = row[list_entry::MARKS];
    ScopeInfo {
        id: row[list_entry::ID],
        captured: marks % 2 == 1,
        usage_count: row[list_entry::USAGE_COUNT],
        last_used: row[list_entry::LAST_USED],
        stack_offset: row[list_entry::STACK_OFFSET],
        escapes: marks / 2 % 2 == 1,
        capture_offset: row[list_entry::CAPTURE_OFFSET],
        captured_from_enclosing: marks / 4 % 2 == 1,
        mutated: marks / 8 % 2 == 1,
        heap_offset: row[list_entry::HEAP_OFFSET],
        read_capture_offset: row[list_entry::READ_CAPTURE_OFFSET],
        read_heap_offset: row[list_entry::READ_HEAP_OFFSET],
        parent_heap_offset: row[list_entry::PARENT_HEAP_OFFSET],
        local_heap_offset: row[list_entry::LOCAL_HEAP_OFFSET],
        depth: row[list_entry::DEPTH],
    }
}

pub fn name_at(t: &[u32], i: usize) -> u32
    requires { list_entry_width * i + list_entry_width ≤ length t.now }
    ensures { Tells put_list_entry no_list_entry (λ x. x.binder.name) t.now i result }
{
    t[LIST_ENTRY * i]
}

// Whether the entry is captured and mutated.
pub fn is_heap(t: &[u32], i: usize) -> bool
    requires { list_entry_width * i + list_entry_width ≤ length t.now }
    ensures { Tells put_list_entry no_list_entry (λ x. x.info.captured && x.info.mutated) t.now i result }
{
    let marks = t[LIST_ENTRY * i + list_entry::MARKS];
    marks % 2 == 1 && marks / 8 % 2 == 1
}

pub fn with_capture_offsets(t: &mut [u32], i: usize, offset: u32, read: u32)
    requires { list_entry_width * i + list_entry_width ≤ length t.old }
    ensures { Amends put_list_entry no_list_entry (on_info (with_capture_offsets offset read)) t.old i t.new }
{
    let b = LIST_ENTRY * i;
    t[b + list_entry::CAPTURE_OFFSET] = offset;
    t[b + list_entry::READ_CAPTURE_OFFSET] = read;
}

pub fn with_heap_offsets(t: &mut [u32], i: usize, heap: u32, read: u32, parent: u32, local: u32)
    requires { list_entry_width * i + list_entry_width ≤ length t.old }
    ensures { Amends put_list_entry no_list_entry (on_info (with_heap_offsets heap read parent local)) t.old i t.new }
{
    let b = LIST_ENTRY * i;
    t[b + list_entry::HEAP_OFFSET] = heap;
    t[b + list_entry::READ_HEAP_OFFSET] = read;
    t[b + list_entry::PARENT_HEAP_OFFSET] = parent;
    t[b + list_entry::LOCAL_HEAP_OFFSET] = local;
}
