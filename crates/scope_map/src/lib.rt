#![tactic(auto)]
// Layers of names, each with a value. The live names stand in a lent table, oldest first, as rows of three numbers: name, layer, and value and
// link packed. The bottom layer is 1. After the rows stand the hints, a number for each name: no row from it on has the name. A row's link is the
// name's hint as it was before the row (docs/SPEED.md, 30 and 40).
ghost use Rattle.std.specs.Prelude.{◌≡◌, List, ℕ, ◌+◌, ◌*◌, ◌≤◌, ◌<◌, length};
ghost use Rattle.scope_map.specs.ScopeMap.{new, push_layer, pop_layer, define, remove};
ghost use Rattle.scope_map.specs.Rows.{values_most, links_most, row_at, live_of, written};
ghost use Rattle.scope_map.specs.Hints.{map_length, Roomy, with_hint, Bounds, Enters, Leaves, Moves};
ghost use Rattle.scope_map.specs.Held.{Held, Becomes, Tells, Gets, Places, Starts, distance_of, with_row, DefinesAt};

use table::wide;

// There is room for 4,096 rows.
const HINTS: usize = 12288;

// Names from here on have no hint.
const HINTED: u32 = 1024;

// Values are below this.
const VALUES: u32 = 65536;

// How many layers there are, and how many rows.
#[derive(Clone, Copy, PartialEq, Eq)]
pub struct ScopeMap {
    pub depth: u32,
    pub length: usize,
}

// The newest of a name.
#[derive(Clone, Copy, PartialEq, Eq)]
pub struct Found {
    pub row: usize,
    pub layer: u32,
    pub value: u32,
}

// A live name.
#[derive(Clone, Copy, PartialEq, Eq)]
pub struct Row {
    pub name: u32,
    pub layer: u32,
    pub value: u32,
}

impl ScopeMap {
    pub fn new() -> Self
        ensures { (t : List ℕ) → map_length ≤ length t → Held result t new }
    {
        ScopeMap {
            depth: 1,
            length: 0,
        }
    }

    pub fn depth(self) -> u32
        ensures { result ≡ self.depth }
    {
        self.depth
    }

    pub fn push_layer(self) -> Self
        requires { self.depth < 4294967295 }
        ensures { (t : List ℕ) → Becomes self t push_layer result t }
    {
        ScopeMap {
            depth: self.depth + 1,
            ..self
        }
    }

    // The first row of the newest layer. The rows from it on are the layer's names, in the order they were defined.
    pub fn newest_layer(self, t: &[u32]) -> usize
        requires { Roomy self.length t.now }
        ensures { Starts self t.now result }
    {
        for i in (0..self.length).rev() {
            if t[3 * i + 1] != self.depth {
                return i + 1;
            }
        }
        0
    }

    // The newest layer goes, unless it is the bottom one.
    pub fn pop_layer(self, t: &mut [u32]) -> Self
        requires { Roomy self.length t.old }
        ensures { Becomes self t.old pop_layer result t.new }
    {
        let start = self.newest_layer(t);
        self.pop_from(t, start)
    }

    // The same, where the first row of the newest layer is known.
    pub fn pop_from(self, t: &mut [u32], start: usize) -> Self
        requires { Roomy self.length t.old × Starts self t.old start }
        ensures { Becomes self t.old pop_layer result t.new }
    {
        if self.depth <= 1 {
            return self;
        }
        leave_rows(t, start, self.length);
        ScopeMap {
            depth: self.depth - 1,
            length: start,
        }
    }

    // The newest of the name.
    pub fn get(self, t: &[u32], name: u32) -> Option<Found>
        requires { Roomy self.length t.now }
        ensures { Gets self t.now name result }
    {
        for i in (0..bound(t, self.length, name)).rev() {
            if t[3 * i] == name {
                return Some(Found {
                    row: i,
                    layer: t[3 * i + 1],
                    value: t[3 * i + 2] % VALUES,
                });
            }
        }
        None
    }

    // How many layers down from the newest the name lies.
    pub fn depth_of(self, t: &[u32], name: u32) -> Option<u32>
        requires { Roomy self.length t.now }
        ensures { Tells self t.now (λ m. distance_of m name) result }
    {
        let found = self.get(t, name)?;
        Some(self.depth.saturating_sub(found.layer))
    }

    // The row that defines the name in the newest layer; where it has none, the row after the last. Rows of older layers stand before, so the
    // newest of the name decides.
    pub fn place(self, t: &[u32], name: u32) -> usize
        requires { Roomy self.length t.now }
        ensures { Places self t.now name result }
    {
        match self.get(t, name) {
            Some(found) if found.layer == self.depth => found.row,
            _ => self.length,
        }
    }

    // In a layer that has the name the value is replaced. Answers the row that the name is in; a row after the last is one more.
    pub fn define_at(self, t: &mut [u32], name: u32, value: u32) -> usize
        requires { Roomy (self.length + 1) t.old × (value < values_most) }
        ensures { DefinesAt self t.old name value result t.new }
    {
        let place = self.place(t, name);
        let length = self.length;
        let row = Row {
            name,
            layer: self.depth,
            value,
        };
        if place < length {
            let link = t[3 * place + 2] / VALUES;
            put(t, place, row, link);
            return place;
        }
        enter(t, length, row);
        place
    }

    // One row more, unless the row is there.
    pub fn with_row(self, place: usize) -> Self
        requires { self.length < 18446744073709551615 }
        ensures { result ≡ with_row place self }
    {
        if place < self.length {
            return self;
        }
        ScopeMap {
            length: self.length + 1,
            ..self
        }
    }

    pub fn define(self, t: &mut [u32], name: u32, value: u32) -> Self
        requires { Roomy (self.length + 1) t.old × (value < values_most) }
        ensures { Becomes self t.old (define name value) result t.new }
    {
        let place = self.define_at(t, name, value);
        self.with_row(place)
    }

    // Out of the newest layer alone. The rows after the name's leave with it, and enter again one row down.
    pub fn remove(self, t: &mut [u32], name: u32) -> Self
        requires { Roomy self.length t.old }
        ensures { Becomes self t.old (remove name) result t.new }
    {
        let place = self.place(t, name);
        let length = self.length;
        if length <= place {
            return self;
        }
        let last = length - 1;
        leave_rows(t, place, length);
        enter_rows(t, place, last);
        ScopeMap {
            length: last,
            ..self
        }
    }

    // Row i, by which a caller walks the live names.
    pub fn row_at(self, t: &[u32], i: usize) -> Row
        requires { (i < self.length) × Roomy self.length t.now }
        ensures { live_of result ≡ row_at t.now i }
    {
        read(t, i)
    }
}

// Row i is read.
fn read(t: &[u32], i: usize) -> Row
    requires { 3 * i + 3 ≤ length t.now }
    ensures { live_of result ≡ row_at t.now i }
{
    Row {
        name: t[3 * i],
        layer: t[3 * i + 1],
        value: t[3 * i + 2] % VALUES,
    }
}

// Where a search for the name among n rows starts: no row from here on has it.
fn bound(t: &[u32], n: usize, name: u32) -> usize
    requires { Roomy n t.now }
    ensures { Bounds n t.now name result }
{
    if HINTED <= name {
        return n;
    }
    let hint = wide(t[HINTS + wide(name)]);
    if hint < n {
        return hint;
    }
    n
}

// Row i is written.
fn put(t: &mut [u32], i: usize, row: Row, link: u32)
    requires { (3 * i + 3 ≤ length t.old) × (row.value < values_most) × (link < links_most) }
    ensures { t.new ≡ written t.old i row.name row.layer row.value link }
{
    t[3 * i] = row.name;
    t[3 * i + 1] = row.layer;
    t[3 * i + 2] = row.value + VALUES * link;
}

// No row from row n on has the name.
fn set_hint(t: &mut [u32], name: u32, n: u32)
    requires { map_length ≤ length t.old }
    ensures { t.new ≡ with_hint t.old name n }
{
    if name < HINTED {
        t[HINTS + wide(name)] = n;
    }
}

// A row enters after n rows.
fn enter(t: &mut [u32], n: usize, row: Row)
    requires { Roomy (n + 1) t.old × (row.value < values_most) }
    ensures { Enters t.old n row.name row.layer row.value t.new }
{
    let link = bound(t, n, row.name) as u32;
    put(t, n, row, link);
    set_hint(t, row.name, n as u32 + 1);
}

// Row n, the last, leaves: its name's hint is what it was before.
fn leave(t: &mut [u32], n: usize)
    requires { Roomy (n + 1) t.old }
    ensures { Leaves t.old n (n + 1) t.new }
{
    let name = t[3 * n];
    let link = t[3 * n + 2] / VALUES;
    set_hint(t, name, link);
}

// The rows from row i on, of n, leave, the last first.
fn leave_rows(t: &mut [u32], i: usize, n: usize)
    requires { (i ≤ n) × Roomy n t.old }
    ensures { Leaves t.old i n t.new }
{
    for k in (i..n).rev() {
        leave(t, k);
    }
}

// The rows from row i + 1 to row n enter after i rows, so that each moves down by one.
fn enter_rows(t: &mut [u32], i: usize, n: usize)
    requires { (i ≤ n) × Roomy (n + 1) t.old }
    ensures { Moves t.old i n t.new }
{
    for k in i..n {
        let row = read(t, k + 1);
        enter(t, k, row);
    }
}
