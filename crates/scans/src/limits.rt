// The table of forms by columns, made once for many records: a limit is then one load, and no branch on the form (docs/SPEED.md, 32).
ghost use Rattle.std.specs.Prelude.{◌≡◌, ◌<◌, ◌≤◌, length};
ghost use Rattle.tree.specs.Record.{records, nth};
ghost use Rattle.scans.specs.Limits.{id_column, limits, parts_at, Fields, Within};
ghost use Rattle.scans.specs.Tells.{Tells};

use std::array;
use table::wide;
use tree::{form, record};

const LAST_ID: usize = 4294967294;

// The largest count.
const LARGEST: usize = 255;

// A number for each form, form 0 included: an index by form then needs no multiplication.
pub type Column = [usize; 13];

// The names of a record, or its children: those that every record of the form has, and those for each one counted.
#[derive(Clone, Copy)]
pub struct Parts {
    pub every: Column,
    pub counted: Column,
}

impl Parts {
    // How many record i has.
    pub fn of(&self, rs: &[u32], i: usize) -> usize
        requires i_in_bounds { i < length (records rs.now) }
        requires i_bound { (nth rs.now i).form ≤ 12 }
        requires fits { parts_at self.now (nth rs.now i) ≤ 18446744073709551615 }
        ensures { result ≡ parts_at self.now (nth rs.now i) }
    {
        let f = wide(record::form(rs, i));
        self.every[f] + self.counted[f] * wide(record::count(rs, i))
    }
}

// The limits of a record's fields, how many names may be due, and its names and children.
#[derive(Clone, Copy)]
pub struct Limits {
    pub least_id: Column,
    pub most_id: Column,
    pub least_count: Column,
    pub most_count: Column,
    pub name_below: Column,
    pub most_due: Column,
    pub names: Parts,
    pub children: Parts,
}

// The limit of ids on the forms that have one, 0 on the others. That of form 0 is given, since it is no form.
fn id_column(none: usize, limit: usize) -> Column
    ensures { result ≡ id_column none limit }
{
    let mut column = array::from_fn(|f| if form::has_id(f as u32) { limit } else { 0 });
    column[0] = none;
    column
}

impl Limits {
    // Where there are so many names. No id is within the limits of form 0.
    pub fn new(names: usize) -> Limits
        ensures { result ≡ limits names }
    {
        Limits {
            least_id: id_column(1, 1),
            most_id: id_column(0, LAST_ID),
            least_count: [0, 0, 0, 0, 0, 0, 0, 0, 1, 0, 0, 1, 1],
            most_count: [
                0, 0, 0, 0, LARGEST, 0, LARGEST, LARGEST, LARGEST, 0, LARGEST, LARGEST, LARGEST,
            ],
            name_below: [1, names, 2, 1, 1, 1, 1, 1, 1, 1, 1, 1, 1],
            most_due: [0, LARGEST, 0, 0, 0, 0, 0, 0, 0, 0, 0, 0, 0],
            names: Parts {
                every: array::from_fn(|f| form::names(f as u32, 0)),
                counted: array::from_fn(|f| form::names(f as u32, 1) - form::names(f as u32, 0)),
            },
            children: Parts {
                every: array::from_fn(|f| form::children(f as u32, 0)),
                counted: array::from_fn(|f| form::children(f as u32, 1)
                    - form::children(f as u32, 0)),
            },
        }
    }

    // Whether the fields of record i are within its form's limits, but for the least count, which is no limit of check 3.
    pub fn fit(&self, rs: &[u32], i: usize) -> bool
        requires { i < length (records rs.now) }
        ensures { Tells result (Fields self.now (nth rs.now i)) }
    {
        let form = record::form(rs, i);
        if form::FORMS < form {
            return false;
        }
        let f = wide(form);
        let id = wide(record::id(rs, i));
        if id < self.least_id[f] || self.most_id[f] < id {
            return false;
        }
        if self.most_count[f] < wide(record::count(rs, i)) {
            return false;
        }
        wide(record::name(rs, i)) < self.name_below[f]
    }

    // Whether record i is within its form's limits, where so many names are due.
    pub fn within(&self, rs: &[u32], i: usize, due: usize) -> bool
        requires { i < length (records rs.now) }
        ensures { Tells result (Within self.now (nth rs.now i) due) }
    {
        if !self.fit(rs, i) {
            return false;
        }
        let f = wide(record::form(rs, i));
        if wide(record::count(rs, i)) < self.least_count[f] {
            return false;
        }
        due <= self.most_due[f]
    }
}
