// Records by number: six numbers each, one record after another.
ghost use Rattle.std.specs.Prelude.{◌≡◌, true, ◌*◌, ◌<◌, ◌≤◌, length, drop, get_or};
ghost use Rattle.tree.specs.Record.{width, put, records, nth};
ghost use Rattle.tree.specs.Form.{form_of, children_of, is_form};

use crate::form;

pub const WIDTH: usize = 6;

const FORM: usize = 0;

const ID: usize = 1;

const NAME: usize = 2;

const COUNT: usize = 3;

const FROM: usize = 4;

const TO: usize = 5;

// How many records there are.
pub fn len(rs: &[u32]) -> usize
    ensures { result ≡ length (records rs.now) }
{
    rs.len() / WIDTH
}

// The part of the records that starts at record n.
pub fn part_at(rs: &[u32], n: usize) -> &[u32]
    requires { width * n ≤ length rs.now }
    ensures { result.now ≡ drop (width * n) rs.now }
{
    let start = WIDTH * n;
    &rs[start..]
}

// Number j of record i.
fn field(rs: &[u32], i: usize, j: usize) -> u32
    requires { (i < length (records rs.now)) × (j < width) }
    ensures { result ≡ get_or (put (nth rs.now i)) j 0 }
{
    rs[WIDTH * i + j]
}

// A function for each number: its contract names the field, which one function with the place as an argument or a const parameter would not.
pub fn form(rs: &[u32], i: usize) -> u32
    requires { i < length (records rs.now) }
    ensures { result ≡ (nth rs.now i).form }
{
    field(rs, i, FORM)
}

pub fn id(rs: &[u32], i: usize) -> u32
    requires { i < length (records rs.now) }
    ensures { result ≡ (nth rs.now i).id }
{
    field(rs, i, ID)
}

pub fn name(rs: &[u32], i: usize) -> u32
    requires { i < length (records rs.now) }
    ensures { result ≡ (nth rs.now i).name }
{
    field(rs, i, NAME)
}

pub fn count(rs: &[u32], i: usize) -> u32
    requires { i < length (records rs.now) }
    ensures { result ≡ (nth rs.now i).count }
{
    field(rs, i, COUNT)
}

pub fn from(rs: &[u32], i: usize) -> u32
    requires { i < length (records rs.now) }
    ensures { result ≡ (nth rs.now i).from }
{
    field(rs, i, FROM)
}

pub fn to(rs: &[u32], i: usize) -> u32
    requires { i < length (records rs.now) }
    ensures { result ≡ (nth rs.now i).to }
{
    field(rs, i, TO)
}

// How many children record i has: no more than a count of 32 bits gives.
pub fn children(rs: &[u32], i: usize) -> usize
    requires { i < length (records rs.now) }
    ensures value { result ≡ children_of (nth rs.now i).form (nth rs.now i).count }
    ensures few { result ≤ 8589934593 }
{
    form::children(form(rs, i), count(rs, i))
}

// The same where the form is known.
pub fn known_children(rs: &[u32], i: usize) -> usize
    requires i_in_bounds { i < length (records rs.now) }
    requires i_value { is_form (form_of (nth rs.now i).form) ≡ true }
    ensures value { result ≡ children_of (nth rs.now i).form (nth rs.now i).count }
    ensures few { result ≤ 8589934593 }
{
    form::known_children(form(rs, i), count(rs, i))
}
