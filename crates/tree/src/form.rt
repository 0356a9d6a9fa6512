// The twelve forms: how many children a record has, how many of them are names, and whether it has an id. Tables are by form, from 0 to 12,
// and 0 is no form. Forms are numbers, no enum: the records that are lent hold them, and document 01 asks for a `match` on them with ranges.
ghost use Rattle.std.specs.Prelude.{◌≡◌, true, ◌+◌, ◌*◌, ◌≤◌, get_or};
ghost use Rattle.tree.specs.Form.{form_of, names_of, children_of, is_form, has_id_in};

use table::wide;

pub const FORMS: u32 = 12;

pub const IDENTIFIER: u32 = 1;

pub const CONSTANT: u32 = 2;

pub const DEFINE: u32 = 5;

pub const LAMBDA: u32 = 6;

pub const BEGIN: u32 = 7;

pub const CALL: u32 = 8;

pub const SET: u32 = 9;

pub const AND: u32 = 10;

pub const WHEN: u32 = 11;

pub const UNLESS: u32 = 12;

// A form's children, or the names among them: those that every record has, and those that it has for each one counted. No `match` on the form
// here: forms come mixed, and a branch on one is often mispredicted (docs/SPEED.md, 32).
struct Parts {
    fixed: [u8; 13],
    counted: [u8; 13],
}

const CHILDREN: Parts = Parts {
    fixed: [0, 0, 0, 3, 1, 2, 1, 0, 0, 2, 0, 0, 0],
    counted: [0, 0, 0, 0, 2, 0, 1, 1, 1, 0, 1, 1, 1],
};

const NAMES: Parts = Parts {
    fixed: [0, 0, 0, 0, 0, 1, 0, 0, 0, 1, 0, 0, 0],
    counted: [0, 0, 0, 0, 1, 0, 1, 0, 0, 0, 0, 0, 0],
};

impl Parts {
    fn of(&self, form: u32, count: u32) -> usize
        requires { form ≤ 12 }
        ensures { result ≡ get_or self.now.fixed form 0 + get_or self.now.counted form 0 * count }
    {
        let f = wide(form);
        usize::from(self.fixed[f]) + usize::from(self.counted[f]) * wide(count)
    }
}

// How many children a record has; none where its form is unknown.
pub fn children(form: u32, count: u32) -> usize
    ensures { result ≡ children_of form count }
{
    if FORMS < form {
        return 0;
    }
    CHILDREN.of(form, count)
}

// The same where the form is known, which costs no test.
pub fn known_children(form: u32, count: u32) -> usize
    requires { is_form (form_of form) ≡ true }
    ensures { result ≡ children_of form count }
{
    CHILDREN.of(form, count)
}

// How many of the children are names, which stand first.
pub fn names(form: u32, count: u32) -> usize
    ensures { result ≡ names_of form count }
{
    if FORMS < form {
        return 0;
    }
    NAMES.of(form, count)
}

// The id rule: whether a record of the form has an id.
pub fn has_id(form: u32) -> bool
    ensures { result ≡ has_id_in (form_of form) }
{
    match form {
        1..=2 | 4 | 6 | 8 => true,
        _ => false,
    }
}
