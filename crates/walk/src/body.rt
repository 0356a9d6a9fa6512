// What the body of a define says of its name.
ghost use Rattle.std.specs.Prelude.{◌≡◌, false, ◌&&◌, ◌<◌, length, get_or, eqb};
ghost use Rattle.tree.specs.Record.{records, nth};
ghost use Rattle.pass.specs.Read.{is_class};
ghost use Rattle.walk.specs.Contract.{SomeTree, SomeTreeOf, Reaches, TellsIdent, TellsBuiltin, TellsForm, TellsBody};

use semantic::NONE;
use table::wide;
use tree::form::{AND, CALL, IDENTIFIER, LAMBDA};

// The classes of a name: bits of its byte in the table that C lends, so numbers and no enum.
pub const PRELUDE: u8 = 1;

const MODULE_GETTER: u8 = 2;

const MODULE_NAME: u8 = 4;

const HASH_GETTER: u8 = 8;

// What a define's body is. `alias` is the number that the define's fact stores, NONE for none: an Option would be taken apart there at once.
#[derive(Clone, Copy)]
pub struct Body {
    pub builtin: bool,
    pub required: bool,
    pub alias: u32,
    pub lambda: bool,
}

pub fn is_class(classes: &[u8], name: u32, k: u8) -> bool
    requires { (name < length classes.now) × (0 < k) }
    ensures { result ≡ is_class k (get_or classes.now name 0) }
{
    let c = classes[wide(name)];
    c / k % 2 == 1
}

fn is_and_of_one(all: &[u32], i: usize) -> bool
    requires { i < length (records all.now) }
    ensures { result ≡ eqb (nth all.now i).form 10 && eqb (nth all.now i).count 1 }
{
    tree::record::form(all, i) == AND && tree::record::count(all, i) == 1
}

// Where the tree stands that an expression is: an and of one child is that child.
pub fn core_at(all: &[u32], at: usize) -> usize
    requires { SomeTree all.now at }
    ensures { Reaches all.now at result }
{
    let mut i = at;
    // No range: where the ands end, no count tells.
    while is_and_of_one(all, i) {
        i += 1;
    }
    i
}

// Whether the tree at the record is an identifier of the class k.
fn is_ident_of(classes: &[u8], all: &[u32], at: usize, k: u8) -> bool
    requires { SomeTreeOf (length classes.now) all.now at × (0 < k) }
    ensures { TellsIdent classes.now k all.now at result }
{
    tree::record::form(all, at) == IDENTIFIER && is_class(classes, tree::record::name(all, at), k)
}

// `is_a_builtin_definition`, of a call.
fn is_builtin(classes: &[u8], all: &[u32], at: usize) -> bool
    requires { SomeTreeOf (length classes.now) all.now at × ((nth all.now at).form ≡ 8) }
    ensures { TellsBuiltin classes.now all.now at result }
{
    if tree::record::count(all, at) <= 1 {
        return false;
    }
    let h = core_at(all, at + 1);
    if !is_ident_of(classes, all, h, MODULE_GETTER) {
        return false;
    }
    is_ident_of(classes, all, core_at(all, h + 1), MODULE_NAME)
}

fn plain_body(alias: u32, lambda: bool) -> Body
    ensures { result ≡ record { builtin = false; required = false; alias = alias; lambda = lambda } }
{
    Body {
        builtin: false,
        required: false,
        alias,
        lambda,
    }
}

// What the form of the tree at the record says. `is_a_require_definition` is of a call's head.
fn form_at(classes: &[u8], all: &[u32], at: usize) -> Body
    requires { SomeTreeOf (length classes.now) all.now at }
    ensures { TellsForm classes.now all.now at result }
{
    let form = tree::record::form(all, at);
    match form {
        IDENTIFIER => plain_body(tree::record::id(all, at), false),
        LAMBDA => plain_body(NONE, true),
        CALL => Body {
            builtin: is_builtin(classes, all, at),
            required: is_ident_of(classes, all, core_at(all, at + 1), HASH_GETTER),
            alias: NONE,
            lambda: false,
        },
        _ => plain_body(NONE, false),
    }
}

// The body at the record.
pub fn body_at(classes: &[u8], all: &[u32], at: usize) -> Body
    requires { SomeTreeOf (length classes.now) all.now at }
    ensures { TellsBody classes.now all.now at result }
{
    form_at(classes, all, core_at(all, at))
}
