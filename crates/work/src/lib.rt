#![tactic(auto)]
// What the pass works on beside the facts: the live names, what is known of each, the captures, and what is noted.
ghost use Rattle.std.specs.Prelude.{◌≡◌, ◌<◌};
ghost use Rattle.work.specs.Passes.{pass_new, in_context};

use scope_map::ScopeMap;
use semantic::NONE;

pub mod captures;
pub mod entries;
pub mod notes;
pub mod scope;

// The work table: the scope's map, its hints last; an entry for each record; the captures' map, its hints last; what is known of each
// capture, by its place; and the binder's record of each captured entry, by its row.
pub const SCOPE_HINTS: usize = 12288;

pub const ENTRIES: usize = 13312;

// So many records have an entry, and an entry is so many numbers.
pub const RECORDS: usize = 4096;

pub const ENTRY: usize = 5;

pub const CAPTURES: usize = 33792;

pub const CAPTURES_HINTS: usize = 46080;

pub const TAKEN: usize = 47104;

pub const BINDERS: usize = 55296;

pub const WORK: usize = 59392;

// A refusal of a second run, with the record: a name on the heap with no lambda around, or a read offset with no capture offset. Records are 32 bits
// wide here, so that what visits hand on stays small (docs/SPEED.md, 24).
#[derive(Clone, Copy, PartialEq, Eq)]
pub enum SecondRefusal {
    NoLambda(u32),
    NoCapture(u32),
}

// What a visit threads beside the tables. Below the visits the pass and each table are parameters of their own: a function takes those that it reads or
// changes, and its contract need not say that it keeps the others.
#[derive(Clone, Copy, PartialEq, Eq)]
pub struct Pass {
    // `defining_context`: the id of the define that the walk is in, or NONE: a number as the ids of facts are, to which it is held
    pub context: u32,
    pub scope: ScopeMap,
    pub captures: ScopeMap,
    // how many captured and argument entries all lists have
    pub captured_top: usize,
    pub arguments_top: usize,
    // the first places of refusals 9 and 10, and the first refusal of a second run
    pub nine: Option<u32>,
    pub ten: Option<u32>,
    pub second: Option<SecondRefusal>,
}

impl Pass {
    pub fn new(captured_top: usize, arguments_top: usize) -> Self
        ensures { result ≡ pass_new captured_top arguments_top }
    {
        Pass {
            context: NONE,
            scope: ScopeMap::new(),
            captures: ScopeMap::new(),
            captured_top,
            arguments_top,
            nine: None,
            ten: None,
            second: None,
        }
    }

    pub fn with_context(mut self, context: u32) -> Self
        ensures { result ≡ in_context context self }
    {
        self.context = context;
        self
    }

    pub fn depth(self) -> u32
        ensures { result ≡ self.scope.depth }
    {
        self.scope.depth
    }
}

// A record's number, or a row's, as a number of a table.
pub fn narrow(x: usize) -> u32
    requires { x < 4294967296 }
    ensures { result ≡ x }
{
    x as u32
}
