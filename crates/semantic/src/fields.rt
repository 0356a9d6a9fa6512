// Where the numbers of a row stand that are read or changed one by one. docs/ROWS.md has all.

// How many numbers a row of the facts has, and an entry.
pub const ROW: usize = 20;

pub const LIST_ENTRY: usize = 13;

// A row's first number. That of an identifier's fact is its kind, from 1 to 7.
pub const BLANK: u32 = 0;

pub const FUNCTION: u32 = 8;

pub const LET: u32 = 9;

pub const CALL_SITE: u32 = 10;

// The fact of an identifier.
pub mod variable {
    pub const KIND: usize = 0;

    pub const SET_BANG: usize = 1;

    pub const DEPTH: usize = 2;

    pub const SHADOWS: usize = 3;

    pub const USAGE_COUNT: usize = 4;

    pub const REFERS_TO: usize = 7;

    pub const BUILTIN: usize = 9;

    pub const LAST_USAGE: usize = 10;

    pub const STACK_OFFSET: usize = 11;

    pub const IS_SHADOWED: usize = 18;
}

// The fact of a lambda.
pub mod function {
    pub const CAPTURED_FIRST: usize = 1;

    pub const CAPTURED_LENGTH: usize = 2;

    pub const ARGUMENTS_FIRST: usize = 3;

    pub const ARGUMENTS_LENGTH: usize = 4;

    pub const ESCAPES: usize = 5;

    pub const ALIASES_TO: usize = 6;

    pub const DEPTH: usize = 7;
}

// The fact of a let.
pub mod lets {
    pub const STACK_OFFSET: usize = 1;

    pub const FUNCTION_CONTEXT: usize = 2;

    pub const ARGUMENTS_FIRST: usize = 3;

    pub const ARGUMENTS_LENGTH: usize = 4;
}

// The fact of a call.
pub mod call {
    pub const KIND: usize = 1;

    pub const SELF_NUMBER: usize = 2;

    pub const START: usize = 3;

    pub const END: usize = 4;
}

// A captured or an argument entry.
pub mod list_entry {
    pub const ID: usize = 1;

    // the yes-or-no fields
    pub const MARKS: usize = 2;

    pub const USAGE_COUNT: usize = 3;

    pub const LAST_USED: usize = 4;

    pub const STACK_OFFSET: usize = 5;

    pub const CAPTURE_OFFSET: usize = 6;

    pub const HEAP_OFFSET: usize = 7;

    pub const READ_CAPTURE_OFFSET: usize = 8;

    pub const READ_HEAP_OFFSET: usize = 9;

    pub const PARENT_HEAP_OFFSET: usize = 10;

    pub const LOCAL_HEAP_OFFSET: usize = 11;

    pub const DEPTH: usize = 12;
}
