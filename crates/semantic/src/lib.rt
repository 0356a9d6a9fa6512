#![tactic(auto)]
// The facts, by value. An id is a record's id, and NONE stands where the Rust has `None`.
ghost use Rattle.std.specs.Prelude.{◌≡◌};
ghost use Rattle.semantic.specs.Information.{new, shadows, with_usage_count, refers_to, aliases_to, mark_builtin, mark_required, with_offset, with_capture_index, with_read_capture_offset, with_heap_offset, with_read_heap_offset, with_captured_from_enclosing};

// A number and no `Option`: a row holds it, and `Some` of it would be the same number as none.
pub const NONE: u32 = 4294967295;

#[derive(Clone, Copy, Debug, PartialEq, Eq)]
pub enum IdentifierStatus {
    Global,
    Local,
    LocallyDefinedFunction,
    LetVar,
    Captured,
    Free,
    HeapAllocated,
}

// A place in the script, carried and never looked at.
#[derive(Clone, Copy, Debug, PartialEq, Eq)]
pub struct Span {
    pub start: u32,
    pub end: u32,
}

// The fact of an identifier: read, set or in a name's place.
#[derive(Clone, Copy, Debug, PartialEq, Eq)]
pub struct SemanticInformation {
    pub kind: IdentifierStatus,
    pub set_bang: bool,
    pub depth: u32,
    pub shadows: u32,
    pub usage_count: u32,
    pub span: Span,
    pub refers_to: u32,
    pub aliases_to: u32,
    pub builtin: bool,
    pub last_usage: bool,
    pub stack_offset: u32,
    pub escapes: bool,
    pub capture_index: u32,
    pub read_capture_offset: u32,
    pub captured_from_enclosing: bool,
    pub heap_offset: u32,
    pub read_heap_offset: u32,
    pub is_shadowed: bool,
    pub is_required_identifier: bool,
}

// The Rust's builder methods: one of them for any field would take the field as a closure, and read no plainer where it is called.
impl SemanticInformation {
    pub fn new(kind: IdentifierStatus, depth: u32, span: Span) -> Self
        ensures { result ≡ new kind depth span }
    {
        SemanticInformation {
            kind,
            set_bang: false,
            depth,
            shadows: NONE,
            usage_count: 0,
            span,
            refers_to: NONE,
            aliases_to: NONE,
            builtin: false,
            last_usage: false,
            stack_offset: NONE,
            escapes: false,
            capture_index: NONE,
            read_capture_offset: NONE,
            captured_from_enclosing: false,
            heap_offset: NONE,
            read_heap_offset: NONE,
            is_shadowed: false,
            is_required_identifier: false,
        }
    }

    pub fn shadows(mut self, id: u32) -> Self
        ensures { result ≡ shadows id self }
    {
        self.shadows = id;
        self
    }

    pub fn with_usage_count(mut self, count: u32) -> Self
        ensures { result ≡ with_usage_count count self }
    {
        self.usage_count = count;
        self
    }

    pub fn refers_to(mut self, id: u32) -> Self
        ensures { result ≡ refers_to id self }
    {
        self.refers_to = id;
        self
    }

    pub fn aliases_to(mut self, id: u32) -> Self
        ensures { result ≡ aliases_to id self }
    {
        self.aliases_to = id;
        self
    }

    pub fn mark_builtin(mut self) -> Self
        ensures { result ≡ mark_builtin self }
    {
        self.builtin = true;
        self
    }

    pub fn mark_required(mut self) -> Self
        ensures { result ≡ mark_required self }
    {
        self.is_required_identifier = true;
        self
    }

    pub fn with_offset(mut self, offset: u32) -> Self
        ensures { result ≡ with_offset offset self }
    {
        self.stack_offset = offset;
        self
    }

    pub fn with_capture_index(mut self, offset: u32) -> Self
        ensures { result ≡ with_capture_index offset self }
    {
        self.capture_index = offset;
        self
    }

    pub fn with_read_capture_offset(mut self, offset: u32) -> Self
        ensures { result ≡ with_read_capture_offset offset self }
    {
        self.read_capture_offset = offset;
        self
    }

    pub fn with_heap_offset(mut self, offset: u32) -> Self
        ensures { result ≡ with_heap_offset offset self }
    {
        self.heap_offset = offset;
        self
    }

    pub fn with_read_heap_offset(mut self, offset: u32) -> Self
        ensures { result ≡ with_read_heap_offset offset self }
    {
        self.read_heap_offset = offset;
        self
    }

    pub fn with_captured_from_enclosing(mut self, enclosing: bool) -> Self
        ensures { result ≡ with_captured_from_enclosing enclosing self }
    {
        self.captured_from_enclosing = enclosing;
        self
    }
}

// What is known of a bound name, as a captured or an argument entry keeps it.
#[derive(Clone, Copy, Debug, PartialEq, Eq)]
pub struct ScopeInfo {
    pub id: u32,
    pub captured: bool,
    pub usage_count: u32,
    pub last_used: u32,
    pub stack_offset: u32,
    pub escapes: bool,
    pub capture_offset: u32,
    pub captured_from_enclosing: bool,
    pub mutated: bool,
    pub heap_offset: u32,
    pub read_capture_offset: u32,
    pub read_heap_offset: u32,
    pub parent_heap_offset: u32,
    pub local_heap_offset: u32,
    pub depth: u32,
}

// Some entries of a lent table, one after another.
#[derive(Clone, Copy, Debug, PartialEq, Eq)]
pub struct ListAt {
    pub first: u32,
    pub length: u32,
}

// The fact of a lambda.
#[derive(Clone, Copy, Debug, PartialEq, Eq)]
pub struct FunctionInformation {
    pub captured_vars: ListAt,
    pub arguments: ListAt,
    pub escapes: bool,
    pub aliases_to: u32,
    pub depth: u32,
}

#[derive(Clone, Copy, Debug, PartialEq, Eq)]
pub enum CallKind {
    Normal,
    TailCall,
    // how many lambdas lie between the define and the call
    SelfTailCall(u32),
}

// The fact of a call.
#[derive(Clone, Copy, Debug, PartialEq, Eq)]
pub struct CallSiteInformation {
    pub kind: CallKind,
    pub span: Span,
}

impl CallSiteInformation {
    pub fn new(kind: CallKind, span: Span) -> Self
        ensures { result ≡ record { kind = kind; span = span } }
    {
        CallSiteInformation { kind, span }
    }
}

// The fact of a let: the height before it, the id of the lambda around it, and its names as they left.
#[derive(Clone, Copy, Debug, PartialEq, Eq)]
pub struct LetInformation {
    pub stack_offset: u32,
    pub function_context: u32,
    pub arguments: ListAt,
}

impl LetInformation {
    pub fn new(stack_offset: u32, function_context: u32, arguments: ListAt) -> Self
        ensures { result ≡ record { stack_offset = stack_offset; function_context = function_context; arguments = arguments } }
    {
        LetInformation {
            stack_offset,
            function_context,
            arguments,
        }
    }
}

// What a row of the facts is.
#[derive(Clone, Copy, Debug, PartialEq, Eq)]
pub enum RowKind {
    Blank,
    Variable,
    Function,
    CallSite,
    Let,
}

pub mod amend;
pub mod fields;
pub mod kinds;
pub mod list_entries;
pub mod numbers;
pub mod rows;
