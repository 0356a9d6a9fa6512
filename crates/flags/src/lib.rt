#![tactic(auto)]
// What a visit inherits, and what it hands to the parts of its expression.
ghost use Rattle.std.specs.Prelude.{◌≡◌};
ghost use Rattle.flags.specs.Flags.{FlagsAre};
ghost use Rattle.flags.specs.Part.{Room, Hands, at_part};
ghost use Rattle.pass.specs.Visit.{top_flags};

// The innermost lambda: its record and its id (docs/DECISIONS.md, 34).
#[derive(Clone, Copy)]
pub struct Around {
    pub at: u32,
    pub id: u32,
}

#[derive(Clone, Copy)]
pub struct Flags {
    // `stack_offset`
    pub height: u32,
    // `defining_context_depth`
    pub counter: u32,
    // `function_context`
    pub function: Option<Around>,
    // `tail_call_eligible`
    pub tail: bool,
    // `escape_analysis`
    pub escape: bool,
    // the expression stands directly in an inner begin
    pub direct: bool,
}

// A part of an expression, with what its flags depend on.
#[derive(Clone, Copy)]
pub enum Part {
    // no tail position: the test of an if, an initial expression, the expression of a set!
    NotTail,
    // a tail position where the whole is one: a branch of an if
    SameTail,
    // of a let with so many names
    LetBody(u32),
    // of the lambda with this record, this id and so many parameters
    Body(usize, u32, u32),
    Argument,
    // what comes after an argument or initial expression: one value more is on the stack
    Next,
    // of a call: whether it is a lambda, and how many arguments there are
    Head(bool, u32),
    // what an inner begin hands its children, and an and: whether it has one child alone
    InBegin,
    InAnd(bool),
    // of a row of children, with what the whole row is handed: whether it is the last
    Child(bool),
    DefineBody,
}

impl Flags {
    pub fn top() -> Self
        ensures { FlagsAre result top_flags }
    {
        Flags {
            height: 0,
            counter: 0,
            function: None,
            tail: false,
            escape: false,
            direct: false,
        }
    }

    // The core: each part by value. Fields that stay are copied one by one (docs/SPEED.md, 49).
    fn at_part(self, p: Part) -> Self
        requires { Room p self }
        ensures { result ≡ at_part p self }
    {
        match p {
            Part::NotTail => Flags {
                tail: false,
                direct: false,
                ..self
            },
            Part::SameTail => Flags {
                direct: false,
                ..self
            },
            Part::LetBody(k) => Flags {
                height: self.height + k,
                direct: false,
                ..self
            },
            Part::Body(at, id, k) => Flags {
                height: k,
                counter: self.counter + 1,
                function: Some(Around { at: at as u32, id }),
                tail: true,
                direct: false,
                ..self
            },
            Part::Argument => Flags {
                tail: false,
                escape: true,
                direct: false,
                ..self
            },
            Part::Next => Flags {
                height: self.height + 1,
                ..self
            },
            Part::Head(lambda, k) => Flags {
                height: self.height + k,
                tail: false,
                escape: self.tail && !lambda,
                direct: false,
                ..self
            },
            Part::InBegin => Flags {
                direct: true,
                ..self
            },
            Part::InAnd(alone) => Flags {
                direct: alone && self.direct,
                ..self
            },
            Part::Child(last) => Flags {
                tail: self.tail && last,
                ..self
            },
            Part::DefineBody => Flags {
                counter: if self.direct { 0 } else { self.counter },
                tail: false,
                direct: false,
                ..self
            },
        }
    }

    // Before a part is visited, in a struct that is lent by `&mut`. The answer is what `leave` puts back after it.
    pub fn enter(&mut self, p: Part) -> Self
        requires { Room p self.old }
        ensures { (result ≡ self.old) × (self.new ≡ at_part p self.old) }
    {
        let saved = *self;
        *self = saved.at_part(p);
        saved
    }

    pub fn leave(&mut self, saved: Self)
        ensures { self.new ≡ saved }
    {
        *self = saved;
    }

    // What a part is handed: a local is lent to `enter`, so that a visit lends no struct itself.
    pub fn part(mut self, p: Part) -> Self
        requires { Room p self }
        ensures { Hands p self result }
    {
        self.enter(p);
        self
    }

    // One part, and after it another.
    pub fn parts(mut self, p: Part, q: Part) -> (Self, Self)
        requires { Room p self × Room q self }
        ensures { Hands p self result.0 × Hands q self result.1 }
    {
        let saved = self.enter(p);
        let first = self;
        self.leave(saved);
        self.enter(q);
        (first, self)
    }
}
