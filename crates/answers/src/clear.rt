// What an operation clears: before a run, between two runs, and after them.
ghost use Rattle.std.specs.Prelude.{◌≡◌, true, ◌-◌, ◌≤◌, length, replicate};
ghost use Rattle.pass.specs.Run.{work_length, zeros, lengths_fit};
ghost use Rattle.answers.specs.Answer.{refusal_in};
ghost use Rattle.answers.specs.Lent.{held, Same};
ghost use Rattle.answers.specs.Clear.{left, zeroed, names_cleared, Rested, Blank};

use crate::{Refusal, Tables};
use work::{BINDERS, CAPTURES, CAPTURES_HINTS, ENTRIES, ENTRY, RECORDS, SCOPE_HINTS, TAKEN, WORK};

// The numbers from `start` up to `end` become zeros.
fn clear_part(work: &mut [u32], start: usize, end: usize)
    requires { (start ≤ end) × (end ≤ length work.old) }
    ensures { work.new ≡ zeroed start (end - start) work.old }
{
    table::clear(&mut work[start..end]);
}

// All of a work table in which n records have entries. Those of other records are zero already (docs/SPEED.md, 50).
fn clear_work(work: &mut [u32], n: usize)
    requires { (length work.old ≡ work_length) × Rested n work.old }
    ensures { work.new ≡ replicate work_length 0 }
{
    clear_part(work, 0, ENTRIES + ENTRY * n);
    clear_part(work, CAPTURES, WORK);
}

// What a run starts without: the hints of both maps, and the entries, of which n records have some. Those of other records are zero already
// (docs/SPEED.md, 50). Rows and captures of an empty map are not looked at.
pub fn clear_names(work: &mut [u32], n: usize)
    requires { (length work.old ≡ work_length) × Rested n work.old }
    ensures { work.new ≡ names_cleared work.old }
{
    clear_part(work, SCOPE_HINTS, ENTRIES);
    clear_part(work, ENTRIES, ENTRIES + ENTRY * n);
    clear_part(work, CAPTURES_HINTS, TAKEN);
}

impl Tables<'_> {
    // What a refusal leaves, but 1.
    pub fn clear_all(&mut self)
        requires { lengths_fit (held self.old) ≡ true }
        ensures zeros { held self.new ≡ zeros }
        ensures same { Same self.old self.new }
    {
        table::clear(self.facts);
        table::clear(self.captured);
        table::clear(self.arguments);
        table::clear(self.work);
    }

    // The work table holds no answer, and a refusal leaves none. There are n records.
    pub fn clear_after(&mut self, answer: Result<(), Refusal>, n: usize)
        requires lengths { lengths_fit (held self.old) ≡ true }
        requires rested { refusal_in answer ≡ None → Rested n self.old.work.now }
        ensures left { held self.new ≡ left (refusal_in answer) (held self.old) }
        ensures same { Same self.old self.new }
    {
        match answer {
            Ok(()) => clear_work(self.work, n),
            Err(_) => self.clear_all(),
        }
    }

    // No facts yet, and a work table as a run starts with.
    pub fn clear_start(&mut self)
        requires { lengths_fit (held self.old) ≡ true }
        ensures blank { Blank (held self.new) }
        ensures same { Same self.old self.new }
    {
        table::clear(self.facts);
        table::clear(self.captured);
        table::clear(self.arguments);
        clear_names(self.work, RECORDS);
        clear_part(self.work, BINDERS, WORK);
    }
}
