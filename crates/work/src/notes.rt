// Refusals: the first one of each is kept.
ghost use Rattle.std.specs.Prelude.{◌≡◌, List, ℕ, ◌<◌};
ghost use Rattle.pass.specs.State.{note_nine, note_ten};
ghost use Rattle.pass.specs.Read.{note_live};
ghost use Rattle.pass.specs.Run.{rows_most};
ghost use Rattle.work.specs.Passes.{with_notes};
ghost use Rattle.work.specs.Leaves.{Becomes};

use crate::{Pass, SecondRefusal, narrow};

fn with_notes(p: Pass, nine: Option<u32>, ten: Option<u32>, second: Option<SecondRefusal>) -> Pass
    ensures { result ≡ with_notes nine ten second p }
{
    // every field by name: docs/SPEED.md, 49
    Pass {
        context: p.context,
        scope: p.scope,
        captures: p.captures,
        captured_top: p.captured_top,
        arguments_top: p.arguments_top,
        nine,
        ten,
        second,
    }
}

fn note_nine(p: Pass, at: usize) -> Pass
    requires { at < rows_most }
    ensures { (w : List ℕ) → Becomes p w (note_nine at) result w }
{
    with_notes(p, p.nine.or(Some(narrow(at))), p.ten, p.second)
}

pub fn note_ten(p: Pass, at: usize) -> Pass
    requires { at < rows_most }
    ensures { (w : List ℕ) → Becomes p w (note_ten at) result w }
{
    with_notes(p, p.nine, p.ten.or(Some(narrow(at))), p.second)
}

// Refusal 9, where a name that enters is live in the newest layer.
pub fn note_live(p: Pass, live: bool, at: usize) -> Pass
    requires { at < rows_most }
    ensures { (w : List ℕ) → Becomes p w (note_live live at) result w }
{
    if live {
        return note_nine(p, at);
    }
    p
}
