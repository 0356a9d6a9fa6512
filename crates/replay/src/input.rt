// The numbers of the input, one after another.
ghost use Rattle.std.specs.Prelude.{◌≡◌, ◌≤◌, length};
ghost use Rattle.std.specs.Iterator.{at_most};
ghost use Rattle.replay.specs.Reads.{GivesNumber};

use semantic::NONE;

// What of the input is not read yet.
#[derive(Drop)]
pub struct Numbers<'a> {
    rest: &'a [u8],
}

fn digit_of(b: u8) -> u32
    ensures { result ≤ 9 }
{
    match b {
        b'0'..=b'9' => u32::from(b - b'0'),
        _ => 0,
    }
}

// One digit more; a number too large stays as it is.
fn add_digit(value: u32, b: u8) -> u32 {
    if 429496728 < value {
        return value;
    }
    10 * value + digit_of(b)
}

impl<'a> Numbers<'a> {
    pub fn new(input: &'a [u8]) -> Numbers<'a>
        ensures { result.rest.now ≡ input.now }
    {
        Numbers { rest: input }
    }
}

impl<'a> Iterator for Numbers<'a> {
    type Item = u32;

    ghost next_gives = { GivesNumber };

    ghost remaining = { λ s. at_most (length s.rest.now) };

    // `-` is NONE. Anything else between numbers is passed by.
    fn next(&mut self) -> Option<u32> {
        let start = self
            .rest
            .iter()
            .position(|b| *b == b'-' || b.is_ascii_digit())?;
        let first = self.rest[start];
        self.rest = &self.rest[start + 1..];
        if first == b'-' {
            return Some(NONE);
        }
        let end = self.rest.iter().take_while(|b| b.is_ascii_digit()).count();
        let digits = &self.rest[..end];
        self.rest = &self.rest[end..];
        Some(
            digits
                .iter()
                .fold(digit_of(first), |sum, b| add_digit(sum, *b)),
        )
    }
}
