// Text written into a lent buffer, one piece after another. Not by `fmt::Write`: what `write!` promises of the text it promises for `Ok` alone, not that it
// is `Ok`, and a line never fails (`Line` of specs/Puts.antt).
ghost use Rattle.std.specs.Prelude.{◌≡◌, ◌++◌, ◌+◌, ◌^◌, ◌<◌, ◌≤◌, length};
ghost use Rattle.printing.specs.Numeral.{numeral};
ghost use Rattle.printing.specs.Text.{or_none};
ghost use Rattle.printing.specs.Puts.{Puts};

// The text so far is the first `len` bytes of `out`.
#[derive(Drop)]
pub struct Text<'a> {
    pub out: &'a mut [u8],
    pub len: usize,
}

impl<'a> Text<'a> {
    pub fn new(out: &'a mut [u8]) -> Text<'a>
        ensures same { result.out.ghost_name ≡ out.entry.ghost_name }
        ensures bytes { result.out.now ≡ out.old }
        ensures empty { result.len ≡ 0 }
    {
        Text { out, len: 0 }
    }

    // The bytes of w.
    pub fn word(&mut self, w: &[u8])
        requires { self.old.len + length w.now ≤ length self.old.out.now }
        ensures same { self.new.out.ghost_name ≡ self.old.out.ghost_name }
        ensures puts { Puts w.now self.old self.new }
        ensures long { self.new.len ≡ self.old.len + length w.now }
    {
        let end = self.len + w.len();
        self.out[self.len..end].copy_from_slice(w);
        self.len = end;
    }

    // n in decimal.
    fn numeral(&mut self, n: u64)
        requires { self.old.len + length (numeral n) ≤ length self.old.out.now }
        ensures same { self.new.out.ghost_name ≡ self.old.out.ghost_name }
        ensures puts { Puts (numeral n) self.old self.new }
        ensures long { self.new.len ≡ self.old.len + length (numeral n) }
    {
        let last = [b'0' + (n % 10) as u8];
        if n < 10 {
            return self.word(&last);
        }
        self.numeral(n / 10);
        self.word(&last);
    }

    // A mark and a number after it.
    pub fn number(&mut self, mark: &[u8], n: u64)
        requires narrow { n < 2 ^ 32 → self.old.len + length mark.now + 10 ≤ length self.old.out.now }
        requires wide { 2 ^ 32 ≤ n → self.old.len + length mark.now + 20 ≤ length self.old.out.now }
        ensures same { self.new.out.ghost_name ≡ self.old.out.ghost_name }
        ensures puts { Puts (mark.now ++ numeral n) self.old self.new }
        ensures few { n < 2 ^ 32 → self.new.len ≤ self.old.len + length mark.now + 10 }
        ensures most { self.new.len ≤ self.old.len + length mark.now + 20 }
    {
        self.word(mark);
        self.numeral(n);
    }

    // A mark and a number after it, or `-` for none, which a row of the facts holds as a number.
    pub fn option(&mut self, mark: &[u8], n: u32)
        requires { self.old.len + length mark.now + 10 ≤ length self.old.out.now }
        ensures same { self.new.out.ghost_name ≡ self.old.out.ghost_name }
        ensures puts { Puts (mark.now ++ or_none n) self.old self.new }
        ensures few { self.new.len ≤ self.old.len + length mark.now + 10 }
    {
        if n == semantic::NONE {
            self.word(mark);
            return self.word(b"-");
        }
        self.number(mark, n as u64);
    }
}
