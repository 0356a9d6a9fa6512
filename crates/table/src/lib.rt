#![tactic(auto)]
// Lent tables of numbers.
ghost use Rattle.std.specs.Prelude.{◌≡◌, ◌+◌, ◌≤◌, length, replicate, take, drop};
ghost use Rattle.std.proofs.lemmas.List.Edits.{sets};

// A number of a table as a length or an index.
pub fn wide(x: u32) -> usize
    ensures { result ≡ x }
{
    x as usize
}

// Sets every number of the table to 0.
pub fn clear(t: &mut [u32])
    ensures { t.new ≡ replicate (length t.old) 0 }
{
    t.fill(0);
}

// Writes a row's numbers from the place `first` on.
pub fn put(t: &mut [u32], first: usize, row: &[u32])
    requires { first + length row.now ≤ length t.old }
    ensures { t.new ≡ sets t.old first row.now }
{
    t[first..first + row.len()].copy_from_slice(row);
}

// Reads a row's numbers, as many as `row` takes, from the place `first` on.
pub fn get(t: &[u32], first: usize, row: &mut [u32])
    requires { first + length row.old ≤ length t.now }
    ensures { row.new ≡ take (length row.old) (drop first t.now) }
{
    row.copy_from_slice(&t[first..first + row.len()]);
}
