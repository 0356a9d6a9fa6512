// The numbers of one line, which stands without its LF.
ghost use Rattle.std.specs.Prelude.{◌≡◌, ◌∷◌, []};
ghost use Rattle.printing.specs.Text.{record_marks};
ghost use Rattle.reading.specs.Reading.{fit, number_at, field_at, numbers_of, digits};
ghost use Rattle.reading.specs.Found.{found, ones};

use tree::record::WIDTH;

// A number, and what stands behind it.
#[derive(Clone, Copy)]
struct Field<'a> {
    value: u32,
    rest: &'a [u8],
}

// The digits at the start of l, read on from v.
fn digits(l: &[u8], v: u32) -> Option<Field>
    ensures { found result ≡ fit (digits v l.now) }
{
    let mut value = v;
    for (i, &x) in l.iter().enumerate() {
        if !x.is_ascii_digit() {
            return Some(Field {
                value,
                rest: &l[i..],
            });
        }
        value = value.checked_mul(10)?.checked_add((x - b'0') as u32)?;
    }
    Some(Field { value, rest: &[] })
}

// The number at the start of l: a 0 alone, or digits of which the first is not 0.
fn number(l: &[u8]) -> Option<Field>
    ensures { found result ≡ number_at l.now }
{
    let (&first, rest) = l.split_first()?;
    if first == b'0' {
        return Some(Field { value: 0, rest });
    }
    if !first.is_ascii_digit() {
        return None;
    }
    digits(rest, (first - b'0') as u32)
}

// The number after the mark, with which l starts.
fn field_at<'a>(l: &'a [u8], mark: &[u8]) -> Option<Field<'a>>
    ensures { found result ≡ field_at mark.now l.now }
{
    number(l.strip_prefix(mark)?)
}

// The number of a line of one field.
pub fn single(l: &[u8], mark: &[u8]) -> Option<u32>
    ensures { numbers_of (mark.now ∷ []) l.now ≡ ones result }
{
    let field = field_at(l, mark)?;
    if !field.rest.is_empty() {
        return None;
    }
    Some(field.value)
}

// The numbers of a record's line.
pub fn record(l: &[u8]) -> Option<[u32; WIDTH]>
    ensures { numbers_of record_marks l.now ≡ result }
{
    let form = field_at(l, b"form=")?;
    let id = field_at(form.rest, b" id=")?;
    let name = field_at(id.rest, b" name=")?;
    let count = field_at(name.rest, b" count=")?;
    let from = field_at(count.rest, b" from=")?;
    let to = field_at(from.rest, b" to=")?;
    if !to.rest.is_empty() {
        return None;
    }
    Some([
        form.value,
        id.value,
        name.value,
        count.value,
        from.value,
        to.value,
    ])
}
