// The fields of a line, parted by commas: read by a position in the line. Line and position go beside each other here,
// since document 01 wants this cursor form; line_reader has the struct after it.
#![tactic(auto)]

ghost use Rattle.std.specs.Prelude.{◌≡◌, ◌==◌, ◌+◌, ◌*◌, ◌^◌, ◌≤◌, ltb, length, position};
ghost use Rattle.line_fields.specs.Split.{fields_from};
ghost use Rattle.line_fields.specs.Reads.{none_left, number_in, ReadsField, ReadsNumberAt, ReadsNumbersAt, ReadsOptionalAt};

// By positions, as the cursor form has them.
#[derive(Clone, Copy)]
pub struct Field {
    pub start: usize,
    pub end: usize,
    pub next: usize,
}

// A field that is a number, and where the field after it begins.
#[derive(Clone, Copy)]
pub struct NumberAt {
    pub value: u64,
    pub next: usize,
}

// A field that is a number or empty, and where the field after it begins.
#[derive(Clone, Copy)]
pub struct OptionalAt {
    pub value: Option<u64>,
    pub next: usize,
}

// Whether no field is left.
#[tactic(auto, using(crate::proofs::Laws::none_left_lem))]
pub fn ended(line: &[u8], at: usize) -> bool
    ensures { result ≡ none_left (fields_from line.now at) }
{
    at > line.len()
}

fn comma(s: &[u8]) -> Option<usize>
    ensures { result ≡ position (λ c. c == 44) s.now }
{
    s.iter().position(|c| *c == b',')
}

// The field that begins at a position. Past the end of the line the position stands.
pub fn field_at(line: &[u8], at: usize) -> Field
    ensures { ReadsField line.now at result }
{
    if at > line.len() {
        return Field {
            start: at,
            end: at,
            next: at,
        };
    }
    let rest = &line[at..];
    let end = at + comma(rest).unwrap_or(rest.len());
    Field {
        start: at,
        end,
        next: end + 1,
    }
}

// Whether a number has room for one digit more. With checked_mul and checked_add reading a number takes 11 % more
// instructions.
fn has_room(value: u64, digit: u64) -> bool
    requires { digit ≤ 9 }
    ensures { result ≡ ltb (value * 10 + digit) (2 ^ 64) }
{
    value < u64::MAX / 10 || value == u64::MAX / 10 && digit <= u64::MAX % 10
}

// The number that begins at a position: digits within 64 bits.
pub fn number_at(line: &[u8], at: usize) -> Option<NumberAt>
    ensures { ReadsNumberAt line.now at result }
{
    if at > line.len() {
        return None;
    }
    let mut value: u64 = 0;
    let mut end = at;
    for c in &line[at..] {
        if *c == b',' {
            break;
        }
        if !c.is_ascii_digit() {
            return None;
        }
        let digit = u64::from(*c - b'0');
        if !has_room(value, digit) {
            return None;
        }
        value = value * 10 + digit;
        end += 1;
    }
    if end == at {
        return None;
    }
    Some(NumberAt {
        value,
        next: end + 1,
    })
}

// The number that bytes are.
pub fn number_of(s: &[u8]) -> Option<u64>
    ensures { result ≡ number_in s.now }
{
    let number = number_at(s, 0)?;
    ended(s, number.next).then_some(number.value)
}

// As many numbers as `out` has words, from a position on, put there up to the first field that is none. Where the field
// after the last one begins, or, as an error, the one that is none.
pub fn numbers_at(line: &[u8], at: usize, out: &mut [u64]) -> Result<usize, usize>
    ensures { ReadsNumbersAt line.now at (length out.old) out.old result out.new }
{
    let mut next = at;
    for word in out.iter_mut() {
        let number = number_at(line, next).ok_or(next)?;
        *word = number.value;
        next = number.next;
    }
    Ok(next)
}

// The number or the empty field that begins at a position.
pub fn optional_at(line: &[u8], at: usize) -> Option<OptionalAt>
    ensures { ReadsOptionalAt line.now at result }
{
    if at > line.len() {
        return None;
    }
    if at == line.len() || line[at] == b',' {
        return Some(OptionalAt {
            value: None,
            next: at + 1,
        });
    }
    let number = number_at(line, at)?;
    Some(OptionalAt {
        value: Some(number.value),
        next: number.next,
    })
}
