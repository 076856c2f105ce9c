// What is written for a line: text in lent bytes.
#![tactic(auto)]

ghost use Rattle.std.specs.Prelude.{◌≡◌, [], ◌∷◌, ◌+◌, ◌*◌, ◌≤◌, length, map, slice_index, IfOk};
ghost use Rattle.words.specs.Text.{bytes};
ghost use Rattle.decimal.specs.Digits.{decimal};
ghost use Rattle.inty.specs.Value.{value_of};
ghost use Rattle.text.specs.Puts.{Puts};
ghost use Rattle.line_answer.specs.Text.{line};
ghost use Rattle.line_answer.specs.Six.{leader_field, six_text};
ghost use Rattle.line_answer.specs.Wrote.{Listed, Numbered, Answered};

use ids::Refusal;
use inty::Inty;
use text::TextMut;

fn put_leader(text: &mut TextMut, c: u64, d: u64)
    requires { text.old.at + 21 ≤ length text.old.out.now }
    ensures { Puts text.old (44 ∷ leader_field c d) 21 text.new }
{
    text.put_byte(b',');
    if c == 0 {
        text.put_byte(b'-');
    } else {
        text.put_u64(d);
    }
}

// ---- lines of items: at most 106 bytes, those of a span with two numbers of 39 digits and one of 20

// Each asks for that room in its clause: a ghost field would have to hold after the line too, when the room is used.

// A name and at most three numbers.
fn put_numbers(text: &mut TextMut, name: &[u8], numbers: &[u64])
    requires { (text.old.at + 106 ≤ length text.old.out.now) × (length name.now ≤ 8) × (length numbers.now ≤ 3) }
    ensures { Puts text.old (line (name.now ∷ map decimal numbers.now)) 106 text.new }
{
    text.put_bytes(name);
    for n in numbers {
        text.put_field(*n);
    }
    text.put_byte(b'\n');
}

fn put_retry(text: &mut TextMut, a: u64, b: u64, c: u64, d: u64)
    requires { text.old.at + 106 ≤ length text.old.out.now }
    ensures { Puts text.old (line (bytes "retry" ∷ decimal a ∷ decimal b ∷ leader_field c d ∷ [])) 106 text.new }
{
    text.put_bytes(b"retry");
    text.put_field(a);
    text.put_field(b);
    put_leader(text, c, d);
    text.put_byte(b'\n');
}

fn put_span(text: &mut TextMut, start: Inty, end: Inty, mask: u64)
    requires { text.old.at + 106 ≤ length text.old.out.now }
    ensures { Puts text.old (line (bytes "span" ∷ decimal (value_of start) ∷ decimal (value_of end) ∷ decimal mask ∷ [])) 106 text.new }
{
    text.put_bytes(b"span");
    text.put_wide_field(start);
    text.put_wide_field(end);
    text.put_field(mask);
    text.put_byte(b'\n');
}

// ---- items

// The area is lent as words (document 01), so the kinds are the numbers that a call writes there; each has its own
// fields.
#[tactic(auto, unfolding(crate::specs::Six::six_text))]
fn put_six(text: &mut TextMut, words: &[u64; 6])
    requires { text.old.at + 106 ≤ length text.old.out.now }
    ensures { Puts text.old
        (six_text (slice_index words.now 0) (slice_index words.now 1) (slice_index words.now 2) (slice_index words.now 3) (slice_index words.now 4) (slice_index words.now 5))
        106 text.new }
{
    match *words {
        [1, a, b, c, ..] => put_numbers(text, b"value", &[a, b, c]),
        [2, a, b, ..] => put_numbers(text, b"absent", &[a, b]),
        [3, a, b, ..] => put_numbers(text, b"store", &[a, b]),
        [4, a, b, ..] => put_numbers(text, b"pass", &[a, b]),
        [5, a, b, c, ..] => put_numbers(text, b"hold", &[a, b, c]),
        [6, a, b, c, d, _] => put_retry(text, a, b, c, d),
        [7, a, b, ..] => put_numbers(text, b"resend", &[a, b]),
        [8, a, ..] => put_numbers(text, b"commit", &[a]),
        [9, a, ..] => put_numbers(text, b"lead", &[a]),
        [10, a, ..] => put_numbers(text, b"prelog", &[a]),
        [11, a, b, ..] => put_numbers(text, b"prepare", &[a, b]),
        [12, a, b, c, d, e] => put_span(text, Inty { hi: a, lo: b }, Inty { hi: c, lo: d }, e),
        [_, a, ..] => put_numbers(text, b"rest", &[a]),
    }
}

// The items of the first places. The area is lent whole, and a call says how many places it filled.
fn put_items(text: &mut TextMut, area: &[u64], count: usize)
    requires { (text.old.at + count * 106 ≤ length text.old.out.now) × (count * 6 ≤ length area.now) }
    ensures { Listed text.old area.now count text.new }
{
    let (items, _) = area.as_chunks();
    for words in &items[..count] {
        put_six(text, words);
    }
}

// ---- answers

// The first line, at most 64 bytes.
fn put_head(text: &mut TextMut, n: u64, word: &[u8], number: u64)
    requires { (text.old.at + 64 ≤ length text.old.out.now) × (length word.now ≤ 8) }
    ensures { Puts text.old (line (decimal n ∷ word.now ∷ decimal number ∷ [])) 64 text.new }
{
    text.put_u64(n);
    text.put_byte(b',');
    text.put_bytes(word);
    text.put_field(number);
    text.put_byte(b'\n');
}

// The text for the n-th line, from the number of its refusal, or 0 and how many items answer it, with their area. Any
// number but 0 is a refusal's.
pub fn put_numbered(out: &mut [u8], n: u64, number: u64, count: usize, area: &[u64]) -> usize
    requires { (65536 ≤ length out.old) × (count ≤ 546) × (count * 6 ≤ length area.now) }
    ensures { Numbered out.old n number count area.now result out.new }
{
    let mut text = TextMut { out, at: 0 };
    if number != 0 {
        put_head(&mut text, n, b"refused", number);
        text.at
    } else {
        put_head(&mut text, n, b"taken", count as u64);
        put_items(&mut text, area, count);
        text.at
    }
}

// The same from what the line did: its refusal, or how many items answer it.
pub fn put_answer(out: &mut [u8], n: u64, acted: Result<usize, Refusal>, area: &[u64]) -> usize
    requires { (65536 ≤ length out.old) × IfOk acted (λ count. (count ≤ 546) × (count * 6 ≤ length area.now)) }
    ensures { Answered out.old n acted area.now result out.new }
{
    match acted {
        Ok(count) => put_numbered(out, n, 0, count, area),
        Err(refusal) => put_numbered(out, n, refusal.number(), 0, area),
    }
}
