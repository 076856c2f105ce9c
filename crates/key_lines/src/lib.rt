// Keys that come in lines, one to a line, and an answer line to each: the key's number in decimal, or `-` where the key
// does not read. A line of more than 1,024 bytes is not kept, and is answered `-`. A line goes as its bytes and whether
// bytes of it were dropped, and not as an `Option<&[u8]>`: one of which bytes were dropped still has bytes that stand
// in the piece, and a last line is one if it has a byte or had more.
#![tactic(auto)]

ghost use Rattle.std.specs.Prelude.{◌≡◌, [], ◌+◌, ◌*◌, ◌≤◌, length, drop, option_map};
ghost use Rattle.words.specs.Writes.{writes};
ghost use Rattle.inty.specs.Value.{value_of};
ghost use Rattle.text.specs.Puts.{Puts};
ghost use Rattle.stream_pieces.specs.Streamed.{streamed, last_line, output_after};
ghost use Rattle.key_lines.specs.Lines.{text_of, answer_of, line_read, answer, line_output};

use inty::Inty;
use text::TextMut;

// The place in a piece where the line that has begun starts, how much of the output is used, and whether bytes of that
// line were dropped.
// A flag, since a line of which bytes were dropped starts somewhere too; a length, since the output is lent.
#[derive(Clone, Copy)]
pub struct Fed {
    pub at: usize,
    pub used: usize,
    pub long: bool,
}

#[tactic(auto, unfolding(crate::specs::Lines::text_of))]
fn put_text(text: &mut TextMut, r: Option<Inty>)
    requires { text.old.at + length (text_of (option_map value_of r)) ≤ length text.old.out.now }
    ensures { Puts text.old (text_of (option_map value_of r)) 39 text.new }
{
    match r {
        Some(x) => text.put_wide(x),
        None => text.put_byte(b'-'),
    }
}

#[tactic(auto, unfolding(crate::specs::Lines::answer_of))]
fn put_answer(text: &mut TextMut, r: Option<Inty>)
    requires { text.old.at + length (answer_of (option_map value_of r)) ≤ length text.old.out.now }
    ensures { Puts text.old (answer_of (option_map value_of r)) 40 text.new }
{
    put_text(text, r);
    text.put_byte(b'\n');
}

#[tactic(auto, unfolding(crate::specs::Lines::line_read))]
fn read_line(line: &[u8], long: bool) -> Option<Inty>
    ensures { option_map value_of result ≡ line_read long line.now }
{
    if long || line.len() > 1024 {
        return None;
    }
    keys::key_to_inty(line)
}

// Writes the answer to a line. If `long`, the line had bytes more, which were dropped.
#[tactic(auto, unfolding(crate::specs::Lines::answer))]
pub fn answer_line(text: &mut TextMut, line: &[u8], long: bool)
    requires { text.old.at + length (answer (record { long = long; line = line.now })) ≤ length text.old.out.now }
    ensures { Puts text.old (answer (record { long = long; line = line.now })) 40 text.new }
{
    put_answer(text, read_line(line, long));
}

// Writes the answers to the lines that end in a piece to the start of out. No answer has more than twice the bytes of
// its line.
pub fn feed(piece: &[u8], mut long: bool, out: &mut [u8]) -> Fed
    requires { 2 * length piece.now ≤ length out.old }
    ensures within { (result.at ≤ length piece.now) × (result.used ≤ length out.old) }
    ensures answered { record { bytes = out.new; used = result.used; state = tt; begun = record { long = result.long; line = drop result.at piece.now } } ≡ output_after out.old 0 (streamed line_output tt (record { long = long; line = [] }) piece.now) }
{
    let mut text = TextMut { out, at: 0 };
    let mut at = 0;
    // No `for`: a line's end is found by the kit's `memchr`, faster than by going over the bytes, and the next line
    // begins behind it.
    loop {
        let end = stream_pieces::line_end(piece, at);
        if end == piece.len() {
            return Fed {
                at,
                used: text.at,
                long,
            };
        }
        answer_line(&mut text, &piece[at..end], long);
        long = false;
        at = end + 1;
    }
}

// Writes the answer to a last line without a newline to the start of out, if it has a byte, and returns where it ends.
#[tactic(auto, using(crate::proofs::Short::answer_short), unfolding(stream_pieces::specs::Streamed::last_line))]
pub fn last_line(line: &[u8], long: bool, out: &mut [u8]) -> usize
    requires { 2 * (length line.now + 1) ≤ length out.old }
    ensures within { result ≤ length out.old }
    ensures answered { (result ≡ length (last_line line_output tt (record { long = long; line = line.now }))) × (out.new ≡ writes out.old 0 (last_line line_output tt (record { long = long; line = line.now }))) }
{
    if !long && line.is_empty() {
        return 0;
    }
    let mut text = TextMut { out, at: 0 };
    answer_line(&mut text, line, long);
    text.at
}
