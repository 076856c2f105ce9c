// The batch as the caller of *record* lends it: six words a request (client, request, kind, value, start and length of
// its key), and the text that the keys are parts of. A kind of 1 is a Put. Any words are a batch: what lies past the
// end of the text is not there.
#![tactic(auto)]

ghost use Rattle.std.specs.Prelude.{◌≡◌, false, List, ℕ, ◌/◌, ◌<◌, ◌≤◌, length};
ghost use Rattle.words.specs.Part.{part};
ghost use Rattle.layout.specs.Layout.{request_places};
ghost use Rattle.roster_conf.specs.Edit.{long_key};
ghost use Rattle.inst_reqs.specs.Batch.{request_of};
ghost use Rattle.req_batch.specs.Given.{given, given_at, any_long, Loads};

use inst_reqs::{BatchMut, Request, command_at};
use key_words::pack_short;

// Words of a row. Rows and text stay two buffers, and the rows words, as a caller in C lends them; a row is read by its
// place, as `given_at` has it.
const ROW: usize = 6;

pub fn count(rows: &[u64]) -> usize
    ensures { (text : List ℕ) → result ≡ length (given rows.now text) }
{
    rows.len() / ROW
}

// The bytes of the text from start on, as far as there are any.
#[tactic(auto, using(crate::proofs::Laws::part_is))]
fn part_of(text: &[u8], start: u64, len: u64) -> &[u8]
    ensures { result.now ≡ part text.now start len }
{
    let rest = &text[start.min(text.len() as u64) as usize..];
    &rest[..len.min(rest.len() as u64) as usize]
}

// Whether the i-th key is longer than 48 bytes.
#[tactic(auto, unfolding(crate::specs::Given::given_from))]
fn long_at(rows: &[u64], text: &[u8], i: usize) -> bool
    requires { i < length rows.now / 6 }
    ensures { result ≡ long_key (given_at rows.now text.now i).key }
{
    let p = i * ROW;
    keys::KEY_BYTES < part_of(text, rows[p + 4], rows[p + 5]).len()
}

// Whether a key is longer than 48 bytes.
pub fn any_long(rows: &[u64], text: &[u8]) -> bool
    ensures { result ≡ any_long (given rows.now text.now) }
{
    (0..rows.len() / ROW).any(|i| long_at(rows, text, i))
}

// The i-th request, whose key is no longer than 48 bytes.
#[tactic(auto, unfolding(crate::specs::Given::given_from))]
fn request_at(rows: &[u64], text: &[u8], i: usize) -> Request
    requires in_rows { i < length rows.now / 6 }
    requires short { long_key (given_at rows.now text.now i).key ≡ false }
    ensures { request_of result ≡ given_at rows.now text.now i }
{
    let p = i * ROW;
    Request {
        client: rows[p],
        request: rows[p + 1],
        command: command_at(rows[p + 2], rows[p + 3]),
        key: pack_short(part_of(text, rows[p + 4], rows[p + 5])),
    }
}

// The batch of a slot that holds these requests.
pub fn load(rows: &[u64], text: &[u8], out: &mut BatchMut<'_>)
    requires few { length (given rows.now text.now) ≤ request_places }
    requires short { any_long (given rows.now text.now) ≡ false }
    ensures same_reference { out.new.words.ghost_name ≡ out.old.words.ghost_name }
    ensures long { length out.new.words.now ≡ length out.old.words.now }
    ensures loads { Loads rows.now text.now out.old.words.now out.new.words.now }
{
    out.clear();
    for i in 0..rows.len() / ROW {
        out.push(request_at(rows, text, i));
    }
}
