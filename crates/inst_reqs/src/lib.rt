// The batch of a slot, in lent words: a table whose rows are client, request, kind, value, key. A kind of 1 is a Put.
#![tactic(auto)]

ghost use Rattle.std.specs.Prelude.{◌≡◌, refl, [], ◌+◌, ◌*◌, ◌<◌, ◌≤◌, length, set};
ghost use Rattle.words.specs.Tab.{tab};
ghost use Rattle.layout.specs.Layout.{request_places, request_row, batch_words};
ghost use Rattle.key_words.specs.Key.{bytes_of};
ghost use Rattle.bodega.specs.Localread.{last_put, put_of};
ghost use Rattle.bodega.specs.Replica as machine;
ghost use Rattle.inst_reqs.specs.Batch.{command_of, command_at, kind_of, value_of, request_of, request_at, request_from, requests_of, request_words};
ghost use Rattle.inst_reqs.specs.Row.{near, read_back};

use key_words::{Key, get_key, put_key};
use table::{Row, Table, TableMut};

// Requests of a batch at most.
pub const BATCH: usize = layout::REQUEST_PLACES;

// The original's `Command`, not an `Option`: a Get is no absent value.
#[derive(Clone, Copy)]
pub enum Command {
    Get,
    Put(u64),
}

#[derive(Clone, Copy)]
pub struct Request {
    pub client: u64,
    pub request: u64,
    pub command: Command,
    pub key: Key,
}

// The type is `table`'s, so that what is looked up in a batch is a function which takes it, not a method.
pub type Batch<'a> = Table<'a, Request, BATCH>;

pub type BatchMut<'a> = TableMut<'a, Request, BATCH>;

// The kind and the value.
fn command_words(c: Command) -> (u64, u64)
    ensures { (result.0 ≡ kind_of c) × (result.1 ≡ value_of c) }
{
    match c {
        Command::Get => (0, 0),
        Command::Put(v) => (1, v),
    }
}

// No `From`: a row has kind and value as two words, of which a pair would be made for it alone.
pub fn command_at(kind: u64, value: u64) -> Command
    ensures { command_of result ≡ command_at kind value }
{
    if kind == 1 {
        Command::Put(value)
    } else {
        Command::Get
    }
}

impl Row for Request {
    const WORDS: usize = layout::REQUEST_ROW;

    ghost WORDS = { request_row };

    ghost View = { machine.Request };

    ghost view = { request_of };

    ghost at = { request_from };

    ghost words = { request_words };

    #[tactic(auto, unfolding(crate::specs::Batch::request_from))]
    fn get(s: &[u64], p: usize) -> Request {
        Request {
            client: s[p],
            request: s[p + 1],
            command: command_at(s[p + 2], s[p + 3]),
            key: get_key(s, p + 4),
        }
    }

    #[tactic(auto, using(crate::proofs::Laws::stored))]
    fn put(self, s: &mut [u64], p: usize) {
        let (kind, value) = command_words(self.command);
        s[p..p + 4].copy_from_slice(&[self.client, self.request, kind, value]);
        put_key(s, p + 4, self.key);
    }

    ghost width = { λ x. refl };

    ghost near = { near };

    ghost back = { read_back };
}

// No request. A table made of a part of a buffer loses what became of the part, so the words come as they are lent.
pub fn clear(words: &mut [u64])
    requires { batch_words ≤ length words.old }
    ensures { (requests_of words.new ≡ []) × (words.new ≡ set words.old 0 0) }
{
    BatchMut::new(words).clear();
}

// The value that the i-th request puts at a key.
#[tactic(auto, using(crate::proofs::Laws::put_read))]
fn put_at(batch: Batch<'_>, i: usize, key: Key) -> Option<u64>
    requires { i < request_places }
    ensures { result ≡ put_of (bytes_of key) (request_at batch.entry.words.now i) (request_at batch.entry.words.now i).command }
{
    let q = batch.get(i);
    match q.command {
        Command::Put(v) if key_words::same(q.key, key) => Some(v),
        _ => None,
    }
}

// The value of the last Put of a key among the first n requests.
pub fn last_put_among(batch: Batch<'_>, n: usize, key: Key) -> Option<u64>
    requires { n ≤ request_places }
    ensures { result ≡ last_put (bytes_of key) (tab (request_at batch.entry.words.now) 0 n) }
{
    (0..n).rev().find_map(|i| put_at(batch, i, key))
}

// The value of the last Put of a key.
#[tactic(auto, using(crate::proofs::Laws::last_all))]
pub fn last_put(batch: Batch<'_>, key: Key) -> Option<u64>
    ensures { result ≡ last_put (bytes_of key) (requests_of batch.entry.words.now) }
{
    last_put_among(batch, batch.count(), key)
}
