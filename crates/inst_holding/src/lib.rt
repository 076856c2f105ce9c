// The reads that a slot holds, in lent words: a table whose rows are client, request, key.
#![tactic(auto)]

ghost use Rattle.std.specs.Prelude.{◌≡◌, refl, [], ◌+◌, ◌≤◌, length, set};
ghost use Rattle.layout.specs.Layout.{held_row, held_words};
ghost use Rattle.bodega.specs.Replica as machine;
ghost use Rattle.inst_holding.specs.Held.{read_of, read_from, read_words, reads_of, Pushes};
ghost use Rattle.inst_holding.specs.Row.{near, read_back};

use key_words::{Key, get_key, put_key};
use table::{Row, Table, TableMut};

#[derive(Clone, Copy)]
pub struct ReadReq {
    pub client: u64,
    pub request: u64,
    pub key: Key,
}

pub type Held<'a> = Table<'a, ReadReq, { layout::HELD_PLACES }>;

pub type HeldMut<'a> = TableMut<'a, ReadReq, { layout::HELD_PLACES }>;

impl Row for ReadReq {
    const WORDS: usize = layout::HELD_ROW;

    ghost WORDS = { held_row };

    ghost View = { machine.ReadReq };

    ghost view = { read_of };

    ghost at = { read_from };

    ghost words = { read_words };

    #[tactic(auto, unfolding(crate::specs::Held::read_from))]
    fn get(s: &[u64], p: usize) -> ReadReq {
        ReadReq {
            client: s[p],
            request: s[p + 1],
            key: get_key(s, p + 2),
        }
    }

    #[tactic(auto, using(crate::proofs::Laws::stored))]
    fn put(self, s: &mut [u64], p: usize) {
        s[p] = self.client;
        s[p + 1] = self.request;
        put_key(s, p + 2, self.key);
    }

    ghost width = { λ x. refl };

    ghost near = { near };

    ghost back = { read_back };
}

// No read, and a read after the others (by `bool`, as `TableMut::push` says it). A table made of a part of a buffer
// loses what became of the part, so the words come as they are lent.
pub fn clear(words: &mut [u64])
    requires { held_words ≤ length words.old }
    ensures { (reads_of words.new ≡ []) × (words.new ≡ set words.old 0 0) }
{
    HeldMut::new(words).clear();
}

pub fn push(words: &mut [u64], x: ReadReq) -> bool
    requires { held_words ≤ length words.old }
    ensures { Pushes words.old (read_of x) result words.new }
{
    HeldMut::new(words).push(x)
}
