// A sum over a whole node, or over a roster, to compare with one made elsewhere.
#![tactic(auto)]

ghost use Rattle.std.specs.Prelude.{◌≡◌, ◌+◌, ◌-◌, ◌<◌, ◌≤◌, get_or};
ghost use Rattle.words.specs.Tab.{words_from};
ghost use Rattle.layout.specs.Layout.{written_places, slot_places};
ghost use Rattle.decimal.specs.Digits.{decimal};
ghost use Rattle.test_node_sum.specs.Sum.{plus_byte, plus_bytes, plus_number, plus_numbers, sum_of};
ghost use Rattle.test_node_sum.specs.Numbers.{leader_number, roster_numbers, table_of, if_any, cell_of, reads_of, slot_of, slots_of, short_of, peers_of, node_numbers};

use ids::{Replica, Slot};
use node::Node;
use roster_conf::RespondersConf;

// Where the batches and the held reads of a node's buffer are.
const BATCHES_AT: usize = layout::SLOTS_AT + layout::BATCHES_FROM;

const READS_AT: usize = layout::SLOTS_AT + layout::READS_FROM;

// What the sums are modulo.
const PRIME: u64 = 4_294_967_291;

// ---- sums

fn plus_byte(sum: u32, b: u8) -> u32
    ensures { result ≡ plus_byte sum b }
{
    ((u64::from(sum) * 257 + u64::from(b) + 1) % PRIME) as u32
}

#[tactic(auto, using(crate::proofs::Laws::digit_one, crate::proofs::Laws::digit_more))]
fn plus_digits(sum: u32, n: u64) -> u32
    ensures { result ≡ plus_bytes sum (decimal n) }
{
    if n < 10 {
        plus_byte(sum, b'0' + n as u8)
    } else {
        plus_byte(plus_digits(sum, n / 10), b'0' + (n % 10) as u8)
    }
}

fn plus(sum: u32, n: u64) -> u32
    ensures { result ≡ plus_number sum n }
{
    plus_digits(plus_byte(sum, b','), n)
}

fn plus_all(sum: u32, numbers: &[u64]) -> u32
    ensures { result ≡ plus_numbers sum numbers.now }
{
    numbers.iter().fold(sum, |s, n| plus(s, *n))
}

// Neither type is of this crate, so that it is no `From`.
fn leader_number(leader: Option<Replica>) -> u64
    ensures { result ≡ leader_number leader }
{
    leader.map_or(0, |l| u64::from(l.0) + 1)
}

fn if_any(has: u64, v: u64) -> u64
    ensures { result ≡ if_any has v }
{
    if has == 0 { 0 } else { v }
}

// ---- sums over words

// The sum so far, and the words that it goes over.
#[derive(Clone, Copy)]
struct Sum<'a> {
    value: u32,
    words: &'a [u64],
}

impl<'a> Sum<'a> {
    // The word at an index, 0 past the end.
    fn word(&self, i: usize) -> u64
        ensures { result ≡ get_or self.now.words.now i 0 }
    {
        self.words.get(i).copied().unwrap_or(0)
    }

    // The n words from an index on.
    #[tactic(auto, using(crate::proofs::Laws::words_turn), unfolding(crate::specs::Sum::plus_numbers))]
    fn plus_words(self, at: usize, n: usize) -> Sum<'a>
        requires { at + n < 65536 }
        ensures { result ≡ record { value = plus_numbers self.entry.value (words_from n self.entry.words.now at); words = self.entry.words } }
    {
        let mut value = self.value;
        for i in 0..n {
            value = plus(value, self.word(at + i));
        }
        Sum { value, ..self }
    }

    // A count, and at most so many rows of w words.
    fn plus_table(self, at: usize, w: usize, most: usize) -> Sum<'a>
        requires { (at < 10000) × (w < 16) × (most ≤ written_places) }
        ensures { result ≡ record { value = plus_numbers self.entry.value (table_of self.entry.words.now at w most); words = self.entry.words } }
    {
        let n = most.min(self.word(at) as usize);
        self.plus_words(at, 1 + w * n)
    }

    // ---- a slot, by its place c, which the loop over the slots gives as an index

    #[tactic(auto, unfolding(crate::specs::Numbers::cell_of))]
    fn plus_cell(self, at: usize) -> Sum<'a>
        requires { at < 10000 }
        ensures { result ≡ record { value = plus_numbers self.entry.value (cell_of self.entry.words.now at); words = self.entry.words } }
    {
        let acks = self.word(at + 2);
        let book = self.word(at + 4);
        let cell = [
            self.word(at),
            self.word(at + 1),
            acks,
            if_any(acks, self.word(at + 3)),
            book,
            if_any(book, self.word(at + 5)),
            if_any(book, self.word(at + 6)),
        ];
        Sum {
            value: plus_all(self.value, &cell),
            ..self
        }
    }

    #[tactic(auto, unfolding(crate::specs::Numbers::reads_of, crate::specs::Sum::plus_numbers))]
    fn plus_reads(self, c: usize) -> Sum<'a>
        requires { c < slot_places }
        ensures { result ≡ record { value = plus_numbers self.entry.value (reads_of self.entry.words.now c); words = self.entry.words } }
    {
        if self.word(layout::SLOTS_AT + layout::CELL_ROW * c + 4) == 0 {
            Sum {
                value: plus(self.value, 0),
                ..self
            }
        } else {
            self.plus_table(
                READS_AT + layout::HELD_WORDS * c,
                layout::HELD_ROW,
                layout::HELD_PLACES,
            )
        }
    }

    #[tactic(auto, using(crate::proofs::Laws::append), unfolding(crate::specs::Numbers::slot_of))]
    fn plus_slot(self, c: usize) -> Sum<'a>
        requires { c < slot_places }
        ensures { result ≡ record { value = plus_numbers self.entry.value (slot_of self.entry.words.now c); words = self.entry.words } }
    {
        self.plus_cell(layout::SLOTS_AT + layout::CELL_ROW * c)
            .plus_table(
                BATCHES_AT + layout::BATCH_WORDS * c,
                layout::REQUEST_ROW,
                layout::REQUEST_PLACES,
            )
            .plus_reads(c)
    }

    #[tactic(auto, using(crate::proofs::Laws::slots_turn), unfolding(crate::specs::Sum::plus_numbers, crate::specs::Numbers::slots_of))]
    fn plus_slots(self, start: Slot, n: usize) -> Sum<'a>
        requires { n ≤ slot_places }
        ensures { result ≡ record { value = plus_numbers self.entry.value (slots_of self.entry.words.now start.0 n); words = self.entry.words } }
    {
        let first = (start.0 % layout::PLACES) as usize;
        let mut sum = self;
        for i in 0..n {
            sum = sum.plus_slot((first + i) % layout::SLOT_PLACES);
        }
        sum
    }

    // ---- a node

    // All guard pairs, and the exec bars but for the own one.
    #[tactic(auto, using(crate::proofs::Laws::append), unfolding(crate::specs::Numbers::peers_of))]
    fn plus_peers(self, id: Replica, population: u8) -> Sum<'a>
        ensures { result ≡ record { value = plus_numbers self.entry.value (peers_of id.0 population self.entry.words.now); words = self.entry.words } }
    {
        let me = usize::from(id.0);
        let n = usize::from(population);
        self.plus_words(0, n)
            .plus_words(layout::BARS_AT, n)
            .plus_words(layout::EXECS_AT, me)
            .plus_words(layout::EXECS_AT + (me + 1), n.saturating_sub(me + 1))
    }
}

// ---- a roster and a node

#[tactic(auto, using(crate::proofs::Laws::append), unfolding(crate::specs::Numbers::roster_numbers, crate::specs::Sum::plus_numbers))]
pub fn of_roster(conf: RespondersConf, rows: &[u64]) -> u32
    ensures { result ≡ sum_of (roster_numbers conf rows.now) }
{
    let short = [leader_number(conf.leader), conf.count as u64, conf.default];
    let sum = Sum {
        value: plus_all(0, &short),
        words: rows,
    };
    sum.plus_words(
        0,
        layout::ROSTER_ROW * conf.count.min(RespondersConf::RANGES),
    )
    .value
}

#[tactic(auto, unfolding(crate::specs::Numbers::short_of))]
fn of_short(node: Node) -> u32
    ensures { result ≡ sum_of (short_of node) }
{
    let conf = node.bodega_conf;
    let short = [
        u64::from(node.id.0),
        u64::from(node.population),
        u64::from(node.quorum),
        leader_number(conf.leader),
        conf.count as u64,
        conf.default,
        node.bal_max_seen.0,
        node.bal_prep_sent.0,
        node.bal_prepared.0,
        node.start_slot.0,
        node.accept_bar.0,
        node.commit_bar.0,
        node.exec_bar.0,
        node.snap_bar.0,
        node.peer_accept_max.0,
        node.slots as u64,
    ];
    plus_all(0, &short)
}

#[tactic(auto, using(crate::proofs::Laws::append), unfolding(crate::specs::Numbers::node_numbers))]
pub fn of_node(node: Node, mem: &[u64]) -> u32
    ensures { result ≡ sum_of (node_numbers node mem.now) }
{
    let sum = Sum {
        value: of_short(node),
        words: mem,
    };
    sum.plus_peers(node.id, node.population)
        .plus_words(
            layout::ROWS_AT,
            layout::ROSTER_ROW * node.bodega_conf.count.min(RespondersConf::RANGES),
        )
        .plus_slots(node.start_slot, node.slots.min(layout::SLOT_PLACES))
        .plus_table(layout::WRITTEN_AT, layout::WRITTEN_ROW, Node::KEYS)
        .value
}
