// The buffer that is lent with a node, in words: how wide the rows are, how many there is room for, and where the
// tables stand.
#![tactic(auto)]

// Words of a row.
pub const CELL_ROW: usize = 8;

pub const REQUEST_ROW: usize = 11;

pub const HELD_ROW: usize = 9;

pub const WRITTEN_ROW: usize = 8;

pub const ROSTER_ROW: usize = 5;

// Room for slots, and for a slot's requests and held reads; slot s has place s % PLACES.
pub const PLACES: u64 = 32;

pub const SLOT_PLACES: usize = PLACES as usize;

pub const REQUEST_PLACES: usize = 8;

pub const HELD_PLACES: usize = 16;

// Room for written keys, stored ranges and replicas.
pub const WRITTEN_PLACES: usize = 256;

pub const ROSTER_PLACES: usize = 64;

pub const REPLICA_PLACES: usize = 64;

// Words of a table: those of a batch, of a slot's held reads and of the written keys begin with a count.
pub const BATCH_WORDS: usize = 1 + REQUEST_PLACES * REQUEST_ROW;

pub const HELD_WORDS: usize = 1 + HELD_PLACES * HELD_ROW;

pub const WRITTEN_WORDS: usize = 1 + WRITTEN_PLACES * WRITTEN_ROW;

pub const ROSTER_WORDS: usize = ROSTER_PLACES * ROSTER_ROW;

pub const PAIR_WORDS: usize = 2 * REPLICA_PLACES;

// The slots: cells, then batches, then held reads.
pub const BATCHES_FROM: usize = SLOT_PLACES * CELL_ROW;

pub const READS_FROM: usize = BATCHES_FROM + SLOT_PLACES * BATCH_WORDS;

pub const SLOT_WORDS: usize = READS_FROM + SLOT_PLACES * HELD_WORDS;

// The buffer: guard numbers, guard bars, peers' exec bars, the roster's rows, the slots, the written keys.
pub const BARS_AT: usize = REPLICA_PLACES;

pub const EXECS_AT: usize = PAIR_WORDS;

pub const ROWS_AT: usize = EXECS_AT + REPLICA_PLACES;

pub const SLOTS_AT: usize = ROWS_AT + ROSTER_WORDS;

pub const WRITTEN_AT: usize = SLOTS_AT + SLOT_WORDS;

pub const NODE_WORDS: usize = WRITTEN_AT + WRITTEN_WORDS;
