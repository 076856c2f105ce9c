// The short part of an instance, in eight lent words: ballot, status, acks, notice book. A slot's batch and held reads
// stand elsewhere. The cells come with a number and the bound that it is one of them, as an index does; `insts` takes
// slots.
#![tactic(auto)]

ghost use Rattle.std.specs.Prelude.{◌≡◌, ℕ, ◌+◌, ◌*◌, ◌≤◌, ltb, length, set};
ghost use Rattle.words.specs.Writes.{writes};
ghost use Rattle.layout.specs.Layout.{cell_row};
ghost use Rattle.bodega.specs.Replica.{order, is_open};
ghost use Rattle.inst_cell.specs.Cell.{status_of, status_named, cell_of, cell_at, cell_words, has_book};

use ids::Ballot;

#[derive(Clone, Copy, PartialEq, Eq, PartialOrd, Ord, Default)]
pub enum Status {
    #[default]
    Null,
    Preparing,
    Accepting,
    Committed,
    Executed,
}

// Words that no status has are Executed.
impl From<u64> for Status {
    ghost from_gives = { λ w s. status_of s ≡ status_named w };

    fn from(w: u64) -> Status {
        match w {
            0 => Status::Null,
            1 => Status::Preparing,
            2 => Status::Accepting,
            3 => Status::Committed,
            _ => Status::Executed,
        }
    }
}

impl From<Status> for u64 {
    ghost from_gives = { λ s w. w ≡ order (status_of s) };

    fn from(status: Status) -> u64 {
        status as u64
    }
}

// The notices of a ballot.
#[derive(Clone, Copy, Default)]
pub struct NoticeBook {
    pub bal: Ballot,
    pub notices: u64,
}

#[derive(Clone, Copy, Default)]
pub struct Cell {
    pub bal: Ballot,
    pub status: Status,
    pub leader_bk: Option<u64>,
    pub replica_bk: Option<NoticeBook>,
}

// The cell c.
pub fn load(cells: &[u64], c: usize) -> Cell
    requires { c * cell_row + cell_row ≤ length cells.now }
    ensures { cell_of result ≡ cell_at cells.now (c * cell_row) }
{
    let p = c * layout::CELL_ROW;
    let book = NoticeBook {
        bal: Ballot(cells[p + 5]),
        notices: cells[p + 6],
    };
    Cell {
        bal: Ballot(cells[p]),
        status: Status::from(cells[p + 1]),
        leader_bk: (cells[p + 2] != 0).then_some(cells[p + 3]),
        replica_bk: (cells[p + 4] != 0).then_some(book),
    }
}

#[tactic(auto, using(crate::proofs::Laws::stores))]
pub fn store(cells: &mut [u64], c: usize, cell: Cell)
    requires { c * cell_row + cell_row ≤ length cells.old }
    ensures { cells.new ≡ writes cells.old (c * cell_row) (cell_words (cell_of cell)) }
{
    let book = cell.replica_bk.unwrap_or_default();
    let p = c * layout::CELL_ROW;
    cells[p..p + 7].copy_from_slice(&[
        cell.bal.0,
        u64::from(cell.status),
        u64::from(cell.leader_bk.is_some()),
        cell.leader_bk.unwrap_or(0),
        u64::from(cell.replica_bk.is_some()),
        book.bal.0,
        book.notices,
    ]);
}

// `status < Accepting`.
pub fn is_below_accepting(status: Status) -> bool
    ensures { result ≡ ltb (order (status_of status)) 2 }
{
    status < Status::Accepting
}

// `status < Committed`.
#[tactic(auto, using(crate::proofs::Laws::open_is))]
pub fn is_open(cells: &[u64], c: usize) -> bool
    requires { c * cell_row + cell_row ≤ length cells.now }
    ensures { result ≡ is_open (cell_at cells.now (c * cell_row)).status }
{
    cells[c * layout::CELL_ROW + 1] < u64::from(Status::Committed)
}

#[tactic(auto, using(crate::proofs::Laws::book_is))]
pub fn has_book(cells: &[u64], c: usize) -> bool
    requires { c * cell_row + cell_row ≤ length cells.now }
    ensures { result ≡ has_book (cell_at cells.now (c * cell_row)) }
{
    cells[c * layout::CELL_ROW + 4] != 0
}

pub fn set_status(cells: &mut [u64], c: usize, status: Status)
    requires { c * cell_row + cell_row ≤ length cells.old }
    ensures { cells.new ≡ set cells.old (c * cell_row + 1) (order (status_of status)) }
{
    cells[c * layout::CELL_ROW + 1] = u64::from(status);
}
