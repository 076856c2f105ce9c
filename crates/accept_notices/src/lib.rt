// A slot's notice book, without the reads that wait: `ReplicaBookkeeping::{accept_notices_bal, accept_notices}`.
// `cleared` and `noticed` take it by value; `clear` and `take_notice` are the same for a book that is lent, as document
// 01 asks.
#![tactic(auto)]

ghost use Rattle.std.specs.Prelude.{◌≡◌};
ghost use Rattle.accept_notices.specs.Book.{fresh_book, cleared, Takes};

use ids::{Ballot, Replica};
use inst_cell::NoticeBook;

// The book of a slot that had none.
pub fn fresh() -> NoticeBook
    ensures { result ≡ fresh_book }
{
    NoticeBook::default()
}

// No notices any more; the ballot stays.
pub fn cleared(book: NoticeBook) -> NoticeBook
    ensures { result ≡ cleared book }
{
    NoticeBook { notices: 0, ..book }
}

pub fn clear(book: &mut NoticeBook)
    ensures { book.new ≡ cleared book.old }
{
    *book = cleared(*book);
}

// One notice more. One of a higher ballot empties the book first.
#[tactic(auto, unfolding(bodega::specs::Messages::take_notice, bitmap::specs::Bitmap::set_to))]
pub fn noticed(mut book: NoticeBook, peer: Replica, ballot: Ballot) -> NoticeBook
    ensures { Takes peer.0 ballot.0 book result }
{
    if book.bal < ballot {
        clear(&mut book);
        book.bal = ballot;
    }
    book.notices = bitmap::set(book.notices, peer, true);
    book
}

pub fn take_notice(book: &mut NoticeBook, peer: Replica, ballot: Ballot)
    ensures { Takes peer.0 ballot.0 book.old book.new }
{
    *book = noticed(*book, peer, ballot);
}
