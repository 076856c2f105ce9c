// The buffers that an event line is answered in, how large they are, a blank one for a program to lend, and one filled
// from an input.
#![tactic(auto)]

ghost use Rattle.std.specs.Prelude.{◌≡◌, ◌≤◌, length, IfOk};

use std::io;
use std::io::{ErrorKind, Read};

// The longest line that is read; a stream keeps no more of one.
pub const LINE_BYTES: usize = 1024;

// Room for the items of any call, of six words each.
pub const ITEM_PLACES: usize = 546;

pub const ITEM_WORDS: usize = 6 * ITEM_PLACES;

// Room for the groups of any record line.
pub const GROUP_WORDS: usize = 1542;

// Room for any answer's text.
pub const TEXT_BYTES: usize = 65536;

// What an event line is answered in: a node's words, a draft's rows, the answer area, and room for groups.
#[derive(Drop)]
pub struct Buffers<'a> {
    pub mem: &'a mut [u64],
    pub rows: &'a mut [u64],
    pub area: &'a mut [u64],
    pub groups: &'a mut [u64],
}

// Of an array only the length is said, so that a proof over it does not go through its elements.
pub fn blank<T: Copy + Default, const N: usize>() -> [T; N]
    ensures { length result ≡ N }
{
    [T::default(); N]
}

// Reads until the buffer is full or the input ends, and returns how many bytes it put at the buffer's start.
// A proved loop has to end, and nothing says that a signal does not interrupt each read: so it counts them.
pub fn read_full<R: Read>(input: &mut R, buf: &mut [u8]) -> io::Result<usize>
    ensures { IfOk result (λ n. n ≤ length buf.new) }
{
    let mut done = 0;
    for _ in 0..u64::MAX {
        if done == buf.len() {
            break;
        }
        match input.read(&mut buf[done..]) {
            Ok(0) => break,
            Ok(n) => done += n,
            Err(e) if e.kind() == ErrorKind::Interrupted => {}
            Err(e) => return Err(e),
        }
    }
    Ok(done)
}
