// Reads keys from standard input, one to a line, and writes the number that each reads as, or `-` where it does not
// read. The input is read in pieces of 64 KB and never kept whole. A line of more than 1,024 bytes is answered `-`; a
// last line without a newline counts if it has a byte. The program ends when the input does, or when a read or a write
// fails, with that error. A read that a signal interrupted is made again. After a read that failed, the line that has
// begun is not answered.
#![tactic(auto)]

ghost use Rattle.std.specs.Prelude.{◌*◌, ◌≤◌, length, IfOk, IfSome};

use line_buffers::{LINE_BYTES, blank};
use std::io;
use std::io::{ErrorKind, Read, Stdin, Stdout};
use stream_pieces::Carry;

// Room for a piece of 64 KB behind the start of a line.
const PIECE_BYTES: usize = LINE_BYTES + 65536;

// No answer has more than twice the bytes of its line.
const ANSWERS_BYTES: usize = 2 * PIECE_BYTES;

// What the program reads from and writes to, and what it is lent for that.
#[derive(Drop)]
struct Program<'a> {
    input: Stdin,
    output: Stdout,
    buf: &'a mut [u8],
    out: &'a mut [u8],
    ghost piece_room: { 1025 ≤ length buf.now },
    ghost answers_room: { 2 * length buf.now ≤ length out.now },
}

impl Program<'_> {
    // Reads a piece behind the bytes that were kept, and writes the answers to the lines that end in it. Gives what is
    // kept of the line that has begun, or nothing at the end of the input.
    fn turn(&mut self, line: Carry) -> io::Result<Option<Carry>>
        requires { line.have ≤ 1024 }
        ensures { IfOk result (λ next. IfSome next (λ kept. kept.have ≤ 1024)) }
    {
        let have = line.have;
        let n = match self.input.read(&mut self.buf[have..]) {
            Ok(n) => n,
            Err(e) if e.kind() == ErrorKind::Interrupted => return Ok(Some(line)),
            Err(e) => return Err(e),
        };
        if n == 0 {
            let used = key_lines::last_line(&self.buf[..have], line.long, self.out);
            self.output.write_all(&self.out[..used])?;
            return Ok(None);
        }
        let end = have + n;
        let fed = key_lines::feed(&self.buf[..end], line.long, self.out);
        self.output.write_all(&self.out[..fed.used])?;
        Ok(Some(stream_pieces::keep(self.buf, fed.at, end, fed.long)))
    }

    // A proved loop has to end, and nothing says that the input does: so it counts its turns, up to a number that no
    // run reaches.
    fn run(&mut self) -> io::Result<()> {
        let mut line = Carry {
            have: 0,
            long: false,
        };
        for _ in 0..u64::MAX {
            let Some(next) = self.turn(line)? else {
                break;
            };
            line = next;
        }
        Ok(())
    }
}

fn main(rt: HostRuntime) -> io::Result<()> {
    let mut buf: [u8; PIECE_BYTES] = blank();
    let mut out: [u8; ANSWERS_BYTES] = blank();
    let mut program = Program {
        input: rt.stdin(),
        output: rt.stdout(),
        buf: &mut buf,
        out: &mut out,
    };
    program.run()
}
