// The recorded scripts: for each a line `script,NAME,INPUT,OUTPUT`, INPUT bytes of event lines, OUTPUT bytes of
// answers, and at once the next script.
ghost use Rattle.std.specs.Prelude.{◌<◌, ◌≤◌, length, IfSome};

use line_reader::LineReader;

// A script's name, its event lines and the answers to them.
#[derive(Clone, Copy)]
pub(crate) struct Script<'a> {
    pub name: &'a [u8],
    pub input: &'a [u8],
    pub answers: &'a [u8],
}

// A script's first line: its name, and how many bytes of event lines and of answers follow. Lengths, as the line has
// them: what they count comes after it.
#[derive(Clone, Copy)]
struct Header<'a> {
    name: &'a [u8],
    input: usize,
    answers: usize,
}

fn read_header(line: &[u8]) -> Option<Header<'_>> {
    let mut reader = LineReader::new(line, 0);
    if reader.next_bytes()? != b"script".as_slice() {
        return None;
    }
    let name = reader.next_bytes()?;
    let input = reader.next_number()?;
    let answers = reader.next_number()?;
    reader.is_ended().then_some(Header {
        name,
        input: input as usize,
        answers: answers as usize,
    })
}

// The first script of a file, and what follows it.
pub(crate) fn split_first(file: &[u8]) -> Option<(Script<'_>, &[u8])>
    ensures { IfSome result (λ r. (length r.0.input.now ≤ length file.now) × (length r.1.now < length file.now)) }
{
    let end = file.iter().position(|b| *b == b'\n')?;
    let header = read_header(&file[..end])?;
    let (input, rest) = file[end + 1..].split_at_checked(header.input)?;
    let (answers, rest) = rest.split_at_checked(header.answers)?;
    let script = Script {
        name: header.name,
        input,
        answers,
    };
    Some((script, rest))
}
