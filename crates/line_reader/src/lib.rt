// A reader that keeps its line and its position. Each method is thin, with the work in `line_fields`.
#![tactic(auto)]

ghost use Rattle.std.specs.Prelude.{◌≡◌};
ghost use Rattle.line_fields.specs.Split.{fields_from};
ghost use Rattle.line_fields.specs.Reads.{none_left, ReadsNumbers};
ghost use Rattle.line_reader.specs.Takes.{TakesBytes, TakesField, TakesNumber, TakesNumbers, TakesOptional};

use line_fields::Field;

#[derive(Clone, Copy)]
pub struct LineReader<'a> {
    pub line: &'a [u8],
    pub at: usize,
}

impl<'a> LineReader<'a> {
    pub fn new(line: &'a [u8], at: usize) -> LineReader<'a>
        ensures { result ≡ record { line = line.entry; at = at } }
    {
        LineReader { line, at }
    }

    // Whether no field is left.
    pub fn is_ended(&self) -> bool
        ensures { result ≡ none_left (fields_from self.now.line.now self.now.at) }
    {
        line_fields::ended(self.line, self.at)
    }

    // The first field that is left. The reader moves on to the one after it.
    pub fn next_field(&mut self) -> Field
        ensures { TakesField self.old result self.new }
    {
        let field = line_fields::field_at(self.line, self.at);
        self.at = field.next;
        field
    }

    // Its bytes, if one is left.
    pub fn next_bytes(&mut self) -> Option<&'a [u8]>
        ensures { TakesBytes self.old result self.new }
    {
        if self.is_ended() {
            return None;
        }
        let field = self.next_field();
        Some(&self.line[field.start..field.end])
    }

    // The first field that is left, if it is a number. The reader then moves on to the one after it.
    pub fn next_number(&mut self) -> Option<u64>
        ensures { TakesNumber self.old result self.new }
    {
        let number = line_fields::number_at(self.line, self.at)?;
        self.at = number.next;
        Some(number.value)
    }

    // The same for a field that is a number or empty.
    pub fn next_optional(&mut self) -> Option<Option<u64>>
        ensures { TakesOptional self.old result self.new }
    {
        let optional = line_fields::optional_at(self.line, self.at)?;
        self.at = optional.next;
        Some(optional.value)
    }

    // As many numbers as `out` has words, if the first fields that are left are so many numbers. The reader moves on
    // past those that are, and stands at the first that is none.
    pub fn next_numbers(&mut self, out: &mut [u64]) -> Option<()>
        ensures { TakesNumbers self.old out.old result self.new out.new }
    {
        match line_fields::numbers_at(self.line, self.at, out) {
            Ok(next) => {
                self.at = next;
                Some(())
            }
            Err(stop) => {
                self.at = stop;
                None
            }
        }
    }

    // The fields that are left, if they are N numbers: an array, since there is no heap.
    pub fn numbers<const N: usize>(mut self) -> Option<[u64; N]>
        ensures { ReadsNumbers self.entry.line.now self.entry.at N result }
    {
        let mut out = [0; N];
        self.next_numbers(&mut out)?;
        self.is_ended().then_some(out)
    }
}
