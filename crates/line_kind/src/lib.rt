// The kinds of event lines, told by their names.
#![tactic(auto)]

ghost use Rattle.std.specs.Prelude.{◌≡◌};
ghost use Rattle.keys.specs.Same.{same_bytes};
ghost use Rattle.line_kind.specs.Kind.{kind_of};

// The seventeen kinds of lines: the edits of the draft and the calls that only the node and its answer area take part
// in are groups of their own.
#[derive(Clone, Copy)]
pub enum Kind {
    Node,
    Edit(EditKind),
    Show,
    Heard,
    Record,
    Call(CallKind),
    Unknown,
}

#[derive(Clone, Copy)]
pub enum EditKind {
    Lead,
    Range,
    Whole,
    Drop,
    Reset,
}

#[derive(Clone, Copy)]
pub enum CallKind {
    Guard,
    Prepared,
    Reply,
    Notice,
    Commit,
    Bars,
    Read,
    Release,
}

fn is(name: &[u8], word: &[u8]) -> bool
    ensures { result ≡ same_bytes name.now word.now }
{
    name == word
}

// By its length first: with all words one after the other a name takes more than twice the instructions. A match on the
// words themselves takes half, but its proof did not close (91 goals). No `From`: a name is not another form of a kind.
#[tactic(auto, using(crate::proofs::Names::of_4, crate::proofs::Names::of_5, crate::proofs::Names::of_6, crate::proofs::Names::of_7, crate::proofs::Names::of_8, crate::proofs::Names::none))]
pub fn kind_of(name: &[u8]) -> Kind
    ensures { result ≡ kind_of name.now }
{
    match name.len() {
        4 => {
            if is(name, b"lead") {
                Kind::Edit(EditKind::Lead)
            } else if is(name, b"read") {
                Kind::Call(CallKind::Read)
            } else if is(name, b"bars") {
                Kind::Call(CallKind::Bars)
            } else if is(name, b"node") {
                Kind::Node
            } else if is(name, b"drop") {
                Kind::Edit(EditKind::Drop)
            } else if is(name, b"show") {
                Kind::Show
            } else {
                Kind::Unknown
            }
        }
        5 => {
            if is(name, b"reply") {
                Kind::Call(CallKind::Reply)
            } else if is(name, b"heard") {
                Kind::Heard
            } else if is(name, b"guard") {
                Kind::Call(CallKind::Guard)
            } else if is(name, b"range") {
                Kind::Edit(EditKind::Range)
            } else if is(name, b"whole") {
                Kind::Edit(EditKind::Whole)
            } else if is(name, b"reset") {
                Kind::Edit(EditKind::Reset)
            } else {
                Kind::Unknown
            }
        }
        6 => {
            if is(name, b"record") {
                Kind::Record
            } else if is(name, b"commit") {
                Kind::Call(CallKind::Commit)
            } else if is(name, b"notice") {
                Kind::Call(CallKind::Notice)
            } else {
                Kind::Unknown
            }
        }
        7 => {
            if is(name, b"release") {
                Kind::Call(CallKind::Release)
            } else {
                Kind::Unknown
            }
        }
        8 => {
            if is(name, b"prepared") {
                Kind::Call(CallKind::Prepared)
            } else {
                Kind::Unknown
            }
        }
        _ => Kind::Unknown,
    }
}
