// The lines of the node and of the draft. Where no node is made, a draft's line is refused 2 like one for a population
// that is none. The draft's short part goes by value (document 01), its rows are lent, the population is the node's: so
// they come apart, beside the reader.
#![tactic(auto)]

ghost use Rattle.std.specs.Prelude.{◌≤◌, length};
ghost use Rattle.layout.specs.Layout.{node_words};
ghost use Rattle.line_kind.specs.declared.EditKind.TheVariants.{Range};
ghost use Rattle.line_fields.specs.Split.{fields_from};
ghost use Rattle.line_fields.specs.Number.{numbers, number_at};
ghost use Rattle.node.specs.View.{in_range};
ghost use Rattle.node.specs.declared.Node.{Node};
ghost use Rattle.line_host.specs.Line.{is_edit, edit_of};
ghost use Rattle.line_host.specs.Follows.{EditsLine};
ghost use Rattle.line_draft.specs.Drafts.{ShowsLine, BeginsBy, BeginsLine};

use ids::{Refusal, Replica};
use line_kind::EditKind;
use line_reader::LineReader;
use node::{Node, Taken};
use roster_conf::RespondersConf;

// ---- the draft

fn range_line(
    draft: RespondersConf,
    rows: &mut [u64],
    population: u8,
    mut reader: LineReader<'_>,
) -> Result<RespondersConf, Refusal>
    ensures { EditsLine (is_edit Range (fields_from reader.entry.line.now reader.entry.at)) (edit_of Range (fields_from reader.entry.line.now reader.entry.at)) population draft rows.old result rows.new }
{
    let start = reader.next_bytes().ok_or(Refusal::Malformed)?;
    let end = reader.next_bytes().ok_or(Refusal::Malformed)?;
    let mask = reader.next_number().ok_or(Refusal::Malformed)?;
    if !reader.is_ended() {
        return Err(Refusal::Malformed);
    }
    draft.set_responders(rows, population, start, end, mask)
}

// Any edit of the draft.
pub fn edit_line(
    kind: EditKind,
    draft: RespondersConf,
    rows: &mut [u64],
    population: u8,
    reader: LineReader<'_>,
) -> Result<RespondersConf, Refusal>
    ensures { EditsLine (is_edit kind (fields_from reader.entry.line.now reader.entry.at)) (edit_of kind (fields_from reader.entry.line.now reader.entry.at)) population draft rows.old result rows.new }
{
    // Each arm reads its own fields and edits by its own method.
    match kind {
        EditKind::Lead => {
            let [leader] = reader.numbers::<1>().ok_or(Refusal::Malformed)?;
            draft.set_leader(rows, population, line_host::replica(leader))
        }
        EditKind::Range => range_line(draft, rows, population, reader),
        EditKind::Whole => {
            let [mask] = reader.numbers::<1>().ok_or(Refusal::Malformed)?;
            draft.set_full(rows, population, mask)
        }
        EditKind::Drop => {
            let [dropped] = reader.numbers::<1>().ok_or(Refusal::Malformed)?;
            draft.into_filtered(rows, population, line_host::replica(dropped))
        }
        EditKind::Reset => {
            reader.numbers::<0>().ok_or(Refusal::Malformed)?;
            draft.reset_full(rows, population)
        }
    }
}

pub fn show_line(
    draft: RespondersConf,
    rows: &[u64],
    area: &mut [u64],
    population: u8,
    reader: LineReader<'_>,
) -> Result<usize, Refusal>
    ensures { ShowsLine (numbers 0 (fields_from reader.entry.line.now reader.entry.at)) population draft rows.now area.old result area.new }
{
    reader.numbers::<0>().ok_or(Refusal::Malformed)?;
    if population == 0 {
        return Err(Refusal::NotReady);
    }
    roster_show::show(draft, rows, area)
}

// ---- the node

// The node in place of one that no call made.
fn made(mem: &mut [u64], id: Replica, population: u8, quorum: u8) -> Result<Taken, Refusal>
    ensures { (node : Node) → node_words ≤ length mem.old → BeginsBy (in_range id.0 population quorum) id.0 population quorum node mem.old result mem.new }
{
    let node = Node::fresh(mem, id, population, quorum)?;
    Ok(Taken { node, count: 0 })
}

// The same for numbers of any size. None that no byte has is in range.
fn begin(mem: &mut [u64], id: u64, population: u64, quorum: u64) -> Result<Taken, Refusal>
    ensures { (node : Node) → node_words ≤ length mem.old → BeginsBy (in_range id population quorum) id population quorum node mem.old result mem.new }
{
    let id = u8::try_from(id).map_err(|_| Refusal::NotReady)?;
    let population = u8::try_from(population).map_err(|_| Refusal::NotReady)?;
    let quorum = u8::try_from(quorum).map_err(|_| Refusal::NotReady)?;
    made(mem, Replica(id), population, quorum)
}

pub fn node_line(node: Node, mem: &mut [u64], reader: LineReader<'_>) -> Result<Taken, Refusal>
    ensures { node_words ≤ length mem.old → BeginsLine (numbers 3 (fields_from reader.entry.line.now reader.entry.at)) (number_at (fields_from reader.entry.line.now reader.entry.at) 0) (number_at (fields_from reader.entry.line.now reader.entry.at) 1) (number_at (fields_from reader.entry.line.now reader.entry.at) 2) node mem.old result mem.new }
{
    let [id, population, quorum] = reader.numbers::<3>().ok_or(Refusal::Malformed)?;
    if node::is_ready(node, mem) {
        return Err(Refusal::NotReady);
    }
    begin(mem, id, population, quorum)
}
