// The call *read*: request.rs's `treat_read_only_reqs`, for one read.
#![tactic(auto)]

ghost use Rattle.std.specs.Prelude.{[], ◌∷◌, ◌++◌, ◌≤◌, ◌<◌, length};
ghost use Rattle.layout.specs.Layout.{held_places, slot_words};
ghost use Rattle.inst_holding.specs.Held.{read_of};
ghost use Rattle.insts.specs.Slots.{place_of, reads_at, PutsReads};
ghost use Rattle.bodega.specs.Replica.{Read};
ghost use Rattle.bodega.specs.Answers.{Answers};
ghost use Rattle.node.specs.View.{view, ready, given_of};

use ids::{Refusal, Slot};
use inspect_latest_write::ReadAnswer;
use inst_holding::ReadReq;
use insts::InstsMut;
use node::{Node, Taken, is_ready};

// A read at the end of a slot's queue. The words come whole: a struct made of a part of the buffer would lose what
// became of the part.
fn hold(words: &mut [u64], slot: Slot, read: ReadReq)
    requires { (slot_words ≤ length words.old) × (length (reads_at words.old (place_of slot.0)) < held_places) }
    ensures { PutsReads words.old (place_of slot.0) (reads_at words.old (place_of slot.0) ++ (read_of read ∷ [])) words.new }
{
    let mut insts = InstsMut { words };
    insts.push_read(slot, read);
}

pub fn read(
    node: Node,
    mem: &mut [u64],
    area: &mut [u64],
    client: u64,
    request: u64,
    leases: u64,
    key: &[u8],
) -> Result<Taken, Refusal>
    ensures { Answers ready view (Read leases (record { client = client; request = request; key = key.now })) node mem.old area.old (given_of node result) mem.new area.new }
{
    if !is_ready(node, mem) {
        return Err(Refusal::NotReady);
    }
    let packed = key_words::pack(key).ok_or(Refusal::KeyTooLong)?;
    let answer = inspect_latest_write::read_answer(node, mem, leases, key, packed);
    if inspect_latest_write::overfills(node, mem, answer) {
        return Err(Refusal::TooManyReads);
    }
    let item = inspect_latest_write::item_of(node, client, request, answer);
    items::put_item(area, 0, item)?;
    if let ReadAnswer::HeldBy(slot) = answer {
        let read = ReadReq {
            client,
            request,
            key: packed,
        };
        hold(&mut mem[layout::SLOTS_AT..layout::WRITTEN_AT], slot, read);
    }
    Ok(Taken { node, count: 1 })
}
