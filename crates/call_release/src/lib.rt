// The call *release*: the reads that a slot holds are answered, and its queue is emptied.
#![tactic(auto)]

ghost use Rattle.std.specs.Prelude.{◌≡◌, ◌≤◌, length};
ghost use Rattle.ids.specs.Leader.{leader_of};
ghost use Rattle.layout.specs.Layout.{slot_words};
ghost use Rattle.items.specs.Item.{places};
ghost use Rattle.insts.specs.Slots.{place_of, inst_in};
ghost use Rattle.release_held_reads.specs.Release.{holding_of, Releases};
ghost use Rattle.bodega.specs.Replica.{Release};
ghost use Rattle.bodega.specs.Answers.{Answers};
ghost use Rattle.node.specs.View.{view, ready, given_of};
ghost use Rattle.call_release.specs.Release.{release_refusal};
ghost use Rattle.ids.specs.Refusal.{refused_by};

use ids::{Refusal, Slot};
use insts::{InstsMut, Window};
use items::Items;
use node::{Node, Taken};
use release_held_reads::ReplicaGroup;

// Refusals 8 and 16.
fn release_refusal(window: Window, slot: Slot) -> Result<(), Refusal>
    ensures { refused_by result ≡ release_refusal window.start.0 window.held slot.0 }
{
    if Slot::TOP < slot {
        Err(Refusal::SlotTooLarge)
    } else if !window.holds(slot) {
        Err(Refusal::SlotNotHeld)
    } else {
        Ok(())
    }
}

// A release at a slot, its items from the first place on. The words come whole: a struct made of a part of the buffer
// would lose what became of the part.
fn release_in(words: &mut [u64], slot: Slot, group: ReplicaGroup, area: &mut [u64]) -> usize
    requires { (slot_words ≤ length words.old) × (length (holding_of (inst_in words.old (place_of slot.0))) ≤ places area.old) }
    ensures { Releases group.quorum (leader_of group.leader) (place_of slot.0) 0 words.old area.old result words.new area.new }
{
    let mut insts = InstsMut { words };
    let mut items = Items { area, count: 0 };
    release_held_reads::release(&mut insts, slot, group, &mut items);
    items.count
}

pub fn release(node: Node, mem: &mut [u64], area: &mut [u64], slot: Slot) -> Result<Taken, Refusal>
    ensures { Answers ready view (Release slot.0) node mem.old area.old (given_of node result) mem.new area.new }
{
    if !node::is_ready(node, mem) {
        return Err(Refusal::NotReady);
    }
    release_refusal(node_insts::window(node, mem), slot)?;
    let held = release_held_reads::holding(node_insts::insts(mem), slot);
    items::has_room(area, held)?;
    let group = ReplicaGroup {
        quorum: node.quorum,
        leader: node.bodega_conf.leader,
    };
    let count = release_in(
        &mut mem[layout::SLOTS_AT..layout::WRITTEN_AT],
        slot,
        group,
        area,
    );
    Ok(Taken { node, count })
}
