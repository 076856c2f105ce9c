// The call *bars*: start, accept, commit and exec bar move, slots below exec become Executed and slots below start are
// dropped.
#![tactic(auto)]

ghost use Rattle.std.specs.Prelude.{◌≡◌, ◌≤◌, length};
ghost use Rattle.layout.specs.Layout.{slot_words};
ghost use Rattle.bodega.specs.Replica.{Bars};
ghost use Rattle.bodega.specs.Answers.{Answers};
ghost use Rattle.insts.specs.Slots.{insts_of};
ghost use Rattle.node.specs.View.{view, ready, given_of};
ghost use Rattle.call_bars.specs.Moves.{any_far, lowered, in_order, broken, bars_refusal, Executes};
ghost use Rattle.ids.specs.Refusal.{refused_by};

use ids::{Refusal, Slot};
use inst_cell::Status;
use insts::{Insts, InstsMut, Window};
use node::{Node, Taken};

// The bars as they are to be.
#[derive(Clone, Copy)]
struct Moving {
    start: Slot,
    accept: Slot,
    commit: Slot,
    exec: Slot,
}

// 8.
fn any_far(to: Moving) -> bool
    ensures { result ≡ any_far to.start.0 to.accept.0 to.commit.0 to.exec.0 }
{
    [to.start, to.accept, to.commit, to.exec]
        .iter()
        .any(|bar| Slot::TOP < *bar)
}

// The bars as they are come one by one, here and below, as the definitions of the refusals have them: the start is the
// window's, and the accept bar, which may fall, is none of them, so they are no `Moving`.
fn falls(start: Slot, commit: Slot, exec: Slot, to: Moving) -> bool
    ensures { result ≡ lowered start.0 commit.0 exec.0 to.start.0 to.commit.0 to.exec.0 }
{
    to.start < start || to.commit < commit || to.exec < exec
}

fn ordered(to: Moving, end: Slot) -> bool
    ensures { result ≡ in_order to.start.0 to.exec.0 to.commit.0 end.0 }
{
    to.start <= to.exec && to.exec <= to.commit && to.commit <= end
}

// 11, where the slots begin at the start, and commit and exec bar are these.
#[tactic(auto, using(insts::proofs::Laws::first_of, insts::proofs::Laws::length_insts))]
fn breaks(insts: Insts<'_>, window: Window, commit: Slot, exec: Slot, to: Moving) -> bool
    ensures { result ≡ broken window.start.0 commit.0 exec.0 (insts_of window.start.0 window.held insts.entry.words.now) to.start.0 to.commit.0 to.exec.0 }
{
    falls(window.start, commit, exec, to)
        || !ordered(to, window.end())
        || insts.any_open(window.first(window.number(to.commit)))
        || insts.any_holds(window.first(window.number(to.start)))
}

// Refusals 8 and 11.
fn bars_refusal(
    insts: Insts<'_>,
    window: Window,
    commit: Slot,
    exec: Slot,
    to: Moving,
) -> Result<(), Refusal>
    ensures { refused_by result ≡ bars_refusal window.start.0 commit.0 exec.0 (insts_of window.start.0 window.held insts.entry.words.now) to.start.0 to.accept.0 to.commit.0 to.exec.0 }
{
    if any_far(to) {
        return Err(Refusal::SlotTooLarge);
    }
    if breaks(insts, window, commit, exec, to) {
        return Err(Refusal::BarsBroken);
    }
    Ok(())
}

// The slots of a window become Executed. The words come whole: a struct made of a part of the buffer would lose what
// became of the part.
fn execute(words: &mut [u64], window: Window)
    requires { slot_words ≤ length words.old }
    ensures { Executes window.start.0 window.held words.old words.new }
{
    let mut insts = InstsMut { words };
    for k in 0..window.held {
        insts.set_status(window.slot(k), Status::Executed);
    }
}

pub fn bars(
    node: Node,
    mem: &mut [u64],
    area: &[u64],
    start: Slot,
    accept: Slot,
    commit: Slot,
    exec: Slot,
) -> Result<Taken, Refusal>
    ensures { Answers ready view (Bars start.0 accept.0 commit.0 exec.0) node mem.old area.now (given_of node result) mem.new area.now }
{
    if !node::is_ready(node, mem) {
        return Err(Refusal::NotReady);
    }
    let window = node_insts::window(node, mem);
    let to = Moving {
        start,
        accept,
        commit,
        exec,
    };
    bars_refusal(
        node_insts::insts(mem),
        window,
        node.commit_bar,
        node.exec_bar,
        to,
    )?;
    execute(
        &mut mem[layout::SLOTS_AT..layout::WRITTEN_AT],
        window.first(window.number(exec)),
    );
    Ok(Taken {
        node: Node {
            start_slot: start,
            accept_bar: accept,
            commit_bar: commit,
            exec_bar: exec,
            slots: node.slots - window.number(start),
            ..node
        },
        count: 0,
    })
}
