// The slots of a replica in lent words: which of them a node holds, and the part of its buffer where they stand. Both
// functions ask for what `node::is_ready` has tested, so they stand apart from crate `node`, which asks nothing.
#![tactic(auto)]

ghost use Rattle.std.specs.Prelude.{◌≡◌, true, ℕ, ◌≤◌, length};
ghost use Rattle.node.specs.View.{ready};
ghost use Rattle.words.specs.Part.{part};
ghost use Rattle.layout.specs.Layout.{node_words, slots_at, slot_words};

use insts::{Insts, Window};
use node::Node;

// The slots that a node holds.
pub fn window(node: Node, mem: &[u64]) -> Window
    requires { ready node mem.now ≡ true }
    ensures { (result.start ≡ node.start_slot) × (result.held ≡ node.slots) }
{
    Window {
        start: node.start_slot,
        held: node.slots,
    }
}

// The slots' words of a node's buffer.
#[tactic(auto, unfolding(words::specs::Part::part))]
pub fn insts(mem: &[u64]) -> Insts<'_>
    requires { node_words ≤ length mem.now }
    ensures { result.words.now ≡ part mem.now slots_at slot_words }
{
    Insts {
        words: &mem[layout::SLOTS_AT..layout::WRITTEN_AT],
    }
}
