// The host of the event program: the node and the draft. The node's buffer and the draft's rows are lent. Before a node
// line is accepted the node is one that no call made.
#![tactic(auto)]

ghost use Rattle.std.specs.Prelude.{◌≡◌, List, false, ℕ, ◌≤◌};
ghost use Rattle.node.specs.View.{ready};
ghost use Rattle.line_host.specs.Host.{fresh_host};
ghost use Rattle.line_host.specs.Follows.{host_of, sound, as_byte};

use ids::Replica;
use node::Node;
use roster_conf::RespondersConf;

#[derive(Clone, Copy)]
pub struct Host {
    pub node: Node,
    pub draft: RespondersConf,
}

// No node of population 0 is made by a call.
fn no_node() -> Node
    ensures { (mem : List ℕ) → ready result mem ≡ false }
{
    Node::default()
}

impl Host {
    // Before the first line.
    pub fn fresh() -> Host
        ensures { ((mem rows : List ℕ) → host_of result mem rows ≡ fresh_host) × (result.draft.count ≤ 64) }
    {
        Host {
            node: no_node(),
            draft: RespondersConf::empty(),
        }
    }
}

// Whether the buffers are long enough, and edits can have made the draft.
#[tactic(auto, unfolding(crate::specs::Follows::sound))]
pub fn is_sound(draft: RespondersConf, mem: &[u64], rows: &[u64]) -> bool
    ensures { result ≡ sound draft mem.now rows.now }
{
    mem.len() >= Node::WORDS
        && rows.len() >= RespondersConf::WORDS
        && draft.count <= RespondersConf::RANGES
}

// A replica number as a byte. One that no byte has is refused as 255 is, since no node has so many peers.
pub fn replica(n: u64) -> Replica
    ensures { result.0 ≡ as_byte n }
{
    Replica(u8::try_from(n).unwrap_or(255))
}
