// A replica's core: what is short goes by value, the tables stand in one lent buffer of words that counts as part of
// the node. So document 01 has it, and a host in C lends the buffer and the answer area: node, buffer and area go side
// by side through the calls, with `ready`, which says of the first two that a call can have made them.
#![tactic(auto)]

ghost use Rattle.std.specs.Prelude.{◌≡◌, ◌&&◌, List, ℕ, ◌≤◌, leb, length, replicate};
ghost use Rattle.node.specs.View.{size, in_range, bars_in_range, sound, view, ready, leads_it};
ghost use Rattle.ids.specs.Leader.{leader_of};
ghost use Rattle.layout.specs.Layout.{node_words};
ghost use Rattle.bodega.specs.Replica.{is_leader};
ghost use Rattle.node.specs.Begins.{Reset, Begins};

use ids::{Ballot, Refusal, Replica, Slot};
use roster_conf::RespondersConf;

// The slots stand in the lent buffer, so `slots` says how many are held.
#[derive(Clone, Copy, Default)]
pub struct Node {
    pub id: Replica,
    pub population: u8,
    pub quorum: u8,
    pub bodega_conf: RespondersConf,
    pub bal_max_seen: Ballot,
    pub bal_prep_sent: Ballot,
    pub bal_prepared: Ballot,
    pub start_slot: Slot,
    pub accept_bar: Slot,
    pub commit_bar: Slot,
    pub exec_bar: Slot,
    pub snap_bar: Slot,
    pub peer_accept_max: Slot,
    pub slots: usize,
}

// What a call gives that is taken: the node after it, and how many items it sends. A call that is refused leaves the
// node as it was. The items stand in a lent area (no heap), so their number goes beside it.
#[derive(Clone, Copy)]
pub struct Taken {
    pub node: Node,
    pub count: usize,
}

// Own number, population and quorum come one by one, as a host in C gives them to `fresh`.
fn in_range(id: Replica, population: u8, quorum: u8) -> bool
    ensures { result ≡ in_range id.0 population quorum }
{
    0 < quorum && quorum <= population && population <= Node::REPLICAS && id.0 < population
}

fn begins(len: usize, id: Replica, population: u8, quorum: u8) -> bool
    ensures { result ≡ leb size len && in_range id.0 population quorum }
{
    Node::WORDS <= len && in_range(id, population, quorum)
}

fn bars_in_range(node: Node) -> bool
    ensures { result ≡ bars_in_range node.start_slot.0 node.exec_bar.0 node.commit_bar.0 node.slots }
{
    node.start_slot <= Slot::TOP
        && node.start_slot <= node.exec_bar
        && node.exec_bar <= node.commit_bar
        && node.slots <= Node::WINDOW
        && node.commit_bar.0 <= node.start_slot.0 + node.slots as u64
}

// Whether a call can have made the node, and the buffer is long enough.
#[tactic(auto, unfolding(crate::specs::View::ready))]
pub fn is_ready(node: Node, mem: &[u64]) -> bool
    ensures { result ≡ ready node mem.now }
{
    begins(mem.len(), node.id, node.population, node.quorum)
        && node.bodega_conf.count <= RespondersConf::RANGES
        && bars_in_range(node)
}

// Whether a roster's leader is this replica.
pub fn leads(leader: Option<Replica>, id: Replica) -> bool
    ensures { result ≡ leads_it (leader_of leader) id.0 }
{
    leader == Some(id)
}

// `is_leader`.
pub fn is_leader(node: Node) -> bool
    ensures { (m : List ℕ) → result ≡ is_leader (view node m) }
{
    leads(node.bodega_conf.leader, node.id)
}

// No guard and no exec bar heard, no key written.
fn reset(mem: &mut [u64])
    requires { node_words ≤ length mem.old }
    ensures { Reset mem.old mem.new }
{
    mem[..layout::BARS_AT].fill(0);
    mem[layout::BARS_AT..layout::EXECS_AT].fill(Slot::BEYOND.0);
    mem[layout::EXECS_AT..layout::ROWS_AT].fill(0);
    mem[layout::WRITTEN_AT] = 0;
}

impl Node {
    pub const WORDS: usize = layout::NODE_WORDS;

    pub const REPLICAS: u8 = Replica::LIMIT;

    // Slots held at most, and reads held by a slot.
    pub const WINDOW: usize = 32;

    pub const HOLD: usize = 16;

    pub const KEYS: usize = highest_slot::KEYS;

    // The starting state: ballot 0, no leader, no slots.
    pub fn fresh(mem: &mut [u64], id: Replica, population: u8, quorum: u8) -> Result<Node, Refusal>
        ensures { Begins id.0 population quorum mem.old result mem.new }
    {
        if !begins(mem.len(), id, population, quorum) {
            return Err(Refusal::NotReady);
        }
        reset(mem);
        Ok(Node {
            id,
            population,
            quorum,
            peer_accept_max: Slot::BEYOND,
            ..Node::default()
        })
    }

    // `peer_accept_max`, the reading bar.
    pub fn reading_bar(self) -> Slot
        ensures { result ≡ self.peer_accept_max }
    {
        self.peer_accept_max
    }
}
