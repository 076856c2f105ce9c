// The call *heartbeat*: a peer's ballot, its roster where one is attached, and its commit, exec and snap bar. A roster
// is its short part by value and its rows lent beside it, for the node's own, the draft and this one alike (document
// 01), with `fitting` where the rows hold it.
#![tactic(auto)]

ghost use Rattle.std.specs.Prelude.{◌≡◌, true, ◌&&◌, ◌||◌, List, ℕ, ◌+◌, ◌≤◌, ◌<◌, leb, length};
ghost use Rattle.items.specs.Item.{places};
ghost use Rattle.roster_conf.specs.Edits.{view as roster_of};
ghost use Rattle.bodega.specs.Replica.{Heartbeat};
ghost use Rattle.bodega.specs.Answers.{Answers};
ghost use Rattle.bodega.specs.Conflease.{any_open};
ghost use Rattle.bodega.specs.Heartbeat.{installs, heard_bars};
ghost use Rattle.bodega.specs.Grounds.{far, unformed, foreign_leader, foreign_mask, no_room};
ghost use Rattle.node.specs.View.{view, ready, given_of, lowest};
ghost use Rattle.heard_new_conf.specs.Does.{Does, whole};
ghost use Rattle.call_heartbeat.specs.Heartbeat.{fitting, carried, lacks_roster, early, installed, appending, conf_by, heard_by, Installable};
ghost use Rattle.ids.specs.Refusal.{refused_by};

use ids::{Ballot, Refusal, Replica, Slot};
use items::Items;
use node::{Node, Taken};
use roster_conf::RespondersConf;

// A heartbeat without the roster that may be attached to it.
#[derive(Clone, Copy)]
struct Beat {
    peer: Replica,
    ballot: Ballot,
    commit: Slot,
    exec: Slot,
    snap: Slot,
}

// ---- the bars

// Slots below the commit bar become Committed, with their items; then a peer's exec and snap bar.
fn heard_bars(node: Node, mem: &mut [u64], beat: Beat, items: &mut Items<'_>) -> Node
    requires { (ready node mem.old ≡ true) × (beat.peer.0 < node.population) × (items.old.count + length (heard_bars beat.peer.0 beat.ballot.0 beat.commit.0 beat.exec.0 beat.snap.0 (view node mem.old)).items ≤ places items.old.area.now) }
    ensures same_area { items.new.area.ghost_name ≡ items.old.area.ghost_name }
    ensures does { Does (heard_bars beat.peer.0 beat.ballot.0 beat.commit.0 beat.exec.0 beat.snap.0 (view node mem.old)) items.old.count mem.old items.old.area.now result items.new.count mem.new items.new.area.now }
{
    if beat.exec < node.exec_bar {
        return node;
    }
    let window = node_insts::window(node, mem);
    advance_commit_bar::advance(
        &mut mem[layout::SLOTS_AT..layout::WRITTEN_AT],
        window,
        node.commit_bar,
        beat.ballot,
        beat.commit,
        items,
    );
    let snap_bar = peer_exec_bar::heard_peer(
        &mut mem[layout::EXECS_AT..layout::ROWS_AT],
        node.population,
        node.id,
        node.snap_bar,
        beat.peer,
        beat.exec,
        beat.snap,
    );
    Node { snap_bar, ..node }
}

// How many items that has.
fn count_bars(node: Node, mem: &[u64], beat: Beat) -> usize
    requires { ready node mem.now ≡ true }
    ensures { result ≡ length (heard_bars beat.peer.0 beat.ballot.0 beat.commit.0 beat.exec.0 beat.snap.0 (view node mem.now)).items }
{
    if beat.exec < node.exec_bar {
        return 0;
    }
    advance_commit_bar::count_commits(
        node_insts::insts(mem),
        node_insts::window(node, mem),
        node.commit_bar,
        beat.ballot,
        beat.commit,
    )
}

// ---- the roster, where one is attached

// Whether there is none, or the lent rows hold it.
fn is_fitting(conf: Option<RespondersConf>, rows: &[u64]) -> bool
    ensures { result ≡ fitting conf rows.now }
{
    match conf {
        Some(c) => RespondersConf::WORDS <= rows.len() && c.count <= RespondersConf::RANGES,
        None => true,
    }
}

// Whether a roster is to be installed: at a higher ballot, or another one of the ballot's proposer.
fn installs(node: Node, mem: &[u64], beat: Beat, conf: RespondersConf, rows: &[u64]) -> bool
    requires { (ready node mem.now ≡ true) × (whole conf.count rows.now ≡ true) }
    ensures { result ≡ installs (view node mem.now) beat.peer.0 beat.ballot.0 (roster_of conf rows.now) }
{
    node.bal_max_seen < beat.ballot
        || (roster_compare::from_proposer(beat.peer, beat.ballot)
            && !roster_compare::same(
                conf,
                rows,
                node.bodega_conf,
                &mem[layout::ROWS_AT..layout::SLOTS_AT],
            ))
}

// The attached roster, where it is to be installed.
fn installed(
    node: Node,
    mem: &[u64],
    beat: Beat,
    conf: Option<RespondersConf>,
    rows: &[u64],
) -> Option<RespondersConf>
    requires { (ready node mem.now ≡ true) × (fitting conf rows.now ≡ true) }
    ensures { (carried result rows.now ≡ installed (view node mem.now) beat.peer.0 beat.ballot.0 (carried conf rows.now)) × (fitting result rows.now ≡ true) }
{
    let conf = conf?;
    installs(node, mem, beat, conf, rows).then_some(conf)
}

// ---- refusals

// 2.
fn is_unformed(conf: Option<RespondersConf>, rows: &[u64]) -> bool
    requires { fitting conf rows.now ≡ true }
    ensures { result ≡ unformed (carried conf rows.now) }
{
    conf.is_some_and(|c| roster_compare::is_unformed(c, rows))
}

// 3. The population is the node's, the peer the call's.
fn is_foreign(population: u8, peer: Replica, conf: Option<RespondersConf>) -> bool
    ensures { (rows : List ℕ) → result ≡ leb population peer.0 || foreign_leader population (carried conf rows) }
{
    population <= peer.0 || conf.is_some_and(|c| roster_compare::foreign_leader(population, c))
}

// 4.
fn is_misfit(population: u8, conf: Option<RespondersConf>, rows: &[u64]) -> bool
    requires { fitting conf rows.now ≡ true }
    ensures { result ≡ foreign_mask population (carried conf rows.now) }
{
    conf.is_some_and(|c| roster_compare::foreign_mask(population, c, rows))
}

// 8.
fn is_far(beat: Beat) -> bool
    ensures { result ≡ far beat.commit.0 || far beat.exec.0 || far beat.snap.0 }
{
    Slot::TOP < beat.commit || Slot::TOP < beat.exec || Slot::TOP < beat.snap
}

// 12.
fn lacks_roster(seen: Ballot, ballot: Ballot, conf: Option<RespondersConf>) -> bool
    ensures { result ≡ lacks_roster seen.0 ballot.0 conf }
{
    seen < ballot && conf.is_none()
}

// Whether a slot that the node holds is open.
fn any_open(node: Node, mem: &[u64]) -> bool
    requires { ready node mem.now ≡ true }
    ensures { result ≡ any_open (view node mem.now).insts }
{
    node_insts::insts(mem).any_open(node_insts::window(node, mem))
}

// 15: for a null slot, at a step-up that finds no slot open.
fn lacks_slot(node: Node, mem: &[u64], ballot: Ballot, conf: Option<RespondersConf>) -> bool
    requires { ready node mem.now ≡ true }
    ensures { (rows : List ℕ) → result ≡ appending (view node mem.now) ballot.0 (carried conf rows) && no_room (view node mem.now) }
{
    match conf {
        Some(c) => {
            node.bal_max_seen <= ballot
                && node::leads(c.leader, node.id)
                && !any_open(node, mem)
                && (Node::WINDOW <= node.slots || Slot::TOP < node_insts::window(node, mem).end())
        }
        None => false,
    }
}

// The first refusal before 15; what 2 says of buffers is not among them.
fn early_refusal(
    node: Node,
    beat: Beat,
    conf: Option<RespondersConf>,
    rows: &[u64],
) -> Result<(), Refusal>
    requires { fitting conf rows.now ≡ true }
    ensures { refused_by result ≡ lowest (early node.population node.bal_max_seen.0 beat.peer.0 beat.ballot.0 (carried conf rows.now) beat.commit.0 beat.exec.0 beat.snap.0) }
{
    if is_unformed(conf, rows) {
        return Err(Refusal::NotReady);
    }
    if is_foreign(node.population, beat.peer, conf) {
        return Err(Refusal::NoSuchReplica);
    }
    if is_misfit(node.population, conf, rows) {
        return Err(Refusal::MaskTooWide);
    }
    if is_far(beat) {
        return Err(Refusal::SlotTooLarge);
    }
    if lacks_roster(node.bal_max_seen, beat.ballot, conf) {
        return Err(Refusal::RosterMissing);
    }
    Ok(())
}

// ---- `heard_heartbeat`, of the roster that is to be installed, if any

// How many items a heartbeat has whose ballot is not lower.
fn count_items(node: Node, mem: &[u64], beat: Beat, conf: Option<RespondersConf>) -> usize
    requires { ready node mem.now ≡ true }
    ensures { (rows : List ℕ) → result ≡ length (heard_by (carried conf rows) beat.peer.0 beat.ballot.0 beat.commit.0 beat.exec.0 beat.snap.0 (view node mem.now)).items }
{
    if let Some(c) = conf
        && node::leads(c.leader, node.id)
    {
        return heard_new_conf::count_new_conf(node, mem, c);
    }
    count_bars(node, mem, beat)
}

// The roster, where it is installed.
fn heard_conf(
    node: Node,
    mem: &mut [u64],
    ballot: Ballot,
    conf: Option<RespondersConf>,
    rows: &[u64],
    items: &mut Items<'_>,
) -> Node
    requires { (ready node mem.old ≡ true) × Installable node mem.old conf rows.now × (items.old.count + length (conf_by (carried conf rows.now) ballot.0 (view node mem.old)).items ≤ places items.old.area.now) }
    ensures same_area { items.new.area.ghost_name ≡ items.old.area.ghost_name }
    ensures does { Does (conf_by (carried conf rows.now) ballot.0 (view node mem.old)) items.old.count mem.old items.old.area.now result items.new.count mem.new items.new.area.now }
{
    match conf {
        Some(c) => heard_new_conf::heard_new_conf(node, mem, ballot, c, rows, items),
        None => node,
    }
}

// The roster, then the bars.
fn heard(
    node: Node,
    mem: &mut [u64],
    beat: Beat,
    conf: Option<RespondersConf>,
    rows: &[u64],
    items: &mut Items<'_>,
) -> Node
    requires { (ready node mem.old ≡ true) × (beat.peer.0 < node.population) × Installable node mem.old conf rows.now × (items.old.count + length (heard_by (carried conf rows.now) beat.peer.0 beat.ballot.0 beat.commit.0 beat.exec.0 beat.snap.0 (view node mem.old)).items ≤ places items.old.area.now) }
    ensures same_area { items.new.area.ghost_name ≡ items.old.area.ghost_name }
    ensures does { Does (heard_by (carried conf rows.now) beat.peer.0 beat.ballot.0 beat.commit.0 beat.exec.0 beat.snap.0 (view node mem.old)) items.old.count mem.old items.old.area.now result items.new.count mem.new items.new.area.now }
{
    let next = heard_conf(node, mem, beat.ballot, conf, rows, items);
    heard_bars(next, mem, beat, items)
}

// `rows` are the attached roster's, where one is attached.
pub fn heartbeat(
    node: Node,
    mem: &mut [u64],
    area: &mut [u64],
    peer: Replica,
    ballot: Ballot,
    conf: Option<RespondersConf>,
    rows: &[u64],
    commit: Slot,
    exec: Slot,
    snap: Slot,
) -> Result<Taken, Refusal>
    ensures { Answers (λ n m. ready n m && fitting conf rows.now) view (Heartbeat peer.0 ballot.0 (carried conf rows.now) commit.0 exec.0 snap.0) node mem.old area.old (given_of node result) mem.new area.new }
{
    let beat = Beat {
        peer,
        ballot,
        commit,
        exec,
        snap,
    };
    if !node::is_ready(node, mem) || !is_fitting(conf, rows) {
        return Err(Refusal::NotReady);
    }
    early_refusal(node, beat, conf, rows)?;
    let conf = installed(node, mem, beat, conf, rows);
    if lacks_slot(node, mem, ballot, conf) {
        return Err(Refusal::WindowFull);
    }
    if ballot < node.bal_max_seen {
        return Ok(Taken { node, count: 0 });
    }
    items::has_room(area, count_items(node, mem, beat, conf))?;
    let mut items = Items { area, count: 0 };
    let node = heard(node, mem, beat, conf, rows, &mut items);
    Ok(Taken {
        node,
        count: items.count,
    })
}
