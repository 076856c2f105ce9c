// For Rust and C, over plain structs and lent words: the calls, key reading, and the edits and the lookup of a roster.
// The C interface has a function for each name, and numbers, flags, slices and plain structs: so the calls have like
// bodies, arguments come one by one, a flag says whether a roster is attached, and a number beside the rows says how
// many stand.
#![tactic(auto)]

ghost use Rattle.std.specs.Prelude.{◌≡◌, ◌&&◌};
ghost use Rattle.std.specs.Bool.{then_some};
ghost use Rattle.bodega.specs.Replica.{Guard, Prepared, Bars, Record, Heartbeat, Reply, Notice, CommitNotice, Read, Release};
ghost use Rattle.req_batch.specs.Given.{given as batch_of};
ghost use Rattle.call_heartbeat.specs.Heartbeat.{fitting, carried};
ghost use Rattle.bodega.specs.Answers.{Answers};
ghost use Rattle.node.specs.View.{view, ready};
ghost use Rattle.keys.specs.Read.{read_key};
ghost use Rattle.roster_conf.specs.Edit.{SetResponders, SetFull, IntoFiltered};
ghost use Rattle.roster_conf.specs.Edits.{lookup};
ghost use Rattle.export_roster.specs.Numbers.{key_of, plain, Counts, mask_of};
ghost use Rattle.export_plain.specs.Plain.{node_of, conf_of, given, no_node, Begins, GivesBack};

use export_plain::{Plain, PlainAnswered, Roster};
use export_roster::{Count, Key, Mask};
use ids::{Ballot, Replica, Slot};
use node::Node;

pub fn bodega_fresh(mem: &mut [u64], id: u8, population: u8, quorum: u8) -> PlainAnswered
    ensures { Begins id population quorum mem.old result mem.new × GivesBack no_node result × (result.count ≡ 0) }
{
    export_plain::begun(Node::fresh(mem, Replica(id), population, quorum))
}

#[tactic(auto, using(crate::proofs::Laws::answers, crate::proofs::Laws::gives_back))]
pub fn bodega_guard(
    node: Plain,
    mem: &mut [u64],
    area: &[u64],
    peer: u8,
    number: u64,
    bar: u64,
) -> PlainAnswered
    ensures { Answers ready view (Guard peer number bar) (node_of node) mem.old area.now (given result) mem.new area.now × GivesBack node result }
{
    let a = call_guard::guard(
        export_plain::node_of(node),
        mem,
        area,
        Replica(peer),
        Ballot(number),
        Slot(bar),
    );
    export_plain::answered(node, a)
}

#[tactic(auto, using(crate::proofs::Laws::answers, crate::proofs::Laws::gives_back))]
pub fn bodega_prepared(node: Plain, mem: &[u64], area: &[u64], ballot: u64) -> PlainAnswered
    ensures { Answers ready view (Prepared ballot) (node_of node) mem.now area.now (given result) mem.now area.now × GivesBack node result }
{
    let a = call_prepared::prepared(export_plain::node_of(node), mem, area, Ballot(ballot));
    export_plain::answered(node, a)
}

#[tactic(auto, using(crate::proofs::Laws::answers, crate::proofs::Laws::gives_back))]
pub fn bodega_bars(
    node: Plain,
    mem: &mut [u64],
    area: &[u64],
    start: u64,
    accept: u64,
    commit: u64,
    exec: u64,
) -> PlainAnswered
    ensures { Answers ready view (Bars start accept commit exec) (node_of node) mem.old area.now (given result) mem.new area.now × GivesBack node result }
{
    let a = call_bars::bars(
        export_plain::node_of(node),
        mem,
        area,
        Slot(start),
        Slot(accept),
        Slot(commit),
        Slot(exec),
    );
    export_plain::answered(node, a)
}

#[tactic(auto, using(crate::proofs::Laws::answers, crate::proofs::Laws::gives_back))]
pub fn bodega_record(
    node: Plain,
    mem: &mut [u64],
    area: &[u64],
    slot: u64,
    ballot: u64,
    rows: &[u64],
    text: &[u8],
) -> PlainAnswered
    ensures { Answers ready view (Record slot ballot (batch_of rows.now text.now)) (node_of node) mem.old area.now (given result) mem.new area.now × GivesBack node result }
{
    let a = call_record::record(
        export_plain::node_of(node),
        mem,
        area,
        Slot(slot),
        Ballot(ballot),
        rows,
        text,
    );
    export_plain::answered(node, a)
}

pub fn bodega_heartbeat(
    node: Plain,
    mem: &mut [u64],
    area: &mut [u64],
    peer: u8,
    ballot: u64,
    attached: bool,
    roster: Roster,
    rows: &[u64],
    commit: u64,
    exec: u64,
    snap: u64,
) -> PlainAnswered
    ensures { Answers (λ n m. ready n m && fitting (then_some attached (conf_of roster)) rows.now) view (Heartbeat peer ballot (carried (then_some attached (conf_of roster)) rows.now) commit exec snap) (node_of node) mem.old area.old (given result) mem.new area.new × GivesBack node result }
{
    let a = call_heartbeat::heartbeat(
        export_plain::node_of(node),
        mem,
        area,
        Replica(peer),
        Ballot(ballot),
        attached.then_some(export_plain::conf_of(roster)),
        rows,
        Slot(commit),
        Slot(exec),
        Slot(snap),
    );
    export_plain::answered(node, a)
}

#[tactic(auto, using(crate::proofs::Laws::answers, crate::proofs::Laws::gives_back))]
pub fn bodega_reply(
    node: Plain,
    mem: &mut [u64],
    area: &mut [u64],
    peer: u8,
    slot: u64,
    ballot: u64,
) -> PlainAnswered
    ensures { Answers ready view (Reply peer slot ballot) (node_of node) mem.old area.old (given result) mem.new area.new × GivesBack node result }
{
    let a = call_reply::reply(
        export_plain::node_of(node),
        mem,
        area,
        Replica(peer),
        Slot(slot),
        Ballot(ballot),
    );
    export_plain::answered(node, a)
}

#[tactic(auto, using(crate::proofs::Laws::answers, crate::proofs::Laws::gives_back))]
pub fn bodega_notice(
    node: Plain,
    mem: &mut [u64],
    area: &mut [u64],
    peer: u8,
    slot: u64,
    ballot: u64,
) -> PlainAnswered
    ensures { Answers ready view (Notice peer slot ballot) (node_of node) mem.old area.old (given result) mem.new area.new × GivesBack node result }
{
    let a = call_notice::notice(
        export_plain::node_of(node),
        mem,
        area,
        Replica(peer),
        Slot(slot),
        Ballot(ballot),
    );
    export_plain::answered(node, a)
}

#[tactic(auto, using(crate::proofs::Laws::answers, crate::proofs::Laws::gives_back))]
pub fn bodega_commit(
    node: Plain,
    mem: &mut [u64],
    area: &mut [u64],
    peer: u8,
    ballot: u64,
    bar: u64,
) -> PlainAnswered
    ensures { Answers ready view (CommitNotice peer ballot bar) (node_of node) mem.old area.old (given result) mem.new area.new × GivesBack node result }
{
    let a = call_commit::commit(
        export_plain::node_of(node),
        mem,
        area,
        Replica(peer),
        Ballot(ballot),
        Slot(bar),
    );
    export_plain::answered(node, a)
}

#[tactic(auto, using(crate::proofs::Laws::answers, crate::proofs::Laws::gives_back))]
pub fn bodega_read(
    node: Plain,
    mem: &mut [u64],
    area: &mut [u64],
    client: u64,
    request: u64,
    leases: u64,
    key: &[u8],
) -> PlainAnswered
    ensures { Answers ready view (Read leases (record { client = client; request = request; key = key.now })) (node_of node) mem.old area.old (given result) mem.new area.new × GivesBack node result }
{
    let a = call_read::read(
        export_plain::node_of(node),
        mem,
        area,
        client,
        request,
        leases,
        key,
    );
    export_plain::answered(node, a)
}

#[tactic(auto, using(crate::proofs::Laws::answers, crate::proofs::Laws::gives_back))]
pub fn bodega_release(node: Plain, mem: &mut [u64], area: &mut [u64], slot: u64) -> PlainAnswered
    ensures { Answers ready view (Release slot) (node_of node) mem.old area.old (given result) mem.new area.new × GivesBack node result }
{
    let a = call_release::release(export_plain::node_of(node), mem, area, Slot(slot));
    export_plain::answered(node, a)
}

pub fn bodega_key(key: &[u8]) -> Key
    ensures { result ≡ key_of (read_key key.now) }
{
    export_roster::key_to_inty(key)
}

// `set_responders` of a roster with no leader and default 0.
pub fn bodega_range(
    rows: &mut [u64],
    count: usize,
    population: u8,
    start: &[u8],
    end: &[u8],
    mask: u64,
) -> Count
    ensures { Counts (SetResponders start.now end.now mask) population count rows.old result rows.new }
{
    export_roster::set_responders(rows, count, population, start, end, mask)
}

// `set_full` of such a roster.
pub fn bodega_whole(rows: &mut [u64], count: usize, population: u8, mask: u64) -> Count
    ensures { Counts (SetFull mask) population count rows.old result rows.new }
{
    export_roster::set_full(rows, count, population, mask)
}

// `into_filtered` of such a roster.
pub fn bodega_drop(rows: &mut [u64], count: usize, population: u8, id: u8) -> Count
    ensures { Counts (IntoFiltered id) population count rows.old result rows.new }
{
    export_roster::into_filtered(rows, count, population, id)
}

// `get_responders_by_key` of a roster with no leader.
pub fn bodega_lookup(rows: &[u64], count: usize, default: u64, key: &[u8]) -> Mask
    ensures { result ≡ mask_of (lookup (plain count default) rows.now key.now) }
{
    export_roster::get_responders_by_key(rows, count, default, key)
}
