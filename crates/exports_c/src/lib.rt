// The archive that Rust and C link: the functions of crate exports under their C names, each with its clauses again.
// Arguments are numbers, flags, slices and plain structs, since the C interface has no others.
#![tactic(auto)]

ghost use Rattle.std.specs.Prelude.{◌≡◌, ◌&&◌};
ghost use Rattle.std.specs.Bool.{then_some};
ghost use Rattle.bodega.specs.Replica.{Guard, Prepared, Bars, Record, Heartbeat, Reply, Notice, CommitNotice, Read, Release};
ghost use Rattle.req_batch.specs.Given.{given as batch_of};
ghost use Rattle.call_heartbeat.specs.Heartbeat.{fitting, carried};
ghost use Rattle.bodega.specs.Answers.{Answers};
ghost use Rattle.node.specs.View.{view, ready};
ghost use Rattle.keys.specs.Read.{read_key};
ghost use Rattle.roster_conf.specs.Edit.{SetResponders, SetFull, IntoFiltered};
ghost use Rattle.roster_conf.specs.Edits.{lookup};
ghost use Rattle.export_roster.specs.Numbers.{key_of, plain, Counts, mask_of};
ghost use Rattle.export_plain.specs.Plain.{node_of, conf_of, given, no_node, Begins, GivesBack};

use export_plain::{Plain, PlainAnswered, Roster};
use export_roster::{Count, Key, Mask};

#[unsafe(no_mangle)]
pub extern "C" fn bodega_fresh(mem: &mut [u64], id: u8, population: u8, quorum: u8) -> PlainAnswered
    ensures { Begins id population quorum mem.old result mem.new × GivesBack no_node result × (result.count ≡ 0) }
{
    exports::bodega_fresh(mem, id, population, quorum)
}

#[unsafe(no_mangle)]
pub extern "C" fn bodega_guard(
    node: Plain,
    mem: &mut [u64],
    area: &[u64],
    peer: u8,
    number: u64,
    bar: u64,
) -> PlainAnswered
    ensures { Answers ready view (Guard peer number bar) (node_of node) mem.old area.now (given result) mem.new area.now × GivesBack node result }
{
    exports::bodega_guard(node, mem, area, peer, number, bar)
}

#[unsafe(no_mangle)]
pub extern "C" fn bodega_prepared(
    node: Plain,
    mem: &[u64],
    area: &[u64],
    ballot: u64,
) -> PlainAnswered
    ensures { Answers ready view (Prepared ballot) (node_of node) mem.now area.now (given result) mem.now area.now × GivesBack node result }
{
    exports::bodega_prepared(node, mem, area, ballot)
}

#[unsafe(no_mangle)]
pub extern "C" fn bodega_bars(
    node: Plain,
    mem: &mut [u64],
    area: &[u64],
    start: u64,
    accept: u64,
    commit: u64,
    exec: u64,
) -> PlainAnswered
    ensures { Answers ready view (Bars start accept commit exec) (node_of node) mem.old area.now (given result) mem.new area.now × GivesBack node result }
{
    exports::bodega_bars(node, mem, area, start, accept, commit, exec)
}

#[unsafe(no_mangle)]
pub extern "C" fn bodega_record(
    node: Plain,
    mem: &mut [u64],
    area: &[u64],
    slot: u64,
    ballot: u64,
    rows: &[u64],
    text: &[u8],
) -> PlainAnswered
    ensures { Answers ready view (Record slot ballot (batch_of rows.now text.now)) (node_of node) mem.old area.now (given result) mem.new area.now × GivesBack node result }
{
    exports::bodega_record(node, mem, area, slot, ballot, rows, text)
}

#[unsafe(no_mangle)]
pub extern "C" fn bodega_heartbeat(
    node: Plain,
    mem: &mut [u64],
    area: &mut [u64],
    peer: u8,
    ballot: u64,
    attached: bool,
    roster: Roster,
    rows: &[u64],
    commit: u64,
    exec: u64,
    snap: u64,
) -> PlainAnswered
    ensures { Answers (λ n m. ready n m && fitting (then_some attached (conf_of roster)) rows.now) view (Heartbeat peer ballot (carried (then_some attached (conf_of roster)) rows.now) commit exec snap) (node_of node) mem.old area.old (given result) mem.new area.new × GivesBack node result }
{
    exports::bodega_heartbeat(
        node, mem, area, peer, ballot, attached, roster, rows, commit, exec, snap,
    )
}

#[unsafe(no_mangle)]
pub extern "C" fn bodega_reply(
    node: Plain,
    mem: &mut [u64],
    area: &mut [u64],
    peer: u8,
    slot: u64,
    ballot: u64,
) -> PlainAnswered
    ensures { Answers ready view (Reply peer slot ballot) (node_of node) mem.old area.old (given result) mem.new area.new × GivesBack node result }
{
    exports::bodega_reply(node, mem, area, peer, slot, ballot)
}

#[unsafe(no_mangle)]
pub extern "C" fn bodega_notice(
    node: Plain,
    mem: &mut [u64],
    area: &mut [u64],
    peer: u8,
    slot: u64,
    ballot: u64,
) -> PlainAnswered
    ensures { Answers ready view (Notice peer slot ballot) (node_of node) mem.old area.old (given result) mem.new area.new × GivesBack node result }
{
    exports::bodega_notice(node, mem, area, peer, slot, ballot)
}

#[unsafe(no_mangle)]
pub extern "C" fn bodega_commit(
    node: Plain,
    mem: &mut [u64],
    area: &mut [u64],
    peer: u8,
    ballot: u64,
    bar: u64,
) -> PlainAnswered
    ensures { Answers ready view (CommitNotice peer ballot bar) (node_of node) mem.old area.old (given result) mem.new area.new × GivesBack node result }
{
    exports::bodega_commit(node, mem, area, peer, ballot, bar)
}

#[unsafe(no_mangle)]
pub extern "C" fn bodega_read(
    node: Plain,
    mem: &mut [u64],
    area: &mut [u64],
    client: u64,
    request: u64,
    leases: u64,
    key: &[u8],
) -> PlainAnswered
    ensures { Answers ready view (Read leases (record { client = client; request = request; key = key.now })) (node_of node) mem.old area.old (given result) mem.new area.new × GivesBack node result }
{
    exports::bodega_read(node, mem, area, client, request, leases, key)
}

#[unsafe(no_mangle)]
pub extern "C" fn bodega_release(
    node: Plain,
    mem: &mut [u64],
    area: &mut [u64],
    slot: u64,
) -> PlainAnswered
    ensures { Answers ready view (Release slot) (node_of node) mem.old area.old (given result) mem.new area.new × GivesBack node result }
{
    exports::bodega_release(node, mem, area, slot)
}

#[unsafe(no_mangle)]
pub extern "C" fn bodega_key(key: &[u8]) -> Key
    ensures { result ≡ key_of (read_key key.now) }
{
    exports::bodega_key(key)
}

// `set_responders` of a roster with no leader and default 0.
#[unsafe(no_mangle)]
pub extern "C" fn bodega_range(
    rows: &mut [u64],
    count: usize,
    population: u8,
    start: &[u8],
    end: &[u8],
    mask: u64,
) -> Count
    ensures { Counts (SetResponders start.now end.now mask) population count rows.old result rows.new }
{
    exports::bodega_range(rows, count, population, start, end, mask)
}

// `set_full` of such a roster.
#[unsafe(no_mangle)]
pub extern "C" fn bodega_whole(rows: &mut [u64], count: usize, population: u8, mask: u64) -> Count
    ensures { Counts (SetFull mask) population count rows.old result rows.new }
{
    exports::bodega_whole(rows, count, population, mask)
}

// `into_filtered` of such a roster.
#[unsafe(no_mangle)]
pub extern "C" fn bodega_drop(rows: &mut [u64], count: usize, population: u8, id: u8) -> Count
    ensures { Counts (IntoFiltered id) population count rows.old result rows.new }
{
    exports::bodega_drop(rows, count, population, id)
}

// `get_responders_by_key` of a roster with no leader.
#[unsafe(no_mangle)]
pub extern "C" fn bodega_lookup(rows: &[u64], count: usize, default: u64, key: &[u8]) -> Mask
    ensures { result ≡ mask_of (lookup (plain count default) rows.now key.now) }
{
    exports::bodega_lookup(rows, count, default, key)
}
