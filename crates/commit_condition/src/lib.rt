// `commit_condition` of localread.rs: whether a slot's acks let its batch commit. The roster's rows are lent beside its
// short part (roster_conf), so each function asks that they hold it.
#![tactic(auto)]

ghost use Rattle.std.specs.Prelude.{◌≡◌, ◌<◌, ◌≤◌, length};
ghost use Rattle.layout.specs.Layout.{roster_words};
ghost use Rattle.key_words.specs.Key.{bytes_of};
ghost use Rattle.inst_reqs.specs.Batch.{request_of, requests_of};
ghost use Rattle.bodega.specs.Localread.{acked, commit_condition};
ghost use Rattle.roster_conf.specs.Conf.{get_responders_by_key};
ghost use Rattle.roster_conf.specs.Edits.{view};
ghost use Rattle.commit_condition.specs.Acked.{write_acked};

use inst_reqs::{Batch, Command, Request};
use key_words::Key;
use roster_conf::RespondersConf;

// The roster of a key in seven words. Words that are no bytes' do not read, and have none. The bytes go to a fixed
// array, since there is no heap.
fn responders_by_key(key: Key, conf: RespondersConf, rows: &[u64]) -> Option<u64>
    requires { (roster_words ≤ length rows.now) × (conf.count ≤ 64) }
    ensures { result ≡ get_responders_by_key (view conf rows.now) (bytes_of key) }
{
    let mut text = [0; keys::KEY_BYTES];
    let n = key_words::unpack(key, &mut text)?;
    conf.get_responders_by_key(rows, &text[..n]).unwrap_or(None)
}

// Every responder of a written key has acked; a key that does not read asks nothing.
fn write_acked(acks: u64, key: Key, conf: RespondersConf, rows: &[u64]) -> bool
    requires { (roster_words ≤ length rows.now) × (conf.count ≤ 64) }
    ensures { result ≡ write_acked (view conf rows.now) acks (bytes_of key) }
{
    responders_by_key(key, conf, rows).is_none_or(|mask| bitmap::is_superset(acks, mask))
}

// The same of a request; a Get asks nothing.
fn acked(acks: u64, q: Request, conf: RespondersConf, rows: &[u64]) -> bool
    requires { (roster_words ≤ length rows.now) × (conf.count ≤ 64) }
    ensures { result ≡ acked (view conf rows.now) acks (request_of q) }
{
    match q.command {
        Command::Get => true,
        Command::Put(_) => write_acked(acks, q.key, conf, rows),
    }
}

// The acks reach the quorum, and hold every responder of each written key that reads. An empty batch asks for the
// quorum only.
pub fn commit_condition(
    acks: u64,
    batch: Batch<'_>,
    quorum: u8,
    conf: RespondersConf,
    rows: &[u64],
) -> bool
    requires { (roster_words ≤ length rows.now) × (conf.count ≤ 64) }
    ensures { result ≡ commit_condition acks (requests_of batch.entry.words.now) quorum (view conf rows.now) }
{
    u64::from(quorum) <= bitmap::count(acks) && batch.iter().all(|q| acked(acks, q, conf, rows))
}
