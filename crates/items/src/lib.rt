// The items of a call, in a lent answer area: six words each, the kind first.
#![tactic(auto)]

ghost use Rattle.std.specs.Prelude.{◌≡◌, ◌+◌, ◌%◌, option_map, slice_index, if◌then◌else◌};
ghost use Rattle.items.specs.Item.{item_of, item_words, places};
ghost use Rattle.items.specs.Area.{Put, put_item, put_answer, HasRoom, item_at, named, decode};

use ids::{Ballot, Refusal, Replica, Slot};
use inty::Inty;

// Words of an item.
const WORDS: usize = 6;

#[derive(Clone, Copy)]
pub enum Item {
    Value {
        client: u64,
        request: u64,
        value: u64,
    },
    Absent {
        client: u64,
        request: u64,
    },
    Store {
        client: u64,
        request: u64,
    },
    Pass {
        client: u64,
        request: u64,
    },
    Hold {
        client: u64,
        request: u64,
        slot: Slot,
    },
    Retry {
        client: u64,
        request: u64,
        leader: Option<Replica>,
    },
    Resend {
        slot: Slot,
        peer: Replica,
    },
    Commit(Slot),
    Lead(bool),
    Prelog(Slot),
    Prepare {
        slot: Slot,
        ballot: Ballot,
    },
    Span {
        start: Inty,
        end: Inty,
        mask: u64,
    },
    Rest(u64),
}

// The kinds are numbers written out: those that a host in C reads in the area.
fn words_of(item: Item) -> [u64; WORDS]
    ensures { result ≡ item_words (item_of item) }
{
    match item {
        Item::Value {
            client,
            request,
            value,
        } => [1, client, request, value, 0, 0],
        Item::Absent { client, request } => [2, client, request, 0, 0, 0],
        Item::Store { client, request } => [3, client, request, 0, 0, 0],
        Item::Pass { client, request } => [4, client, request, 0, 0, 0],
        Item::Hold {
            client,
            request,
            slot,
        } => [5, client, request, slot.0, 0, 0],
        Item::Retry {
            client,
            request,
            leader: None,
        } => [6, client, request, 0, 0, 0],
        Item::Retry {
            client,
            request,
            leader: Some(id),
        } => [6, client, request, 1, u64::from(id.0), 0],
        Item::Resend { slot, peer } => [7, slot.0, u64::from(peer.0), 0, 0, 0],
        Item::Commit(slot) => [8, slot.0, 0, 0, 0, 0],
        Item::Lead(leads) => [9, u64::from(leads), 0, 0, 0, 0],
        Item::Prelog(slot) => [10, slot.0, 0, 0, 0, 0],
        Item::Prepare { slot, ballot } => [11, slot.0, ballot.0, 0, 0, 0],
        Item::Span { start, end, mask } => [12, start.hi, start.lo, end.hi, end.lo, mask],
        Item::Rest(mask) => [13, mask, 0, 0, 0, 0],
    }
}

// A replica in a word, read as a byte.
fn replica_in(word: u64) -> Replica
    ensures { result.0 ≡ word % 256 }
{
    Replica((word % 256) as u8)
}

// The only item that the words can be. The kinds are the numbers that a host in C reads in the area. No `From`: only
// `decoded` says whether the words are the item's.
#[tactic(auto, unfolding(crate::specs::Area::named))]
fn item_named(words: [u64; WORDS]) -> Item
    ensures { item_of result
        ≡ named (slice_index words 0) (slice_index words 1) (slice_index words 2) (slice_index words 3) (slice_index words 4) (slice_index words 5) }
{
    match words {
        [1, client, request, value, ..] => Item::Value {
            client,
            request,
            value,
        },
        [2, client, request, ..] => Item::Absent { client, request },
        [3, client, request, ..] => Item::Store { client, request },
        [4, client, request, ..] => Item::Pass { client, request },
        [5, client, request, slot, ..] => Item::Hold {
            client,
            request,
            slot: Slot(slot),
        },
        [6, client, request, 0, ..] => Item::Retry {
            client,
            request,
            leader: None,
        },
        [6, client, request, _, id, _] => Item::Retry {
            client,
            request,
            leader: Some(replica_in(id)),
        },
        [7, slot, peer, ..] => Item::Resend {
            slot: Slot(slot),
            peer: replica_in(peer),
        },
        [8, slot, ..] => Item::Commit(Slot(slot)),
        [9, leads, ..] => Item::Lead(leads == 1),
        [10, slot, ..] => Item::Prelog(Slot(slot)),
        [11, slot, ballot, ..] => Item::Prepare {
            slot: Slot(slot),
            ballot: Ballot(ballot),
        },
        [12, start_hi, start_lo, end_hi, end_lo, mask] => Item::Span {
            start: Inty {
                hi: start_hi,
                lo: start_lo,
            },
            end: Inty {
                hi: end_hi,
                lo: end_lo,
            },
            mask,
        },
        [_, mask, ..] => Item::Rest(mask),
    }
}

#[tactic(auto, unfolding(crate::specs::Area::decode))]
fn decoded(words: [u64; WORDS]) -> Option<Item>
    ensures { option_map item_of result ≡ decode words }
{
    let item = item_named(words);
    (words_of(item) == words).then_some(item)
}

// How many places an area has.
pub fn places(area: &[u64]) -> usize
    ensures { result ≡ places area.now }
{
    area.len() / WORDS
}

// 20 where an area has fewer places than items are to be sent; their number is no length of the area.
pub fn has_room(area: &[u64], count: usize) -> Result<(), Refusal>
    ensures { HasRoom area.now count result }
{
    if places(area) < count {
        return Err(Refusal::AreaTooSmall);
    }
    Ok(())
}

// 20, and the area as it was, where it has no such place.
#[tactic(auto, unfolding(crate::specs::Area::put_item))]
pub fn put_item(area: &mut [u64], place: usize, item: Item) -> Result<(), Refusal>
    ensures answers { result ≡ put_answer (put_item area.old place (item_of item)) }
    ensures put { area.new ≡ (put_item area.old place (item_of item)).area }
{
    if places(area) <= place {
        return Err(Refusal::AreaTooSmall);
    }
    let p = place * WORDS;
    area[p..p + WORDS].copy_from_slice(&words_of(item));
    Ok(())
}

// Items put into a lent area one after the other, from its first place on or after those that stand there. No part of
// a struct over the slots' words: an answer area is the call's, those words are the node's.
#[derive(Drop)]
pub struct Items<'a> {
    pub area: &'a mut [u64],
    // Places that are taken: a number, since the area is lent (no heap).
    pub count: usize,
}

impl<'a> Items<'a> {
    // False, and nothing changed, where no place is left. No `Result`: a call counts its items first.
    #[tactic(auto, unfolding(crate::specs::Area::put_item))]
    pub fn push(&mut self, item: Item) -> bool
        ensures same_reference { self.new.area.ghost_name ≡ self.old.area.ghost_name }
        ensures put { ◌≡◌ {A = Put} (record { taken = result; area = self.new.area.now }) (put_item self.old.area.now self.old.count (item_of item)) }
        ensures counted { self.new.count ≡ self.old.count + (if result then 1 else 0) }
    {
        let taken = put_item(self.area, self.count, item).is_ok();
        if taken {
            self.count += 1;
        }
        taken
    }
}

// Nothing where the area has no such place, or its words are no item's.
#[tactic(auto, unfolding(crate::specs::Area::item_at))]
pub fn get_item(area: &[u64], place: usize) -> Option<Item>
    ensures { option_map item_of result ≡ item_at area.now place }
{
    let (places, _) = area.as_chunks();
    decoded(*places.get(place)?)
}
