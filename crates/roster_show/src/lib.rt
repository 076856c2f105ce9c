// `show`: a roster's ranges ascending, then its default, as items. Rows and area are lent, each by itself.
#![tactic(auto)]

ghost use Rattle.std.specs.Prelude.{◌≡◌, ◌+◌, ◌*◌, ◌≤◌};
ghost use Rattle.words.specs.Writes.{writes};
ghost use Rattle.items.specs.Item.{item_of, encode, places};
ghost use Rattle.roster_map.specs.Rows.{range_of, ranges_of};
ghost use Rattle.roster_show.specs.Show.{span_of, spans_of, Listing, listing};

use ids::Refusal;
use items::{Item, Items};
use roster_conf::RespondersConf;
use roster_map::{RangeMap, Row};

fn span(row: Row) -> Item
    ensures { item_of result ≡ span_of (range_of row) }
{
    Item::Span {
        start: row.start,
        end: row.end,
        mask: row.mask,
    }
}

#[tactic(auto, using(crate::proofs::Listing::no_span))]
fn put_spans(map: RangeMap<'_>, items: &mut Items<'_>)
    requires { items.old.count + map.count ≤ places items.old.area.now }
    ensures same_reference { items.new.area.ghost_name ≡ items.old.area.ghost_name }
    ensures counted { items.new.count ≡ items.old.count + map.entry.count }
    ensures put { items.new.area.now ≡ writes items.old.area.now (items.old.count * 6) (encode (spans_of (ranges_of map.entry.rows.now map.entry.count))) }
{
    for i in 0..map.count {
        items.push(span(roster_map::get_row(map.rows, i)));
    }
}

// 2, 20, or the number of the items.
#[tactic(auto, using(crate::proofs::Listing::show_2, crate::proofs::Listing::show_20))]
pub fn show(conf: RespondersConf, rows: &[u64], area: &mut [u64]) -> Result<usize, Refusal>
    ensures { ◌≡◌ {A = Listing} (record { answer = result; area = area.new }) (listing conf rows.now area.old) }
{
    if !roster_conf::is_whole(rows.len(), conf.count) {
        return Err(Refusal::NotReady);
    }
    items::has_room(area, conf.count + 1)?;
    let map = RangeMap {
        rows,
        count: conf.count,
    };
    let mut items = Items { area, count: 0 };
    put_spans(map, &mut items);
    items.push(Item::Rest(conf.default));
    Ok(items.count)
}
