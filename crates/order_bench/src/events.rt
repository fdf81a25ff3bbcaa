//! Made-up events, before and after some of them were touched.
ghost use Rattle.std.specs.Prelude.{◌≡◌, [], ◌∷◌, IfOk, true, false};
ghost use Rattle.spec_queries.specs.declared.comparator.Property.TheVariants.{Start, Title};

use query_order::order::Order;
use spec_json::text::Text;
use spec_queries::comparator::{Comparator, Property};
use spec_queries::item::Item;
use std::alloc::{AllocError, Global};

/// How many different titles there are.
const TITLES: u64 = 500;

/// How many different starts there are, in seconds.
const STARTS: u64 = 1_000_000;

/// Events before and after, the numbers of those that were touched, and the order by start and title.
#[derive(Drop)]
pub struct Events {
    pub before: Vec<Item>,
    pub after: Vec<Item>,
    pub touched: Vec<u64>,
    pub order: Order,
}

impl Events {
    /// So many events, of which some get another start and title. The touched ones lie scattered over the whole list.
    pub fn made_up(alloc: Global, count: u32, touched: u32) -> Result<Events, AllocError> {
        let touched = touched_of(alloc, count, touched)?;
        let before = items(alloc, count)?;
        let mut after = items(alloc, count)?;
        for place in &touched {
            if let Some(item) = after.get_mut(*place as usize) {
                *item = made_up_item(alloc, *place, 2)?;
            }
        }
        Ok(Events {
            before,
            after,
            touched,
            order: by_start_and_title(alloc)?,
        })
    }
}

/// A number that looks like chance, by one step of a linear congruential generator.
fn scattered(number: u64, seed: u64) -> u64 {
    number
        .wrapping_mul(6_364_136_223_846_793_005)
        .wrapping_add(seed.wrapping_mul(1_442_695_040_888_963_407))
        >> 33
}

fn touched_of(alloc: Global, count: u32, touched: u32) -> Result<Vec<u64>, AllocError> {
    let mut places = Vec::new(alloc);
    for turn in 0..touched {
        places.push(scattered(u64::from(turn), 3) % u64::from(count).max(1))?;
    }
    Ok(places)
}

fn items(alloc: Global, count: u32) -> Result<Vec<Item>, AllocError> {
    let mut items = Vec::new(alloc);
    for place in 0..count {
        items.push(made_up_item(alloc, u64::from(place), 1)?)?;
    }
    Ok(items)
}

fn made_up_item(alloc: Global, place: u64, seed: u64) -> Result<Item, AllocError> {
    let start = (scattered(place, seed) % STARTS) as i64;
    Ok(Item {
        start: start - start % 3600,
        uid: Text::from_string(format!(in alloc; "event-{place}@example.com")?)?,
        title: made_up_title(alloc, scattered(place, seed.wrapping_add(10)) % TITLES)?,
        created: start,
        updated: start,
    })
}

fn made_up_title(alloc: Global, number: u64) -> Result<Text, AllocError> {
    Text::from_string(format!(in alloc; "Weekly meeting of the group {number}")?)
}

// By start, and those of one start by title, the last first.
fn by_start_and_title(alloc: Global) -> Result<Order, AllocError>
    ensures { IfOk result (λ order. order ≡ record { property = Start; ascending = true } ∷ record { property = Title; ascending = false } ∷ []) }
{
    let start = Comparator {
        property: Property::Start,
        ascending: true,
    };
    let title = Comparator {
        property: Property::Title,
        ascending: false,
    };
    Ok(Order::new(vec![in alloc; start, title]?))
}
