// Where regions are.
ghost use Rattle.std.specs.Prelude.{◌≡◌};
ghost use Rattle.rep_types.specs.Range.{is_from, is_below, begins_below};
ghost use Rattle.rep_model.specs.Regions.{holds, overlap};
ghost use Rattle.rep_model.specs.Places.{is_off, is_gone, opens_at, on_at, serves};

use rep_model::{Hosted, Region};
use rep_types::{Key, Name, PlaceOf, ServerId};

fn is_from(low: &Option<Key>, row: &Key) -> bool
    ensures { result ≡ is_from low.now row.now }
{
    match low {
        None => true,
        Some(low) => !row.cmp(low).is_lt(),
    }
}

pub fn is_below(row: &Key, high: &Option<Key>) -> bool
    ensures { result ≡ is_below row.now high.now }
{
    match high {
        None => true,
        Some(high) => row.cmp(high).is_lt(),
    }
}

/// Whether the region is of the table of this name and holds the row.
pub fn holds(region: &Region, table: &Name, row: &Key) -> bool
    ensures { result ≡ holds table.now row.now region.now }
{
    region.table.name == *table && is_from(&region.low, row) && is_below(row, &region.high)
}

fn begins_below(low: &Option<Key>, high: &Option<Key>) -> bool
    ensures { result ≡ begins_below low.now high.now }
{
    match low {
        None => true,
        Some(low) => is_below(low, high),
    }
}

/// Whether they are of one table and some key is held by both.
pub fn overlap(region: &Region, other: &Region) -> bool
    ensures { result ≡ overlap region.now other.now }
{
    region.table.name == other.table.name
        && begins_below(&region.low, &other.high)
        && begins_below(&other.low, &region.high)
}

pub fn is_off(place: &PlaceOf) -> bool
    ensures { result ≡ is_off place.now }
{
    matches!(place, PlaceOf::Off)
}

pub fn is_gone(place: &PlaceOf) -> bool
    ensures { result ≡ is_gone place.now }
{
    matches!(place, PlaceOf::Gone)
}

pub fn opens_at(place: &PlaceOf) -> Option<ServerId>
    ensures { result ≡ opens_at place.now }
{
    match place {
        PlaceOf::Opening(server) => Some(*server),
        _ => None,
    }
}

pub fn on_at(place: &PlaceOf) -> Option<ServerId>
    ensures { result ≡ on_at place.now }
{
    match place {
        PlaceOf::On(server) => Some(*server),
        _ => None,
    }
}

pub fn serves(hosted: &Hosted, table: &Name, row: &Key) -> bool
    ensures { result ≡ serves table.now row.now hosted.now }
{
    holds(&hosted.region, table, row) && !is_gone(&hosted.place)
}
