// Which region holds a row, and which keys split a region or lie between two.
ghost use Rattle.std.specs.Prelude.{◌≡◌};
ghost use Rattle.rep_types.specs.Range.{is_from, is_below};
ghost use Rattle.region_meta.specs.Refusals.{low_below, splits, same_key, is_adjacent};

use crate::Region;
use rep_types::Key;

pub fn is_from(low: &Option<Key>, row: &Key) -> bool
    ensures { result ≡ is_from low.now row.now }
{
    match low {
        Some(low) => !row.cmp(low).is_lt(),
        None => true,
    }
}

fn is_below(key: &Key, high: &Option<Key>) -> bool
    ensures { result ≡ is_below key.now high.now }
{
    match high {
        Some(high) => key.cmp(high).is_lt(),
        None => true,
    }
}

fn low_below(low: &Option<Key>, key: &Key) -> bool
    ensures { result ≡ low_below low.now key.now }
{
    match low {
        Some(low) => low.cmp(key).is_lt(),
        None => true,
    }
}

pub fn splits(key: &Key, region: &Region) -> bool
    ensures { result ≡ splits key.now region.now }
{
    key.as_str() != "." && (low_below(&region.low, key) && is_below(key, &region.high))
}

fn same_key(one: &Option<Key>, other: &Option<Key>) -> bool
    ensures { result ≡ same_key one.now other.now }
{
    match one {
        Some(one) => match other {
            Some(other) => one == other,
            None => false,
        },
        None => false,
    }
}

pub fn is_adjacent(low: &Region, high: &Region) -> bool
    ensures { result ≡ is_adjacent low.now high.now }
{
    low.table == high.table && same_key(&low.high, &high.low)
}
