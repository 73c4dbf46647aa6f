// Tables that a peer names, in its cluster and at the destination.
ghost use Rattle.std.specs.Prelude.{◌≡◌};
ghost use Rattle.std.specs.List.{list_any};
ghost use Rattle.std.specs.Str.{bytes_eq};
ghost use Rattle.rep_model.specs.Keyed.{if_some};
ghost use Rattle.peer_events.specs.Tables.{families_of, families_lack, lacks_table, table_lacks_family};

use region_meta::RegionMap;
use rep_types::{Families, Name, Names};

fn has_family(families: &Families, name: &Name) -> bool
    ensures { result ≡ list_any (λ g. bytes_eq g.name name.now) families.now }
{
    families
        .as_slice()
        .iter()
        .any(|family| family.name == *name)
}

// Whether a family of scope 1 at the source isn't at the destination.
fn families_lack(from: &Families, to: &Families) -> bool
    ensures { result ≡ families_lack from.now to.now }
{
    from.as_slice().iter().any(|family| family.scope == 1 && !has_family(to, &family.name))
}

// Whether the table stands in one cluster only, or in none.
fn lacks_table(map: &RegionMap, beside: &RegionMap, table: &Name) -> bool
    ensures { result ≡ lacks_table map.now beside.now table.now }
{
    map.families(table).is_none() || beside.families(table).is_none()
}

#[tactic(auto, unfolding(rep_model::specs::Keyed::given))]
fn lacks_family_of(from: &Families, beside: &RegionMap, table: &Name) -> bool
    ensures { result ≡ if_some (families_of table.now beside.now) (families_lack from.now) }
{
    match beside.families(table) {
        Some(to) => families_lack(from, to),
        None => false,
    }
}

#[tactic(auto, unfolding(rep_model::specs::Keyed::given))]
fn table_lacks_family(map: &RegionMap, beside: &RegionMap, table: &Name) -> bool
    ensures { result ≡ table_lacks_family map.now beside.now table.now }
{
    match map.families(table) {
        Some(from) => lacks_family_of(from, beside, table),
        None => false,
    }
}

/// Whether some table doesn't stand in both clusters.
pub fn lack_tables(map: &RegionMap, beside: &RegionMap, tables: &Names) -> bool
    ensures { result ≡ list_any (lacks_table map.now beside.now) tables.now }
{
    tables
        .as_slice()
        .iter()
        .any(|table| lacks_table(map, beside, table))
}

/// Whether some table has a family of scope 1 that the other cluster's doesn't have.
pub fn lack_families(map: &RegionMap, beside: &RegionMap, tables: &Names) -> bool
    ensures { result ≡ list_any (table_lacks_family map.now beside.now) tables.now }
{
    tables
        .as_slice()
        .iter()
        .any(|table| table_lacks_family(map, beside, table))
}
