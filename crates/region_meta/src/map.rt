ghost use Rattle.std.specs.Prelude.{◌≡◌, ℕ, ◌+◌, ◌<◌, ◌↔◌, [], ◌∷◌, ◌++◌, true, None, Some, Ok, Err, IsOk, IsTrue, if◌then◌else◌, IsNone, IsSome, IfSome, IfOk, OnOk, OnErr, IsOkUnless, find, position, is_some, length, string_bytes};
ghost use Rattle.std.specs.Option.{option_copied, option_map};
ghost use Rattle.region_meta.specs.Regions.{Map, table_of, region_of, is_named, serves, if_some};
ghost use Rattle.region_meta.specs.Refusals.{table_refusal, too_many};
ghost use Rattle.region_meta.specs.Changes.{next_number, new_table, table_added, placed};
ghost use Rattle.region_meta.specs.Orders.{listed};
ghost use Rattle.region_meta.specs.declared.error.MetaError.{MetaError};
ghost use Rattle.region_meta.specs.declared.error.MetaError.TheVariants as error;

use crate::order::Order;
use crate::region::{first_region, next_place};
use crate::{MetaError, Region};
use indexmap::IndexMap;
use rep_types::{Families, Items, Key, Memory, Name, PlaceOf, RegionId};
use std::alloc::Global;
use std::marker::Model;

/// The tables and regions of one cluster, in order of creation; regions are numbered from 1. In each
/// table exactly one region that isn't Gone holds each key.
#[derive(Drop)]
pub struct RegionMap {
    pub(crate) names: IndexMap<String, Families>,
    pub(crate) regions: Items<Region>,
    /// Of each table, in the order of the names.
    pub(crate) orders: Items<Order>,
}

impl Model for RegionMap {
    ghost use Rattle.std.specs.Prelude.{map};
    ghost use Rattle.region_meta.specs.Regions.{Map};
    ghost use Rattle.region_meta.specs.Orders.{listed, shape, IsKept};

    ghost Value = { Map };

    ghost view = { λ m. record { tables = listed m.names.entries; regions = m.regions } };

    ghost invariant = { λ m. IsKept (listed m.names.entries) (map shape m.regions) m.orders };
}

impl RegionMap {
    /// No table yet.
    pub fn new(alloc: Global) -> Result<RegionMap, Memory>
        ensures { result ≡ Ok (record { tables = []; regions = [] }) }
    {
        Ok(RegionMap {
            names: IndexMap::new(alloc),
            regions: Items::new(alloc),
            orders: Items::new(alloc),
        })
    }

    /// The families of a table.
    pub fn families(&self, table: &Name) -> Option<&Families>
        ensures { option_copied result ≡ option_map (λ t. t.families) (table_of table.now self.now) }
    {
        self.names.get(table.as_str())
    }

    /// The table's place among the names.
    pub(crate) fn table_at(&self, table: &Name) -> Option<usize>
        ensures at { result ≡ position (is_named table.now) self.now.tables }
        ensures found { is_some result ≡ is_some (table_of table.now self.now) }
    {
        self.names.get_index_of(table.as_str())
    }

    /// The regions, in the order of their numbers.
    pub fn regions(&self) -> &[Region]
        ensures { result.now ≡ self.now.regions }
    {
        self.regions.as_slice()
    }

    /// The region of a number.
    pub fn region(&self, region: RegionId) -> Option<&Region>
        ensures found { option_copied result ≡ region_of region self.now }
        ensures number { IfSome result (λ r. r.now.number ≡ region) }
    {
        self.regions.get(region.number() as usize - 1)
    }

    /// Where a region is; none where it isn't there.
    #[tactic(auto, unfolding(crate::specs::Regions::given))]
    pub fn place(&self, region: RegionId) -> Option<PlaceOf>
        ensures { result ≡ option_map (λ r. r.place) (region_of region self.now) }
    {
        match self.region(region) {
            Some(region) => Some(region.place),
            None => None,
        }
    }

    /// The region of the table that isn't Gone and holds the row; none where the table isn't there.
    pub fn locate(&self, table: &Name, row: &Key) -> Option<RegionId>
        // in each table exactly one region that isn't Gone holds each key
        ensures found { (n : ℕ) → (result ≡ Some n) ↔ IsTrue (if_some (region_of n self.now) (serves table.now row.now)) }
        ensures none { IsNone result ↔ IsNone (table_of table.now self.now) }
        ensures first { result ≡ option_map (λ r. r.number) (find (serves table.now row.now) self.now.regions) }
    {
        let orders = &self.orders;
        let Some(at) = self.table_at(table) else {
            return None;
        };
        let Some(order) = orders.get(at) else {
            return None;
        };
        order.holder(&self.regions, row)
    }

    /// What `add_table` would answer, apart from memory.
    pub fn may_add_table(&self, table: &Name, _families: &Families) -> Result<(), MetaError>
        ensures refused { IfSome (table_refusal table.now self.now) (λ why. result ≡ Err why) }
        ensures accepted { table_refusal table.now self.now ≡ None → IsOk result }
    {
        if self.table_at(table).is_some() {
            return Err(MetaError::Exists);
        }
        self.room_for(1)
    }

    /// Whether so many more regions don't pass 4,096.
    pub(crate) fn room_for(&self, more: usize) -> Result<(), MetaError>
        requires { more < 3 }
        ensures { result ≡ (if too_many more self.now then Err (error.TooMany 4096) else Ok tt) }
    {
        if self.regions.len() + more > 4096 {
            Err(MetaError::TooMany { limit: 4096 })
        } else {
            Ok(())
        }
    }

    /// Adds a table, and its first region for all keys, which is Off. Exists, then TooMany come
    /// before memory is taken; an error changes nothing.
    pub fn add_table(
        &mut self,
        alloc: Global,
        table: Name,
        families: Families,
    ) -> Result<RegionId, MetaError>
        ensures number { IfOk result (λ number. number ≡ next_number self.old) }
        ensures added { OnOk result (self.new ≡ table_added table families self.old) }
        ensures refused { IfSome (table_refusal table self.old) (λ why. result ≡ Err why) }
        ensures accepted { table_refusal table self.old ≡ None → IsOkUnless result error.Memory }
        ensures err { OnErr result (self.new ≡ self.old) }
    {
        self.may_add_table(&table, &families)?;
        let count = self.regions.len();
        let Some(number) = RegionId::new(count as u32 + 1) else {
            return Err(MetaError::TooMany { limit: 4096 });
        };
        let name = text_of(alloc, &table)?;
        let order = Order::new(alloc, count)?;
        add_all(
            &mut self.names,
            &mut self.regions,
            &mut self.orders,
            NewTable {
                name,
                families,
                region: first_region(alloc, number, table),
                order,
            },
        )?;
        Ok(number)
    }

    /// Sets the place of a region that is there. What is Gone stays so, and nothing is made Gone
    /// here: that is left to `split` and `merge`.
    pub fn set_place(&mut self, region: RegionId, place: PlaceOf)
        requires { IsSome (region_of region self.old) }
        ensures { self.new ≡ placed region place self.old }
    {
        let region = self.regions.at_mut(region.number() as usize - 1);
        region.place = next_place(&region.place, &place);
    }
}

fn text_of(alloc: Global, name: &Name) -> Result<String, Memory>
    ensures { IfOk result (λ text. string_bytes text ≡ name.now) }
{
    let text = String::from_str(alloc, name.as_str())?;
    Ok(text)
}

// Adds a name that isn't there.
fn add_name(
    names: &mut IndexMap<String, Families>,
    name: String,
    families: Families,
) -> Result<(), Memory>
    requires absent { position (is_named (string_bytes name)) (listed names.old.entries) ≡ None }
    ensures ok { OnOk result (listed names.new.entries ≡ listed names.old.entries ++ new_table (string_bytes name) families ∷ []) }
    ensures err { OnErr result (names.new.entries ≡ names.old.entries) }
{
    names.insert(name, families)?;
    Ok(())
}

// A table with its first region, and the order of its regions.
struct NewTable {
    name: String,
    families: Families,
    region: Region,
    order: Order,
}

// Adds the table whole, or nothing.
fn add_all(
    names: &mut IndexMap<String, Families>,
    regions: &mut Items<Region>,
    orders: &mut Items<Order>,
    new: NewTable,
) -> Result<(), Memory>
    requires absent { position (is_named (string_bytes new.name)) (listed names.old.entries) ≡ None }
    ensures names { OnOk result (listed names.new.entries ≡ listed names.old.entries ++ new_table (string_bytes new.name) new.families ∷ []) }
    ensures regions { OnOk result (regions.new ≡ regions.old ++ new.region ∷ []) }
    ensures orders { OnOk result (orders.new ≡ orders.old ++ new.order ∷ []) }
    ensures names_stay { OnErr result (names.new.entries ≡ names.old.entries) }
    ensures regions_stay { OnErr result (regions.new ≡ regions.old) }
    ensures orders_stay { OnErr result (orders.new ≡ orders.old) }
{
    let NewTable {
        name,
        families,
        region,
        order,
    } = new;
    let count = regions.len();
    let tables = orders.len();
    regions.push(region)?;
    if orders.push(order).is_err() {
        regions.truncate(count);
        return Err(Memory);
    }
    if add_name(names, name, families).is_err() {
        regions.truncate(count);
        orders.truncate(tables);
        return Err(Memory);
    }
    Ok(())
}
