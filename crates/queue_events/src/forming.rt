// The forms of a batch for its peer.
ghost use Rattle.std.specs.Prelude.{◌≡◌, ◌+◌, min, IfOk};
ghost use Rattle.rep_model.specs.State.{mark};
ghost use Rattle.rep_model.specs.Peers.{has_table};
ghost use Rattle.rep_model.specs.Forms.{is_marked, cut_kind};
ghost use Rattle.queue_events.specs.Sending.{entry_form, entry_forms};

use cluster_core::mark;
use region_meta::RegionMap;
use rep_model::Form;
use rep_types::{Cluster, Edit, Entry, EntryId, EntryKind, Families, Items, Memory, Name, Names};
use std::alloc::Global;

fn has_table(tables: &Names, table: &Name) -> bool
    ensures { result ≡ has_table tables.now table.now }
{
    tables.as_slice().iter().any(|other| *table == *other)
}

// Whether the cluster is among the marks.
fn is_marked(cluster: Cluster, marks: u8) -> bool
    ensures { result ≡ is_marked cluster marks }
{
    marks / mark(cluster) % 2 == 1
}

fn cut_kind(alloc: Global, families: &Families, kind: &EntryKind) -> Result<Option<Edit>, Memory>
    ensures { IfOk result (λ made. made ≡ cut_kind families.now kind.now) }
{
    match kind {
        EntryKind::Opened => Ok(None),
        EntryKind::Closed => Ok(None),
        EntryKind::Write(edit) => edit.cut(alloc, families.as_slice()),
    }
}

// The form of an entry for a peer with these tables.
#[tactic(auto, unfolding(rep_model::specs::Keyed::given))]
fn entry_form(
    alloc: Global,
    to: Cluster,
    tables: &Names,
    map: &RegionMap,
    entry: &Entry,
) -> Result<Option<Edit>, Memory>
    ensures { IfOk result (λ made. made ≡ entry_form to tables.now map.now entry.now) }
{
    let Some(region) = map.region(entry.region) else {
        return Ok(None);
    };
    if has_table(tables, &region.table) && !is_marked(to, entry.marks) {
        match map.families(&region.table) {
            Some(families) => cut_kind(alloc, families, &entry.kind),
            None => Ok(None),
        }
    } else {
        Ok(None)
    }
}

fn with_mark(marks: u8, cluster: Cluster) -> u8
    ensures { result ≡ min (marks + mark cluster) 255 }
{
    marks.saturating_add(mark(cluster))
}

/// The forms of entries of one cluster for another, in order.
pub fn entry_forms(
    alloc: Global,
    from: Cluster,
    to: Cluster,
    tables: &Names,
    map: &RegionMap,
    entries: &[Entry],
) -> Result<Items<Form>, Memory>
    ensures { IfOk result (λ made. made ≡ entry_forms from to tables.now map.now entries.now) }
{
    let mut made = Items::new(alloc);
    for entry in entries {
        if let Some(edit) = entry_form(alloc, to, tables, map, entry)? {
            made.push(Form {
                source: EntryId {
                    cluster: from,
                    region: entry.region,
                    seq: entry.seq,
                },
                edit,
                marks: with_mark(entry.marks, to),
            })?;
        }
    }
    Ok(made)
}
