// What is sent of an entry.
ghost use Rattle.std.specs.Prelude.{◌≡◌, IfOk};
ghost use Rattle.rep_model.specs.Forms.{is_marked, cut_kind, form, forms};
ghost use Rattle.rep_model.specs.Peers.{has_table};

use crate::sides::mark;
use rep_model::{Commit, Form};
use rep_types::{Cluster, Edit, EntryId, EntryKind, Families, Items, Memory, Name, Names};
use std::alloc::Global;

pub fn has_table(tables: &Names, table: &Name) -> bool
    ensures { result ≡ has_table tables.now table.now }
{
    tables.as_slice().iter().any(|other| *table == *other)
}

/// Whether the cluster is among the marks.
fn is_marked(cluster: Cluster, marks: u8) -> bool
    ensures { result ≡ is_marked cluster marks }
{
    marks / mark(cluster) % 2 == 1
}

fn cut_kind(alloc: Global, families: &Families, kind: &EntryKind) -> Result<Option<Edit>, Memory>
    ensures { IfOk result (λ made. made ≡ cut_kind families.now kind.now) }
{
    match kind {
        EntryKind::Opened => Ok(None),
        EntryKind::Closed => Ok(None),
        EntryKind::Write(edit) => edit.cut(alloc, families.as_slice()),
    }
}

/// The form of an entry for a peer with these tables: none where its destination has consumed it.
pub fn form(
    alloc: Global,
    to: Cluster,
    tables: &Names,
    entry: &Commit,
) -> Result<Option<Edit>, Memory>
    ensures { IfOk result (λ made. made ≡ form to tables.now entry.now) }
{
    if has_table(tables, &entry.region.table.name) && !is_marked(to, entry.marks) {
        cut_kind(alloc, &entry.region.table.families, &entry.kind)
    } else {
        Ok(None)
    }
}

/// The forms of entries of one cluster for the other, in order.
pub fn forms(
    alloc: Global,
    from: Cluster,
    to: Cluster,
    tables: &Names,
    entries: &[Commit],
) -> Result<Items<Form>, Memory>
    ensures { IfOk result (λ made. made ≡ forms from to tables.now entries.now) }
{
    let mut made = Items::new(alloc);
    for entry in entries {
        if let Some(edit) = form(alloc, to, tables, entry)? {
            made.push(Form {
                source: EntryId {
                    cluster: from,
                    region: entry.region.number,
                    seq: entry.seq,
                },
                edit,
                marks: entry.marks + mark(to),
            })?;
        }
    }
    Ok(made)
}
