// What is shipped of an entry.
ghost use Rattle.std.specs.Prelude.{◌≡◌, IfOk};
ghost use Rattle.rep_model.specs.State.{mark};
ghost use Rattle.rep_model.specs.Forms.{is_marked};
ghost use Rattle.rep_model.specs.Peers.{has_table};
ghost use Rattle.peer_config.specs.Forms.{form_of_kind, form};

use rep_types::{Cluster, Edit, Entry, EntryKind, Families, Memory, Name, Names};
use std::alloc::Global;

fn mark(cluster: Cluster) -> u8
    ensures { result ≡ mark cluster }
{
    match cluster {
        Cluster::A => 1,
        Cluster::B => 2,
        Cluster::C => 4,
    }
}

fn is_marked(cluster: Cluster, marks: u8) -> bool
    ensures { result ≡ is_marked cluster marks }
{
    marks / mark(cluster) % 2 == 1
}

fn has_table(tables: &Names, table: &Name) -> bool
    ensures { result ≡ has_table tables.now table.now }
{
    tables.as_slice().iter().any(|other| *table == *other)
}

fn form_of_kind(
    alloc: Global,
    to: Cluster,
    tables: &Names,
    families: &Families,
    marks: u8,
    kind: &EntryKind,
) -> Result<Option<Edit>, Memory>
    ensures { IfOk result (λ made. made ≡ form_of_kind to tables.now families.now marks kind.now) }
{
    match kind {
        EntryKind::Opened => Ok(None),
        EntryKind::Closed => Ok(None),
        EntryKind::Write(edit) => {
            if has_table(tables, edit.table()) && !is_marked(to, marks) {
                edit.cut(alloc, families.as_slice())
            } else {
                Ok(None)
            }
        }
    }
}

/// What is shipped of an entry to a destination by a peer with these tables.
pub fn form_of(
    alloc: Global,
    to: Cluster,
    tables: &Names,
    families: &Families,
    entry: &Entry,
) -> Result<Option<Edit>, Memory>
    ensures { IfOk result (λ made. made ≡ form to tables.now families.now entry.now) }
{
    form_of_kind(alloc, to, tables, families, entry.marks, &entry.kind)
}
