// What the types of a batch's parts keep of its values, told in one fact. Nothing is changed or answered.
ghost use Rattle.std.specs.Prelude.{◌≡◌, None, All, IfSome};
ghost use Rattle.rep_types.specs.Text.{name_refusal};
ghost use Rattle.wal_entry.specs.Framed.{IsTyped, IsTypedCell, IsTypedEdit, IsTypedKind, IsTypedOrigin};
ghost use Rattle.wire_batch.specs.Batches.{IsTypedBatch};

use rep_types::{Cell, Edit, Entry, EntryKind, Origin};
use wire_batch::Batch;

fn type_cell(cell: &Cell)
    ensures { IsTypedCell cell.now }
{
    let _family = cell.family.as_str();
    let _qualifier = cell.qualifier.as_str();
    let _stamp = cell.stamp;
}

fn type_cells(cells: &[Cell])
    ensures { All IsTypedCell cells.now }
{
    for cell in cells {
        type_cell(cell);
    }
}

fn type_edit(edit: &Edit)
    ensures { IsTypedEdit edit.now }
{
    let _table = edit.table().as_str();
    let _row = edit.row().as_str();
    type_cells(edit.cells().as_slice());
}

fn type_kind(kind: &EntryKind)
    ensures { IsTypedKind kind.now }
{
    match kind {
        EntryKind::Opened => {}
        EntryKind::Closed => {}
        EntryKind::Write(edit) => type_edit(edit),
    }
}

fn type_origin(origin: &Origin)
    ensures { IsTypedOrigin origin.now }
{
    let _peer = origin.peer.number();
    let _region = origin.entry.region.number();
    let _seq = origin.entry.seq;
}

fn type_some_origin(origin: &Option<Origin>)
    ensures { IfSome origin.now IsTypedOrigin }
{
    match origin {
        None => {}
        Some(origin) => type_origin(origin),
    }
}

fn type_form(form: &Entry)
    ensures { IsTyped form.now }
{
    let _region = form.region.number();
    let _seq = form.seq;
    type_kind(&form.kind);
    type_some_origin(&form.origin);
}

fn type_forms(forms: &[Entry])
    ensures { All IsTyped forms.now }
{
    for form in forms {
        type_form(form);
    }
}

pub fn type_batch(batch: &Batch)
    ensures { IsTypedBatch batch.now }
{
    let _peer = batch.peer.number();
    let _server = batch.server.number();
    let _flight = batch.flight;
    type_forms(batch.forms.as_slice());
}
