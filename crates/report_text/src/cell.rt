ghost use Rattle.std.specs.Prelude.{◌≡◌, ◌++◌, OnOk, flat_map};
ghost use Rattle.report_text.specs.Values.{are_all, cell_text, repeated, value_text, view_text};

use rep_types::{Cell, CellKind, CellView};
use std::io;
use std::io::Write;

fn are_all(bytes: &[u8], byte: u8) -> bool
    ensures { result ≡ are_all byte bytes.now }
{
    bytes.iter().all(|other| *other == byte)
}

// The character of a value of 32 or more equal ones.
fn repeated(value: &[u8]) -> Option<u8>
    ensures { result ≡ repeated value.now }
{
    let Some((first, rest)) = value.split_first() else {
        return None;
    };
    if 31 <= rest.len() && are_all(rest, *first) {
        Some(*first)
    } else {
        None
    }
}

fn write_value(out: &mut Vec<u8>, value: &[u8]) -> io::Result<()>
    ensures { OnOk result (out.new.items ≡ out.old.items ++ value_text value.now) }
{
    match repeated(value) {
        Some(byte) => {
            let count = value.len();
            write!(out, "{count}*")?;
            out.push(byte)?;
        }
        None => out.extend_from_slice(value)?,
    }
    Ok(())
}

fn write_cell(out: &mut Vec<u8>, cell: &Cell) -> io::Result<()>
    ensures { OnOk result (out.new.items ≡ out.old.items ++ cell_text cell.now) }
{
    let family = &cell.family;
    let qualifier = &cell.qualifier;
    let stamp = cell.stamp;
    write!(out, " {family}:{qualifier}@{stamp}")?;
    match &cell.kind {
        CellKind::Put(value) => {
            write!(out, "=")?;
            write_value(out, value.as_slice())
        }
        CellKind::Erase => write!(out, "!"),
    }
}

/// Cells as a `put` has them, each with a space before it.
pub fn write_cells(out: &mut Vec<u8>, cells: &[Cell]) -> io::Result<()>
    ensures { OnOk result (out.new.items ≡ out.old.items ++ flat_map cell_text cells.now) }
{
    for cell in cells {
        write_cell(out, cell)?;
    }
    Ok(())
}

fn write_view(out: &mut Vec<u8>, view: &CellView) -> io::Result<()>
    ensures { OnOk result (out.new.items ≡ out.old.items ++ view_text view.now) }
{
    let row = &view.row;
    let family = &view.family;
    let qualifier = &view.qualifier;
    let stamp = view.stamp;
    write!(out, "| {row} {family}:{qualifier}@{stamp}=")?;
    write_value(out, view.value.as_slice())?;
    writeln!(out)
}

/// Cells that are shown, each on its line.
pub fn write_views(out: &mut Vec<u8>, views: &[CellView]) -> io::Result<()>
    ensures { OnOk result (out.new.items ≡ out.old.items ++ flat_map view_text views.now) }
{
    for view in views {
        write_view(out, view)?;
    }
    Ok(())
}
