ghost use Rattle.std.specs.Prelude.{◌≡◌, ◌++◌, OnOk};
ghost use Rattle.report_text.specs.Lists.{numbers_text};
ghost use Rattle.report_text.specs.QueueLine.{optional_text};
ghost use Rattle.report_text.specs.RegionLine.{bound_text, extent_text, history_text, region_text, where_text};

use crate::lines::or_memory;
use rep_types::{Key, Memory, PlaceOf, RegionId, RegionLine};
use std::io;
use std::io::Write;

fn write_bound(out: &mut Vec<u8>, bound: &Option<Key>) -> io::Result<()>
    ensures { OnOk result (out.new.items ≡ out.old.items ++ bound_text bound.now) }
{
    match bound {
        Some(key) => write!(out, "{key}"),
        None => write!(out, "-"),
    }
}

fn write_place(out: &mut Vec<u8>, place: &PlaceOf) -> io::Result<()>
    ensures { OnOk result (out.new.items ≡ out.old.items ++ where_text place.now) }
{
    match place {
        PlaceOf::Off => write!(out, "off"),
        PlaceOf::Opening(server) => write!(out, "opening:{server}"),
        PlaceOf::On(server) => write!(out, "on:{server}"),
        PlaceOf::Closing(server) => write!(out, "closing:{server}"),
        PlaceOf::Lost(server) => write!(out, "lost:{server}"),
        PlaceOf::Gone => write!(out, "gone"),
    }
}

fn write_barriers(out: &mut Vec<u8>, barriers: &[u64]) -> io::Result<()>
    ensures { OnOk result (out.new.items ≡ out.old.items ++ numbers_text barriers.now) }
{
    let Some((first, rest)) = barriers.split_first() else {
        return write!(out, "-");
    };
    write!(out, "{first}")?;
    for barrier in rest {
        write!(out, ",{barrier}")?;
    }
    Ok(())
}

fn write_parents(out: &mut Vec<u8>, parents: &[RegionId]) -> io::Result<()>
    ensures { OnOk result (out.new.items ≡ out.old.items ++ numbers_text parents.now) }
{
    let Some((first, rest)) = parents.split_first() else {
        return write!(out, "-");
    };
    write!(out, "{first}")?;
    for parent in rest {
        write!(out, ",{parent}")?;
    }
    Ok(())
}

fn write_final(out: &mut Vec<u8>, barrier: Option<u64>) -> io::Result<()>
    ensures { OnOk result (out.new.items ≡ out.old.items ++ optional_text barrier) }
{
    match barrier {
        Some(barrier) => write!(out, "{barrier}"),
        None => write!(out, "none"),
    }
}

fn write_extent(out: &mut Vec<u8>, line: &RegionLine) -> io::Result<()>
    ensures { OnOk result (out.new.items ≡ out.old.items ++ extent_text line.now) }
{
    write_bound(out, &line.low)?;
    write!(out, " ")?;
    write_bound(out, &line.high)?;
    write!(out, " ")?;
    write_place(out, &line.place)
}

fn write_history(out: &mut Vec<u8>, line: &RegionLine) -> io::Result<()>
    ensures { OnOk result (out.new.items ≡ out.old.items ++ history_text line.now) }
{
    write!(out, " barriers=")?;
    write_barriers(out, line.barriers.as_slice())?;
    write!(out, " final=")?;
    write_final(out, line.final_barrier)?;
    write!(out, " parents=")?;
    write_parents(out, line.parents.as_slice())
}

fn write_region(out: &mut Vec<u8>, line: &RegionLine) -> io::Result<()>
    ensures { OnOk result (out.new.items ≡ out.old.items ++ region_text line.now) }
{
    let cluster = line.cluster;
    let region = line.region;
    let table = &line.table;
    write!(out, "region {cluster} {region} {table} ")?;
    write_extent(out, line)?;
    write_history(out, line)?;
    writeln!(out)
}

/// Adds the line `region CLUSTER REGION TABLE LOW HIGH PLACE barriers=LIST final=N parents=LIST`,
/// with a dash for an absent key or an empty list, and `none` where no final barrier is set. After
/// Memory a part of these bytes may stand at the end of `out`.
pub fn region_line(line: &RegionLine, out: &mut Vec<u8>) -> Result<(), Memory>
    ensures text { OnOk result (out.new.items ≡ out.old.items ++ region_text line.now) }
{
    or_memory(write_region(out, line))
}
