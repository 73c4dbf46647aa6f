// The lines of a cluster's regions.
ghost use Rattle.std.specs.Prelude.{◌≡◌, ◌+◌, ◌++◌, ◌<◌, false, OnOk};
ghost use Rattle.rep_model.specs.Runs.{state_of};
ghost use Rattle.script_lines.specs.Views.{region_shown, regions_text};

use pair_core::Pair;
use rep_types::{Cluster, Memory, RegionId};
use rep_vault::Vault;
use report_text::region_line;
use std::alloc::Global;

fn region_id(at: u32) -> RegionId
    requires { at < 4096 }
    ensures { result ≡ at + 1 }
{
    let Some(region) = RegionId::new(at + 1) else {
        unreachable!()
    };
    region
}

fn numbered_line<V: Vault>(
    alloc: Global,
    cluster: Cluster,
    region: RegionId,
    pair: &Pair<V>,
    out: &mut Vec<u8>,
) -> Result<(), Memory>
    ensures text { pair.now.spent ≡ false → OnOk result (out.new.items ≡ out.old.items ++ region_shown cluster (state_of pair.now.journal) region) }
{
    match pair.region_line(alloc, cluster, region)? {
        Some(view) => region_line(&view, out),
        None => Ok(()),
    }
}

/// The lines of the regions, by number. It looks for those alone that are there.
pub fn region_lines<V: Vault>(
    alloc: Global,
    cluster: Cluster,
    pair: &Pair<V>,
    out: &mut Vec<u8>,
) -> Result<(), Memory>
    ensures text { pair.now.spent ≡ false → OnOk result (out.new.items ≡ out.old.items ++ regions_text cluster (state_of pair.now.journal)) }
{
    let last = pair.region_count(cluster).min(4096) as u32;
    for at in 0..last {
        numbered_line(alloc, cluster, region_id(at), pair, out)?;
    }
    Ok(())
}
