ghost use Rattle.std.specs.Prelude.{◌≡◌, ◌++◌, false, length, OnOk};
ghost use Rattle.rep_model.specs.Runs.{state_of};
ghost use Rattle.script_lines.specs.Views.{view_text};

use crate::queues::queue_lines;
use crate::regions::region_lines;
use pair_core::Pair;
use rep_types::Memory;
use rep_vault::Vault;
use report_text::status_line;
use script_text::Command;
use std::alloc::Global;

/// Adds what a view shows of the state that the pair's records led to: for `queues` a line for each
/// queue of each peer that isn't removed, for `regions` one for each region, for `status` one line of
/// both clusters. Every other command adds nothing. It makes no call of a store. After Memory a part
/// of these bytes may stand at the end of `out`.
pub fn print_view<V: Vault>(
    alloc: Global,
    command: &Command,
    pair: &Pair<V>,
    out: &mut Vec<u8>,
) -> Result<(), Memory>
    ensures text { pair.now.spent ≡ false → OnOk result (out.new.items ≡ out.old.items
        ++ view_text command.now (length pair.now.journal) (state_of pair.now.journal)) }
{
    match command {
        Command::Queues { cluster } => queue_lines(*cluster, pair, out),
        Command::Regions { cluster } => region_lines(alloc, *cluster, pair, out),
        Command::Status => {
            let view = pair.status_line(alloc)?;
            status_line(alloc, &view, out)
        }
        _ => Ok(()),
    }
}
