// A command's events, one after the other, where some follow from the state in which it begins.
ghost use Rattle.std.specs.Prelude.{◌≡◌, ◌+◌, ◌++◌, ◌∷◌, ◌<◌, ◌≤◌, [], List, false, true, filter, length, map, IfOk, IfSome, OnOk};
ghost use Rattle.rep_types.specs.declared.record.Record.{Record};
ghost use Rattle.rep_model.specs.Runs.{state_of};
ghost use Rattle.rep_model.specs.declared.machine.Machine.{Machine};
ghost use Rattle.script_text.specs.Drains.{lives, live_servers};
ghost use Rattle.script_text.specs.Due.{reply_in, due};
ghost use Rattle.script_runner.specs.Asked.{asked};
ghost use Rattle.script_runner.specs.Served.{is_served};

use pair_core::Pair;
use rep_types::{Cluster, Event, Items, Memory, Reply, ServerId, ServerSet};
use rep_vault::Vault;
use script_text::{Command, sync_all_event};
use std::alloc::Global;

fn numbered(at: u32) -> ServerId
    requires { at < 64 }
    ensures { result ≡ at + 1 }
{
    let Some(server) = ServerId::new(at + 1) else {
        unreachable!()
    };
    server
}

// The server goes behind these if it lives.
fn add_live<V: Vault>(
    pair: &Pair<V>,
    cluster: Cluster,
    server: ServerId,
    live: &mut ServerSet,
) -> Result<(), Memory>
    requires usable { pair.now.spent ≡ false }
    ensures added { OnOk result (live.new ≡ live.old ++ filter (lives cluster (state_of pair.now.journal)) (server ∷ [])) }
    ensures few { length live.new ≤ length live.old + 1 }
{
    if pair.is_live(cluster, server) {
        live.push(server)
    } else {
        Ok(())
    }
}

// The live servers of a cluster, by number.
fn live_servers<V: Vault>(
    alloc: Global,
    pair: &Pair<V>,
    cluster: Cluster,
) -> Result<ServerSet, Memory>
    requires usable { pair.now.spent ≡ false }
    ensures live { IfOk result (λ live. live ≡ live_servers cluster (state_of pair.now.journal)) }
    ensures few { IfOk result (λ live. length live ≤ 64) }
{
    let mut live = Items::new(alloc);
    for at in 0..64u32 {
        add_live(pair, cluster, numbered(at), &mut live)?;
    }
    Ok(live)
}

/// The servers for which a command's events ask, when it begins.
pub fn asked_servers<V: Vault>(
    alloc: Global,
    pair: &Pair<V>,
    command: &Command,
) -> Result<ServerSet, Memory>
    requires usable { pair.now.spent ≡ false }
    ensures asked { IfOk result (λ live. live ≡ asked command.now (state_of pair.now.journal)) }
    ensures few { IfOk result (λ live. length live ≤ 64) }
{
    match command {
        Command::SyncAll { cluster } => live_servers(alloc, pair, *cluster),
        _ => Ok(Items::new(alloc)),
    }
}

/// A command's next event, after the replies to its earlier ones; `live` are the servers for which it asked when it began.
pub fn next_event(
    alloc: Global,
    command: &Command,
    live: &[ServerId],
    replies: &[Reply],
) -> Result<Option<Event>, Memory>
    requires served { is_served command.now ≡ true }
    requires live { length live.now ≤ 64 }
    ensures event { (m : Machine) (rs : List Record) → live.now ≡ asked command.now m → replies.now ≡ map reply_in rs
        → IfOk result (λ made. made ≡ due command.now m rs) }
    ensures few { IfOk result (λ made. IfSome made (λ _. length replies.now < 64)) }
{
    match command {
        Command::SyncAll { cluster } => Ok(sync_all_event(*cluster, live, replies)),
        _ => command.next_event(alloc, replies),
    }
}
