// What is seen of a pair, without a store call.
ghost use Rattle.std.specs.Prelude.{◌≡◌, ℕ, ◌<◌, false, None, length, IfOk};
ghost use Rattle.rep_model.specs.State.{of};
ghost use Rattle.rep_model.specs.Runs.{state_of};
ghost use Rattle.pair_core.specs.Views.{queue_seen, region_seen, status_seen};

use crate::pair::Pair;
use crate::queue_views::queue_view;
use crate::region_views::{region_count, region_line};
use crate::side_views::side_line;
use crate::sides::core_of;
use rep_types::{Cluster, Memory, PeerId, QueueView, RegionId, RegionLine, ServerId, StatusLine};
use rep_vault::Vault;
use std::alloc::Global;

impl<V: Vault> Pair<V> {
    /// A peer's queue for the logs of a server: its owner, how many commits are left in it, and its
    /// outstanding flight. None where the peer wasn't added or is removed, or has no such queue. It
    /// costs the search for them.
    pub fn queue_view(&self, cluster: Cluster, peer: PeerId, server: ServerId) -> Option<QueueView>
        ensures seen { self.now.spent ≡ false → result ≡ queue_seen peer server (of cluster (state_of self.now.journal)) }
    {
        match core_of(&self.sides, cluster) {
            Some(core) => queue_view(core, peer, server),
            None => None,
        }
    }

    /// A region as it is printed, with its barriers; a final one where it is Gone. None where there is
    /// no region of this number. It costs its barriers, its bounds and its table's name.
    pub fn region_line(
        &self,
        alloc: Global,
        cluster: Cluster,
        region: RegionId,
    ) -> Result<Option<RegionLine>, Memory>
        ensures seen { self.now.spent ≡ false → IfOk result (λ line. line ≡ region_seen cluster region (of cluster (state_of self.now.journal))) }
    {
        match core_of(&self.sides, cluster) {
            Some(core) => region_line(core, alloc, region),
            None => Ok(None),
        }
    }

    /// How many regions a cluster has, those that are Gone too: they have the numbers from 1 on.
    pub fn region_count(&self, cluster: Cluster) -> usize
        ensures count { self.now.spent ≡ false → result ≡ length (of cluster (state_of self.now.journal)).regions }
        ensures above { self.now.spent ≡ false → (r : ℕ) → result < r → region_seen cluster r (of cluster (state_of self.now.journal)) ≡ None }
    {
        match core_of(&self.sides, cluster) {
            Some(core) => region_count(core),
            None => 0,
        }
    }

    /// Both clusters, the number of flights, and how many records there are. It costs a search for
    /// each of 64 servers in both.
    pub fn status_line(&self, alloc: Global) -> Result<StatusLine, Memory>
        ensures seen { self.now.spent ≡ false → IfOk result (λ line. line ≡ status_seen (length self.now.journal) (state_of self.now.journal)) }
    {
        Ok(StatusLine {
            a: side_line(&self.sides.a, alloc)?,
            b: side_line(&self.sides.b, alloc)?,
            flights: self.sides.flights.len() as u64,
            records: self.journal.len() as u64,
        })
    }
}
