// Two clusters over two stores, and the journal of what happened to them.
ghost use Rattle.std.specs.Prelude.{◌≡◌, ◌-◌, ◌^◌, ◌<◌, ◌≤◌, ◌++◌, ◌↔◌, [], ◌∷◌, false, true, length, IfSome, IfOk, OnOk, OnErr, MatchResult, IsErrOf};
ghost use Rattle.rep_types.specs.declared.ids.Cluster.TheVariants as cluster;
ghost use Rattle.rep_vault.specs.Contents.{new_contents};
ghost use Rattle.rep_vault.specs.Tallies.{total};
ghost use Rattle.rep_model.specs.Keyed.{if_some};
ghost use Rattle.rep_model.specs.State.{server_of};
ghost use Rattle.rep_model.specs.State as state;
ghost use Rattle.rep_model.specs.Words.{is_paired, is_worded};
ghost use Rattle.rep_model.specs.Runs.{IsLegal, state_of, faults_of};
ghost use Rattle.rep_laws.specs.Settled.{IsSettled};
ghost use Rattle.cluster_core.specs.Does.{Counts};
ghost use Rattle.pair_core.specs.Pair.{both, IsSame, IsPlanned};
ghost use Rattle.pair_core.specs.Performs.{changed_of, FaultRose};
ghost use Rattle.pair_core.specs.Served.{is_served};
ghost use Rattle.pair_core.specs.Sides.{Covers};
ghost use Rattle.pair_core.specs.Stored.{Stored};
ghost use Rattle.pair_core.specs.Told.{CountsTold};

use crate::performing::perform;
use crate::sides::{Sides, core_of};
use cluster_core::{CoreError, is_live};
use rep_types::{Call, Cluster, Duplicate, Event, Memory, Record, Reply, ServerId};
use rep_vault::Vault;
use std::alloc::Global;
use std::marker::Model;
use thiserror::Error;

/// Why an event wasn't performed; the first that holds.
#[derive(Clone, Copy, Debug, PartialEq, Eq, Error)]
pub enum StepError {
    /// Memory ran out in an earlier step, behind a change.
    #[error("spent")]
    Spent,
    /// The journal has 4,294,967,295 records.
    #[error("too many records")]
    Full,
    #[error("out of memory")]
    Memory,
}

// Whether memory ran out behind a change.
fn is_changed(error: CoreError) -> bool
    ensures { result ≡ changed_of error }
{
    match error {
        CoreError::Memory { changed } => changed,
    }
}

/// The stores of a pair that couldn't be made for want of memory, as they were.
#[derive(Drop)]
pub struct NoPair<V: Vault> {
    pub a: V,
    pub b: V,
}

/// The two stores of a pair.
#[derive(Drop)]
pub struct Stores<V: Vault> {
    pub a: V,
    pub b: V,
}

/// Two clusters, each over its store, and their journal.
#[derive(Drop)]
pub struct Pair<V: Vault> {
    pub(crate) sides: Sides,
    pub(crate) journal: Vec<Record>,
    spent: bool,
    a: V,
    b: V,
}

impl<V: Vault> Model for Pair<V> {
    ghost use Rattle.pair_core.specs.Pair.{PairValue, IsPair};

    ghost Value = { PairValue V };

    ghost view = { λ p. record { journal = p.journal.items; spent = p.spent; a = p.a; b = p.b } };

    ghost invariant = { λ p. IsPair V.contents V.tally p.journal.items p.spent p.sides p.a p.b };
}

impl<V: Vault> Pair<V> {
    /// Two clusters with nothing in them, over stores as new.
    pub fn new(alloc: Global, a: V, b: V) -> Result<Pair<V>, NoPair<V>>
        requires a_is_new { V.contents a ≡ new_contents }
        requires b_is_new { V.contents b ≡ new_contents }
        ensures { MatchResult result (λ pair. pair ≡ record { journal = []; spent = false; a = a; b = b }) (λ left. left ≡ record { a = a; b = b }) }
    {
        let Ok(sides) = Sides::new(alloc) else {
            return Err(NoPair { a, b });
        };
        Ok(Pair {
            sides,
            journal: Vec::new(alloc),
            spent: false,
            a,
            b,
        })
    }

    /// The records of all events so far.
    pub fn journal(&self) -> &[Record]
        ensures value { result.now ≡ self.now.journal }
        ensures legal { IsLegal self.now.journal }
        // Each cluster hangs together after it.
        ensures settled { (c : Cluster) → is_paired c ≡ true → IsSettled c (state_of self.now.journal) }
        // Unless the pair is spent, the stores hold what the state after the journal has in logs and records.
        ensures stored { self.now.spent ≡ false → Stored (both V.contents self.now.a self.now.b) (state_of self.now.journal) }
    {
        self.journal.as_slice()
    }

    /// One event: its reply, and the record of both.
    pub fn step(&mut self, alloc: Global, event: Event, actor: u16) -> Result<Reply, StepError>
        requires served { is_served event ≡ true }
        requires worded { is_worded state.Pair event ≡ true }
        ensures recorded { IfOk result (λ reply. self.new.journal ≡ self.old.journal
            ++ record { event = event; reply = reply; faults_a = total (V.tally self.new.a).faults; faults_b = total (V.tally self.new.b).faults; actor = actor } ∷ []) }
        ensures usable { OnOk result (self.new.spent ≡ false) }
        // A told fault was counted in this step, in the store and of the kind that it names.
        ensures told { IfOk result (λ reply. FaultRose reply (both V.tally self.old.a self.old.b) (both V.tally self.new.a self.new.b)) }
        ensures counts_a { Counts (V.tally self.old.a) (V.tally self.new.a) }
        ensures counts_b { Counts (V.tally self.old.b) (V.tally self.new.b) }

        // What a refusal leaves, and when it comes.
        ensures err { OnErr result (self.new.journal ≡ self.old.journal) }
        ensures unchanged { OnErr result (self.new.spent ≡ false → both V.contents self.new.a self.new.b ≡ both V.contents self.old.a self.old.b) }
        ensures spent { IsErrOf result StepError.Spent ↔ (self.old.spent ≡ true) }
        // A pair becomes spent only where memory runs out, and stays so.
        ensures becomes { self.old.spent ≡ false → self.new.spent ≡ true → IsErrOf result StepError.Memory }
        ensures stays { self.old.spent ≡ true → self.new.spent ≡ true }
        ensures full { IsErrOf result StepError.Full ↔ (self.old.spent ≡ false) × (2 ^ 32 - 1 ≤ length self.old.journal) }
    {
        if self.spent {
            return Err(StepError::Spent);
        }
        if self.journal.len() >= u32::MAX as usize {
            return Err(StepError::Full);
        }
        let Ok(()) = self.journal.reserve(1) else {
            return Err(StepError::Memory);
        };
        self.spent = true;
        let reply = match perform(&mut self.sides, alloc, &mut self.a, &mut self.b, &event) {
            Ok(reply) => reply,
            Err(error) => {
                self.spent = is_changed(error);
                return Err(StepError::Memory);
            }
        };
        let Ok(kept) = reply.copy(alloc) else {
            return Err(StepError::Memory);
        };
        let record = Record {
            event,
            reply: kept,
            faults_a: self.a.faults(),
            faults_b: self.b.faults(),
            actor,
        };
        let Ok(()) = self.journal.push(record) else {
            unreachable!()
        };
        self.spent = false;
        Ok(reply)
    }

    /// Whether a server is there and lives.
    pub fn is_live(&self, cluster: Cluster, server: ServerId) -> bool
        ensures { self.now.spent ≡ false → result ≡ if_some (server_of cluster server (state_of self.now.journal)) (λ srv. srv.live) }
    {
        match core_of(&self.sides, cluster) {
            Some(core) => is_live(&core.stations, server),
            None => false,
        }
    }

    /// Asks that the `nth` next call of a kind fail in the cluster's store, and an append leave the first `bytes` of its
    /// piece. Of a cluster that isn't one of the two nothing is asked.
    pub fn plan_failure(
        &mut self,
        cluster: Cluster,
        call: Call,
        nth: u32,
        bytes: u32,
    ) -> Result<(), Memory>
        requires nth { 1 ≤ nth }
        requires room_a { IfSome (V.tally self.old.a).planned (λ n. n call < 2 ^ 32 - 1) }
        requires room_b { IfSome (V.tally self.old.b).planned (λ n. n call < 2 ^ 32 - 1) }
        ensures same { IsSame V.contents self.old self.new }
        ensures planned { IsPlanned cluster call (both V.tally self.old.a self.old.b) (both V.tally self.new.a self.new.b) result }
    {
        match cluster {
            Cluster::A => self.a.plan_failure(call, nth, bytes),
            Cluster::B => self.b.plan_failure(call, nth, bytes),
            Cluster::C => Ok(()),
        }
    }

    /// Asks that the next seal of an unsealed file in the cluster's store keep so many bytes of what isn't synced. Of a
    /// cluster that isn't one of the two nothing is asked.
    pub fn plan_keep(&mut self, cluster: Cluster, bytes: u64) -> Result<(), Memory>
        ensures same { IsSame V.contents self.old self.new }
        ensures counts { both V.tally self.new.a self.new.b ≡ both V.tally self.old.a self.old.b }
    {
        match cluster {
            Cluster::A => self.a.plan_keep(bytes),
            Cluster::B => self.b.plan_keep(bytes),
            Cluster::C => Ok(()),
        }
    }

    /// Hands both stores back, which hold what the state after the journal has in logs and records, unless the pair is spent.
    pub fn into_stores(self) -> Stores<V>
        ensures value { result ≡ record { a = self.a; b = self.b } }
        ensures legal { IsLegal self.journal }
        ensures stored { self.spent ≡ false → Stored (both V.contents self.a self.b) (state_of self.journal) }
        // No record tells more faults of a store than it has counted: the last tells the most.
        ensures covers_a { Covers (faults_of self.journal cluster.A) (V.tally self.a) }
        ensures covers_b { Covers (faults_of self.journal cluster.B) (V.tally self.b) }
        // Nor do all records together tell more faults of one kind of call.
        ensures told_a { CountsTold cluster.A self.journal (V.tally self.a) }
        ensures told_b { CountsTold cluster.B self.journal (V.tally self.b) }
    {
        Stores {
            a: self.a,
            b: self.b,
        }
    }
}
