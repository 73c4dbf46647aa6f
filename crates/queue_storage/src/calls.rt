// The calls that change queues and ids: one put of the records each, before anything changes in memory.
ghost use Rattle.std.specs.Prelude.{◌≡◌, ◌≢◌, ◌<◌, ◌∷◌, ◌++◌, [], Err, IfSome, MatchOption, OnOk, OnErr, filter, length, map, slice_set};
ghost use Rattle.rep_vault.specs.Contents.{Contents, with_records};
ghost use Rattle.rep_model.specs.FormEvents.{made_form};
ghost use Rattle.rep_model.specs.Keyed.{replace};
ghost use Rattle.queue_storage.specs.declared.error.QueueError.TheVariants.{NoQueue};
ghost use Rattle.queue_storage.specs.Calls.{Tells};
ghost use Rattle.queue_storage.specs.Changes.{log_changes, peer_dropped};
ghost use Rattle.queue_storage.specs.Ids.{ArePushed, AreDropped};
ghost use Rattle.queue_storage.specs.Queues.{is_queue, queue_at, is_of_another, placed, owned, grouped, flies, logged, new_queue, AreApart};
ghost use Rattle.queue_storage.specs.Recorded.{Recorded, AreBeside};
ghost use Rattle.queue_storage.specs.Texts.{queue_change, last_change, forms_change};

use crate::changes::{
    last_changes, lasts_dropped, log_changes, queue_changes, queues_dropped, queues_logged,
    queues_of_others,
};
use crate::ids::{drop_of, know_of, of_peer, set_of};
use crate::record::forms_change;
use crate::store::put;
use crate::turns::{NextQueue, Turn, find_turned};
use crate::{QueueError, QueueRecord, QueueStore};
use last_ids::LastId;
use rep_types::{Items, PeerId, Place, QueueForm, QueueForms, ServerId};
use rep_vault::{Change, Vault};

// The form that the record of a new queue has: listed in an old cluster alone.
fn made_form(forms: QueueForms) -> QueueForm
    ensures { result ≡ made_form forms }
{
    match forms {
        QueueForms::Old => QueueForm::Listed,
        QueueForms::Mixed => QueueForm::Grouped,
        QueueForms::New => QueueForm::Grouped,
    }
}

// The queues stand behind the others, once these records are put.
fn put_new<V: Vault>(
    vault: &mut V,
    queues: &mut Items<QueueRecord>,
    new: &[QueueRecord],
    changes: &[Change],
) -> Result<(), QueueError>
    ensures queues { OnOk result (queues.new ≡ queues.old ++ new.now) }
    ensures records { OnOk result (V.contents vault.new ≡ with_records changes.now (V.contents vault.old)) }
    ensures found { result ≢ Err NoQueue }
    ensures err { OnErr result (queues.new ≡ queues.old) }
    ensures stays { OnErr result (V.contents vault.new ≡ V.contents vault.old) }
    ensures tells { Tells (V.tally vault.old) (V.tally vault.new) result }
{
    let before = queues.len();
    queues.extend_from_slice(new)?;
    let done = put(vault, changes);
    if done.is_err() {
        queues.truncate(before);
    }
    done
}

// The queue is so, once these records are put.
fn put_turned<V: Vault>(
    vault: &mut V,
    queues: &mut Items<QueueRecord>,
    next: &NextQueue,
    changes: &[Change],
) -> Result<(), QueueError>
    requires { next.now.at < length queues.old }
    ensures queues { OnOk result (queues.new ≡ slice_set queues.old next.now.at next.now.queue) }
    ensures records { OnOk result (V.contents vault.new ≡ with_records changes.now (V.contents vault.old)) }
    ensures found { result ≢ Err NoQueue }
    ensures err { OnErr result (queues.new ≡ queues.old) }
    ensures stays { OnErr result (V.contents vault.new ≡ V.contents vault.old) }
    ensures tells { Tells (V.tally vault.old) (V.tally vault.new) result }
{
    put(vault, changes)?;
    *queues.at_mut(next.at) = next.queue;
    Ok(())
}

impl QueueStore {
    /// A queue to be added: owned by its server, from this place on, which is in the server's greatest log, behind so many
    /// commits.
    pub fn new_queue(&self, peer: PeerId, server: ServerId, start: Place, at: u64) -> QueueRecord
        ensures { result ≡ new_queue self.now.forms peer server start at }
    {
        QueueRecord {
            peer,
            server,
            owner: server,
            form: made_form(self.forms),
            start,
            place: start,
            log: start.log,
            flight: None,
            at,
        }
    }

    /// Adds queues of a new server, behind the others, with other changes of records: one put. After an error nothing is changed.
    pub fn add<V: Vault>(
        &mut self,
        vault: &mut V,
        queues: &[QueueRecord],
        with: Vec<Change>,
    ) -> Result<(), QueueError>
        ensures queues { OnOk result (self.new.queues ≡ self.old.queues ++ queues.now) }
        ensures ids { self.new.ids ≡ self.old.ids }
        ensures forms { self.new.forms ≡ self.old.forms }
        ensures records { OnOk result (V.contents vault.new ≡ with_records (with.items ++ map queue_change queues.now) (V.contents vault.old)) }
        ensures recorded { OnOk result (Recorded (V.contents vault.old) self.old → AreApart (self.old.queues ++ queues.now) → AreBeside with.items
            → Recorded (V.contents vault.new) self.new) }
        ensures found { result ≢ Err NoQueue }
        ensures err { OnErr result (self.new ≡ self.old) }
        ensures stays { OnErr result (V.contents vault.new ≡ V.contents vault.old) }
        ensures tells { Tells (V.tally vault.old) (V.tally vault.new) result }
    {
        let changes = queue_changes(self.alloc, with, queues)?;
        put_new(vault, &mut self.queues, queues, &changes)
    }

    /// Adds queues of a new peer, behind the others, and sets the last pushed ids of these regions, of two for one region the
    /// later, with other changes of records: one put. After an error nothing is changed.
    pub fn add_peer<V: Vault>(
        &mut self,
        vault: &mut V,
        peer: PeerId,
        queues: &[QueueRecord],
        ids: &[LastId],
        with: Vec<Change>,
    ) -> Result<(), QueueError>
        ensures queues { OnOk result (self.new.queues ≡ self.old.queues ++ queues.now) }
        ensures ids { OnOk result (ArePushed peer ids.now self.old.ids self.new.ids) }
        ensures forms { self.new.forms ≡ self.old.forms }
        ensures records { OnOk result (V.contents vault.new
            ≡ with_records ((with.items ++ map queue_change queues.now) ++ map (last_change peer) ids.now) (V.contents vault.old)) }
        ensures recorded { OnOk result (Recorded (V.contents vault.old) self.old → AreApart (self.old.queues ++ queues.now) → AreBeside with.items
            → Recorded (V.contents vault.new) self.new) }
        ensures found { result ≢ Err NoQueue }
        ensures err { OnErr result (self.new ≡ self.old) }
        ensures stays { OnErr result (V.contents vault.new ≡ V.contents vault.old) }
        ensures tells { Tells (V.tally vault.old) (V.tally vault.new) result }
    {
        let changes = queue_changes(self.alloc, with, queues)?;
        let changes = last_changes(self.alloc, changes, peer, ids)?;
        know_of(&mut self.ids, peer, ids)?;
        put_new(vault, &mut self.queues, queues, &changes)?;
        set_of(&mut self.ids, peer, ids);
        Ok(())
    }

    /// A server has a new greatest log, which its queues' records list that list logs, with other changes of records: one put.
    /// After an error nothing is changed.
    pub fn add_log<V: Vault>(
        &mut self,
        vault: &mut V,
        server: ServerId,
        log: u32,
        with: Vec<Change>,
    ) -> Result<(), QueueError>
        ensures queues { OnOk result (self.new.queues ≡ map (logged server log) self.old.queues) }
        ensures ids { self.new.ids ≡ self.old.ids }
        ensures forms { self.new.forms ≡ self.old.forms }
        ensures records { OnOk result (V.contents vault.new ≡ with_records (with.items ++ log_changes server log self.old.queues) (V.contents vault.old)) }
        ensures recorded { OnOk result (Recorded (V.contents vault.old) self.old → AreBeside with.items → Recorded (V.contents vault.new) self.new) }
        ensures found { result ≢ Err NoQueue }
        ensures err { OnErr result (self.new ≡ self.old) }
        ensures stays { OnErr result (V.contents vault.new ≡ V.contents vault.old) }
        ensures tells { Tells (V.tally vault.old) (V.tally vault.new) result }
    {
        let next = queues_logged(self.alloc, self.queues.as_slice(), server, log)?;
        let changes = log_changes(self.alloc, with, server, next.as_slice())?;
        put(vault, &changes)?;
        self.queues = next;
        Ok(())
    }

    /// A peer's queues and last pushed ids go, with other changes of records: one put. After an error nothing is changed.
    pub fn drop_peer<V: Vault>(
        &mut self,
        vault: &mut V,
        peer: PeerId,
        with: Vec<Change>,
    ) -> Result<(), QueueError>
        ensures queues { OnOk result (self.new.queues ≡ filter (is_of_another peer) self.old.queues) }
        ensures ids { OnOk result (AreDropped peer self.old.ids self.new.ids) }
        ensures forms { self.new.forms ≡ self.old.forms }
        ensures records { OnOk result (V.contents vault.new ≡ with_records (with.items ++ peer_dropped peer self.old) (V.contents vault.old)) }
        ensures recorded { OnOk result (Recorded (V.contents vault.old) self.old → AreBeside with.items → Recorded (V.contents vault.new) self.new) }
        ensures found { result ≢ Err NoQueue }
        ensures err { OnErr result (self.new ≡ self.old) }
        ensures stays { OnErr result (V.contents vault.new ≡ V.contents vault.old) }
        ensures tells { Tells (V.tally vault.old) (V.tally vault.new) result }
    {
        let next = queues_of_others(self.alloc, self.queues.as_slice(), peer)?;
        let changes = queues_dropped(self.alloc, with, peer, self.queues.as_slice())?;
        let ids = of_peer(&self.ids, peer).as_slice();
        let changes = lasts_dropped(self.alloc, changes, peer, ids)?;
        put(vault, &changes)?;
        self.queues = next;
        drop_of(self.alloc, &mut self.ids, peer);
        Ok(())
    }

    /// A queue's outstanding flight, or that it has none. No record says it. Where there is no such queue nothing changes.
    pub fn set_flight(&mut self, peer: PeerId, server: ServerId, flight: Option<u32>)
        ensures queues { MatchOption (queue_at peer server self.old.queues) (self.new.queues ≡ self.old.queues)
            (λ q. self.new.queues ≡ replace (is_queue peer server) (flies flight q) self.old.queues) }
        ensures ids { self.new.ids ≡ self.old.ids }
        ensures forms { self.new.forms ≡ self.old.forms }
        ensures recorded { (c : Contents) → Recorded c self.old → Recorded c self.new }
    {
        let next = find_turned(&self.queues, peer, server, &Turn::Flies { flight });
        if let Some(next) = next {
            *self.queues.at_mut(next.at) = next.queue;
        }
    }

    /// Sets a queue's place, behind so many commits, and the last pushed ids of these regions, of two for one region the later:
    /// one put. No flight is outstanding then. After an error nothing is changed.
    pub fn record_place<V: Vault>(
        &mut self,
        vault: &mut V,
        peer: PeerId,
        server: ServerId,
        place: Place,
        at: u64,
        ids: &[LastId],
    ) -> Result<(), QueueError>
        ensures queues { OnOk result (IfSome (queue_at peer server self.old.queues) (λ q. self.new.queues ≡ replace (is_queue peer server) (placed place at q) self.old.queues)) }
        ensures ids { OnOk result (ArePushed peer ids.now self.old.ids self.new.ids) }
        ensures forms { self.new.forms ≡ self.old.forms }
        ensures records { OnOk result (IfSome (queue_at peer server self.old.queues) (λ q. V.contents vault.new
            ≡ with_records (queue_change (placed place at q) ∷ map (last_change peer) ids.now) (V.contents vault.old))) }
        ensures recorded { OnOk result (Recorded (V.contents vault.old) self.old → Recorded (V.contents vault.new) self.new) }
        ensures none { MatchOption (queue_at peer server self.old.queues) (result ≡ Err NoQueue) (λ q. result ≢ Err NoQueue) }
        ensures err { OnErr result (self.new ≡ self.old) }
        ensures stays { OnErr result (V.contents vault.new ≡ V.contents vault.old) }
        ensures tells { Tells (V.tally vault.old) (V.tally vault.new) result }
    {
        let turned = find_turned(&self.queues, peer, server, &Turn::Placed { place, at });
        let Some(next) = turned else {
            return Err(QueueError::NoQueue);
        };
        let changes = queue_changes(self.alloc, Vec::new(self.alloc), &[next.queue])?;
        let changes = last_changes(self.alloc, changes, peer, ids)?;
        know_of(&mut self.ids, peer, ids)?;
        put_turned(vault, &mut self.queues, &next, &changes)?;
        set_of(&mut self.ids, peer, ids);
        Ok(())
    }

    /// Gives a queue another owner, and no outstanding flight: one put. After an error nothing is changed.
    pub fn claim<V: Vault>(
        &mut self,
        vault: &mut V,
        peer: PeerId,
        server: ServerId,
        by: ServerId,
    ) -> Result<(), QueueError>
        ensures queues { OnOk result (IfSome (queue_at peer server self.old.queues) (λ q. self.new.queues ≡ replace (is_queue peer server) (owned by q) self.old.queues)) }
        ensures ids { self.new.ids ≡ self.old.ids }
        ensures forms { self.new.forms ≡ self.old.forms }
        ensures records { OnOk result (IfSome (queue_at peer server self.old.queues) (λ q. V.contents vault.new
            ≡ with_records (queue_change (owned by q) ∷ []) (V.contents vault.old))) }
        ensures recorded { OnOk result (Recorded (V.contents vault.old) self.old → Recorded (V.contents vault.new) self.new) }
        ensures none { MatchOption (queue_at peer server self.old.queues) (result ≡ Err NoQueue) (λ q. result ≢ Err NoQueue) }
        ensures err { OnErr result (self.new ≡ self.old) }
        ensures stays { OnErr result (V.contents vault.new ≡ V.contents vault.old) }
        ensures tells { Tells (V.tally vault.old) (V.tally vault.new) result }
    {
        let Some(next) = find_turned(&self.queues, peer, server, &Turn::Owned { by }) else {
            return Err(QueueError::NoQueue);
        };
        let changes = queue_changes(self.alloc, Vec::new(self.alloc), &[next.queue])?;
        put_turned(vault, &mut self.queues, &next, &changes)
    }

    /// A queue's record is grouped from now on: one put. After an error nothing is changed.
    pub fn migrate<V: Vault>(
        &mut self,
        vault: &mut V,
        peer: PeerId,
        server: ServerId,
    ) -> Result<(), QueueError>
        ensures queues { OnOk result (IfSome (queue_at peer server self.old.queues) (λ q. self.new.queues ≡ replace (is_queue peer server) (grouped q) self.old.queues)) }
        ensures ids { self.new.ids ≡ self.old.ids }
        ensures forms { self.new.forms ≡ self.old.forms }
        ensures records { OnOk result (IfSome (queue_at peer server self.old.queues) (λ q. V.contents vault.new
            ≡ with_records (queue_change (grouped q) ∷ []) (V.contents vault.old))) }
        ensures recorded { OnOk result (Recorded (V.contents vault.old) self.old → Recorded (V.contents vault.new) self.new) }
        ensures none { MatchOption (queue_at peer server self.old.queues) (result ≡ Err NoQueue) (λ q. result ≢ Err NoQueue) }
        ensures err { OnErr result (self.new ≡ self.old) }
        ensures stays { OnErr result (V.contents vault.new ≡ V.contents vault.old) }
        ensures tells { Tells (V.tally vault.old) (V.tally vault.new) result }
    {
        let Some(next) = find_turned(&self.queues, peer, server, &Turn::Grouped) else {
            return Err(QueueError::NoQueue);
        };
        let changes = queue_changes(self.alloc, Vec::new(self.alloc), &[next.queue])?;
        put_turned(vault, &mut self.queues, &next, &changes)
    }

    /// The records of queues to be made, and those that there are, have these forms: one put. After an error nothing is changed.
    pub fn set_forms<V: Vault>(
        &mut self,
        vault: &mut V,
        forms: QueueForms,
    ) -> Result<(), QueueError>
        ensures queues { self.new.queues ≡ self.old.queues }
        ensures ids { self.new.ids ≡ self.old.ids }
        ensures forms { OnOk result (self.new.forms ≡ forms) }
        ensures records { OnOk result (V.contents vault.new ≡ with_records (forms_change forms ∷ []) (V.contents vault.old)) }
        ensures recorded { OnOk result (Recorded (V.contents vault.old) self.old → Recorded (V.contents vault.new) self.new) }
        ensures found { result ≢ Err NoQueue }
        ensures err { OnErr result (self.new ≡ self.old) }
        ensures stays { OnErr result (V.contents vault.new ≡ V.contents vault.old) }
        ensures tells { Tells (V.tally vault.old) (V.tally vault.new) result }
    {
        let change = forms_change(self.alloc, forms)?;
        put(vault, &[change])?;
        self.forms = forms;
        Ok(())
    }
}
