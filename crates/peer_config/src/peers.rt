ghost use Rattle.std.specs.Prelude.{◌≡◌, ◌++◌, [], ◌∷◌, None, Err, IfSome, OnOk, OnErr, IsOkUnless, position};
ghost use Rattle.std.specs.Option.{option_copied};
ghost use Rattle.peer_config.specs.Peers.{is_peer, added, peer_of, has_synchronous, taken, add_refusal, no_peer, remove_bar, serial_bar, remove_refusal, serial_refusal, Answers, Forms, new_peer, changed, stands, as_serial};
ghost use Rattle.peer_config.specs.Forms.{form};
ghost use Rattle.rep_model.specs.declared.machine.Standing.TheVariants as standing;
ghost use Rattle.rep_model.specs.Peers.{is_removed, is_synchronous};
ghost use Rattle.peer_config.specs.declared.error.PeerError.TheVariants as error;

use crate::forming::form_of;
use crate::{Peer, PeerError};
use rep_model::Standing;
use rep_types::{Cluster, Edit, Entry, Families, Items, Kind, Names, PeerId};
use std::alloc::Global;
use std::marker::Model;

/// The peers of a cluster in the order in which they were added, the removed ones too.
#[derive(Drop)]
pub struct Peers {
    peers: Items<Peer>,
}

impl Model for Peers {
    ghost use Rattle.std.specs.Prelude.{List};
    ghost use Rattle.peer_config.specs.declared.peer.Peer.{Peer};

    ghost Value = { List Peer };

    ghost view = { λ p. p.peers };
}

fn is_synchronous(kind: Kind) -> bool
    ensures { result ≡ is_synchronous kind }
{
    match kind {
        Kind::Plain => false,
        Kind::Serial => false,
        Kind::Synchronous => true,
    }
}

fn has_synchronous(peers: &[Peer]) -> bool
    ensures { result ≡ has_synchronous peers.now }
{
    peers.iter().any(|peer| is_synchronous(peer.kind))
}

fn taken(kind: Kind, peers: &[Peer]) -> bool
    ensures { result ≡ taken kind peers.now }
{
    match kind {
        Kind::Plain => false,
        Kind::Serial => false,
        Kind::Synchronous => has_synchronous(peers),
    }
}

fn place(peers: &[Peer], peer: PeerId) -> Option<usize>
    ensures { result ≡ position (is_peer peer) peers.now }
{
    peers
        .iter()
        .position(|other| other.number.number() == peer.number())
}

// Why a peer of this kind isn't removed.
fn remove_bar(kind: Kind) -> Option<PeerError>
    ensures { result ≡ remove_bar kind }
{
    match kind {
        Kind::Plain => None,
        Kind::Serial => None,
        Kind::Synchronous => Some(PeerError::IsSync),
    }
}

// Why a peer of this kind isn't made serial.
fn serial_bar(kind: Kind) -> Option<PeerError>
    ensures { result ≡ serial_bar kind }
{
    match kind {
        Kind::Plain => None,
        Kind::Serial => Some(PeerError::IsSerial),
        Kind::Synchronous => Some(PeerError::IsSync),
    }
}

fn answer(refusal: Option<PeerError>) -> Result<(), PeerError>
    ensures { Answers refusal result }
{
    match refusal {
        None => Ok(()),
        Some(refusal) => Err(refusal),
    }
}

fn is_removed(standing: Standing) -> bool
    ensures { result ≡ is_removed standing }
{
    match standing {
        Standing::Enabled => false,
        Standing::Disabled => false,
        Standing::Removed => true,
    }
}

fn ever_added(peers: &[Peer], peer: PeerId) -> Option<&Peer>
    ensures { option_copied result ≡ added peer peers.now }
{
    peers
        .iter()
        .find(|other| other.number.number() == peer.number())
}

fn set_standing(peers: &mut Items<Peer>, peer: PeerId, standing: Standing)
    ensures { peers.new ≡ changed peer (stands standing) peers.old }
{
    match place(peers.as_slice(), peer) {
        Some(at) => peers.at_mut(at).standing = standing,
        None => {}
    }
}

fn set_serial(peers: &mut Items<Peer>, peer: PeerId)
    ensures { peers.new ≡ changed peer as_serial peers.old }
{
    match place(peers.as_slice(), peer) {
        Some(at) => peers.at_mut(at).kind = Kind::Serial,
        None => {}
    }
}

impl Peers {
    /// No peer was ever added.
    pub fn new(alloc: Global) -> Peers
        ensures { result ≡ [] }
    {
        Peers {
            peers: Items::new(alloc),
        }
    }

    /// All that were ever added, in order.
    pub fn as_slice(&self) -> &[Peer]
        ensures { result.now ≡ self.now }
    {
        self.peers.as_slice()
    }

    /// The peer, if it was added and isn't removed.
    pub fn get(&self, peer: PeerId) -> Option<&Peer>
        ensures { option_copied result ≡ peer_of peer self.now }
    {
        match ever_added(self.peers.as_slice(), peer) {
            None => None,
            Some(found) => {
                if is_removed(found.standing) {
                    None
                } else {
                    Some(found)
                }
            }
        }
    }

    fn add_refusal(&self, peer: PeerId, kind: Kind) -> Option<PeerError>
        ensures { result ≡ add_refusal peer kind self.now }
    {
        let peers = self.peers.as_slice();
        if ever_added(peers, peer).is_some() {
            Some(PeerError::Exists)
        } else if taken(kind, peers) {
            Some(PeerError::SyncTaken)
        } else {
            None
        }
    }

    /// The refusal of `add` other than want of memory.
    pub fn may_add(&self, peer: PeerId, kind: Kind, _tables: &Names) -> Result<(), PeerError>
        ensures { Answers (add_refusal peer kind self.now) result }
    {
        answer(self.add_refusal(peer, kind))
    }

    /// Adds an enabled peer under a number that was never used. A cluster has one synchronous peer.
    pub fn add(&mut self, peer: PeerId, kind: Kind, tables: Names) -> Result<(), PeerError>
        ensures refused { IfSome (add_refusal peer kind self.old) (λ e. result ≡ Err e) }
        ensures accepted { add_refusal peer kind self.old ≡ None → IsOkUnless result error.Memory }
        ensures ok { OnOk result (self.new ≡ self.old ++ new_peer peer kind tables ∷ []) }
        ensures err { OnErr result (self.new ≡ self.old) }
    {
        if let Some(refusal) = self.add_refusal(peer, kind) {
            return Err(refusal);
        }
        self.peers.push(Peer {
            number: peer,
            kind,
            tables,
            standing: Standing::Enabled,
        })?;
        Ok(())
    }

    /// The refusal of `enable`.
    pub fn may_enable(&self, peer: PeerId) -> Result<(), PeerError>
        ensures { Answers (no_peer (peer_of peer self.now)) result }
    {
        match self.get(peer) {
            None => Err(PeerError::NoPeer),
            Some(_) => Ok(()),
        }
    }

    pub fn enable(&mut self, peer: PeerId) -> Result<(), PeerError>
        ensures answers { Answers (no_peer (peer_of peer self.old)) result }
        ensures ok { OnOk result (self.new ≡ changed peer (stands standing.Enabled) self.old) }
        ensures err { OnErr result (self.new ≡ self.old) }
    {
        self.may_enable(peer)?;
        set_standing(&mut self.peers, peer, Standing::Enabled);
        Ok(())
    }

    /// The refusal of `disable`.
    pub fn may_disable(&self, peer: PeerId) -> Result<(), PeerError>
        ensures { Answers (no_peer (peer_of peer self.now)) result }
    {
        match self.get(peer) {
            None => Err(PeerError::NoPeer),
            Some(_) => Ok(()),
        }
    }

    pub fn disable(&mut self, peer: PeerId) -> Result<(), PeerError>
        ensures answers { Answers (no_peer (peer_of peer self.old)) result }
        ensures ok { OnOk result (self.new ≡ changed peer (stands standing.Disabled) self.old) }
        ensures err { OnErr result (self.new ≡ self.old) }
    {
        self.may_disable(peer)?;
        set_standing(&mut self.peers, peer, Standing::Disabled);
        Ok(())
    }

    /// The refusal of `remove`.
    pub fn may_remove(&self, peer: PeerId) -> Result<(), PeerError>
        ensures { Answers (remove_refusal (peer_of peer self.now)) result }
    {
        match self.get(peer) {
            None => Err(PeerError::NoPeer),
            Some(found) => answer(remove_bar(found.kind)),
        }
    }

    /// Removes a peer that isn't synchronous, for good.
    pub fn remove(&mut self, peer: PeerId) -> Result<(), PeerError>
        ensures answers { Answers (remove_refusal (peer_of peer self.old)) result }
        ensures ok { OnOk result (self.new ≡ changed peer (stands standing.Removed) self.old) }
        ensures err { OnErr result (self.new ≡ self.old) }
    {
        self.may_remove(peer)?;
        set_standing(&mut self.peers, peer, Standing::Removed);
        Ok(())
    }

    /// The refusal of `make_serial`.
    pub fn may_make_serial(&self, peer: PeerId) -> Result<(), PeerError>
        ensures { Answers (serial_refusal (peer_of peer self.now)) result }
    {
        match self.get(peer) {
            None => Err(PeerError::NoPeer),
            Some(found) => answer(serial_bar(found.kind)),
        }
    }

    /// Makes a plain peer serial.
    pub fn make_serial(&mut self, peer: PeerId) -> Result<(), PeerError>
        ensures answers { Answers (serial_refusal (peer_of peer self.old)) result }
        ensures ok { OnOk result (self.new ≡ changed peer as_serial self.old) }
        ensures err { OnErr result (self.new ≡ self.old) }
    {
        self.may_make_serial(peer)?;
        set_serial(&mut self.peers, peer);
        Ok(())
    }

    /// What is shipped of an entry: its edit cut to the cells of families with scope 1, where the entry is a write of a
    /// table that the peer covers, the destination isn't among the marks, and a cell is left.
    pub fn form(
        &self,
        alloc: Global,
        peer: PeerId,
        families: &Families,
        destination: Cluster,
        entry: &Entry,
    ) -> Result<Option<Edit>, PeerError>
        ensures none { peer_of peer self.now ≡ None → result ≡ Err error.NoPeer }
        ensures some { IfSome (peer_of peer self.now) (λ p. Forms (form destination p.tables families.now entry.now) result) }
    {
        match self.get(peer) {
            None => Err(PeerError::NoPeer),
            Some(found) => Ok(form_of(alloc, destination, &found.tables, families, entry)?),
        }
    }
}
