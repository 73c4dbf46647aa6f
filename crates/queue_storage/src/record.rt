// The record of a queue, and those of last pushed ids and of forms, as changes of a store.
ghost use Rattle.std.specs.Prelude.{◌≡◌, ◌++◌, OnOk, IfOk};
ghost use Rattle.std.specs.Fmt.{decimal};
ghost use Rattle.rep_types.specs.declared.state.QueueForm.TheVariants.{Listed, Grouped};
ghost use Rattle.queue_storage.specs.Changes.{queue_dropped, last_dropped};
ghost use Rattle.queue_storage.specs.Texts.{logs_text, place_text, words, queue_text, queue_key, last_key, last_text, queue_change, last_change, forms_text, forms_change};

use last_ids::LastId;
use rep_types::{Bytes, Items, Memory, PeerId, Place, QueueForm, QueueForms, ServerId, Text};
use rep_vault::Change;
use std::alloc::Global;
use std::io;
use std::io::Write;

/// A peer's queue for the logs of a server. Its flight and its head are of memory alone, and stand in no record.
#[derive(Clone, Copy)]
pub struct QueueRecord {
    pub peer: PeerId,
    pub server: ServerId,
    /// The server that ships it.
    pub owner: ServerId,
    /// The form of its record.
    pub form: QueueForm,
    pub start: Place,
    /// The place up to which its entries are recorded.
    pub place: Place,
    /// The greatest log that the listed form names.
    pub log: u32,
    /// The outstanding flight.
    pub flight: Option<u32>,
    /// How many of the server's commits stand before the queue's head.
    pub at: u64,
}

fn write_logs(out: &mut Vec<u8>, first: u32, last: u32) -> io::Result<()>
    ensures { OnOk result (out.new.items ≡ out.old.items ++ logs_text first last) }
{
    write!(out, "{first}")?;
    for before in first..last {
        let log = before + 1;
        write!(out, ",{log}")?;
    }
    Ok(())
}

fn write_place(out: &mut Vec<u8>, place: Place) -> io::Result<()>
    ensures { OnOk result (out.new.items ≡ out.old.items ++ place_text place) }
{
    let Place { log, offset } = place;
    write!(out, "{log} {offset}")
}

fn write_listed(out: &mut Vec<u8>, queue: &QueueRecord) -> io::Result<()>
    ensures { OnOk result (out.new.items ≡ out.old.items ++ words Listed queue.now.owner queue.now.start queue.now.place queue.now.log) }
{
    let owner = queue.owner;
    let offset = queue.place.offset;
    write!(out, "{owner} ")?;
    write_place(out, queue.start)?;
    write!(out, " {offset} ")?;
    write_logs(out, queue.place.log, queue.log)
}

fn write_grouped(out: &mut Vec<u8>, queue: &QueueRecord) -> io::Result<()>
    ensures { OnOk result (out.new.items ≡ out.old.items ++ words Grouped queue.now.owner queue.now.start queue.now.place queue.now.log) }
{
    let owner = queue.owner;
    write!(out, "group {owner} ")?;
    write_place(out, queue.start)?;
    write!(out, " ")?;
    write_place(out, queue.place)
}

fn write_queue(out: &mut Vec<u8>, queue: &QueueRecord) -> io::Result<()>
    ensures { OnOk result (out.new.items ≡ out.old.items ++ queue_text queue.now) }
{
    match queue.form {
        QueueForm::Listed => write_listed(out, queue),
        QueueForm::Grouped => write_grouped(out, queue),
    }
}

fn write_number(out: &mut Vec<u8>, number: u64) -> io::Result<()>
    ensures { OnOk result (out.new.items ≡ out.old.items ++ decimal number) }
{
    write!(out, "{number}")
}

fn queue_key(alloc: Global, queue: &QueueRecord) -> Result<Text, Memory>
    ensures { IfOk result (λ key. key ≡ queue_key queue.now.peer queue.now.server) }
{
    let peer = queue.peer;
    let server = queue.server;
    Text::new(alloc, format!(in alloc; "queue/{peer}/{server}")?.as_str())
}

fn last_key(alloc: Global, peer: PeerId, last: &LastId) -> Result<Text, Memory>
    ensures { IfOk result (λ key. key ≡ last_key peer last.now.region) }
{
    let region = last.region;
    Text::new(alloc, format!(in alloc; "last/{peer}/{region}")?.as_str())
}

/// The record of a queue as it is.
pub fn queue_change(alloc: Global, queue: &QueueRecord) -> Result<Change, Memory>
    ensures { IfOk result (λ change. change ≡ queue_change queue.now) }
{
    let key = queue_key(alloc, queue)?;
    let mut text = Vec::new(alloc);
    if write_queue(&mut text, queue).is_err() {
        return Err(Memory);
    }
    Ok(Change {
        key,
        value: Some(Items::from_vec(text)),
    })
}

/// No record of a queue.
pub fn queue_dropped(alloc: Global, queue: &QueueRecord) -> Result<Change, Memory>
    ensures { IfOk result (λ change. change ≡ queue_dropped queue.now) }
{
    Ok(Change {
        key: queue_key(alloc, queue)?,
        value: None,
    })
}

fn last_text(alloc: Global, seq: u64) -> Result<Option<Bytes>, Memory>
    ensures { IfOk result (λ text. text ≡ last_text seq) }
{
    if seq == 0 {
        return Ok(None);
    }
    let mut text = Vec::new(alloc);
    if write_number(&mut text, seq).is_err() {
        return Err(Memory);
    }
    Ok(Some(Items::from_vec(text)))
}

/// The record of a peer's last pushed id; none where that is 0.
pub fn last_change(alloc: Global, peer: PeerId, last: &LastId) -> Result<Change, Memory>
    ensures { IfOk result (λ change. change ≡ last_change peer last.now) }
{
    Ok(Change {
        key: last_key(alloc, peer, last)?,
        value: last_text(alloc, last.seq)?,
    })
}

/// No record of a peer's last pushed id.
pub fn last_dropped(alloc: Global, peer: PeerId, last: &LastId) -> Result<Change, Memory>
    ensures { IfOk result (λ change. change ≡ last_dropped peer last.now) }
{
    Ok(Change {
        key: last_key(alloc, peer, last)?,
        value: None,
    })
}

fn forms_text(alloc: Global, forms: QueueForms) -> Result<Option<Bytes>, Memory>
    ensures { IfOk result (λ text. text ≡ forms_text forms) }
{
    match forms {
        QueueForms::Old => Ok(Some(Items::from_slice(alloc, b"old")?)),
        QueueForms::Mixed => Ok(Some(Items::from_slice(alloc, b"mixed")?)),
        QueueForms::New => Ok(None),
    }
}

/// The record of the forms that a cluster's queue records have; none where all are grouped from the beginning.
pub fn forms_change(alloc: Global, forms: QueueForms) -> Result<Change, Memory>
    ensures { IfOk result (λ change. change ≡ forms_change forms) }
{
    Ok(Change {
        key: Text::new(alloc, "forms")?,
        value: forms_text(alloc, forms)?,
    })
}
