ghost use Rattle.std.specs.Prelude.{◌≡◌, ◌+◌, ◌≤◌, ◌++◌, [], ◌∷◌, vec_len, vec_capacity, OnOk, OnErr};
ghost use Rattle.region_server.specs.Host.{with_ticket};

use rep_types::{Entry, Items, Memory};
use std::alloc::Global;
use std::mem;

// Room for one more item of both lists.
pub fn reserve(pending: &mut Vec<Entry>, tickets: &mut Vec<u32>) -> Result<(), Memory>
    ensures pending { pending.new.items ≡ pending.old.items }
    ensures tickets { tickets.new.items ≡ tickets.old.items }
    ensures entry { OnOk result (vec_len pending.new + 1 ≤ vec_capacity pending.new) }
    ensures ticket { OnOk result (vec_len tickets.new + 1 ≤ vec_capacity tickets.new) }
{
    pending.reserve(1)?;
    tickets.reserve(1)?;
    Ok(())
}

// One more entry, for which there is room.
pub fn pend(pending: &mut Vec<Entry>, entry: Entry)
    requires { vec_len pending.old + 1 ≤ vec_capacity pending.old }
    ensures { pending.new.items ≡ pending.old.items ++ entry ∷ [] }
{
    let Ok(()) = pending.push(entry) else {
        unreachable!()
    };
}

// The ticket of a put, for which there is room, or none.
pub fn wait(tickets: &mut Vec<u32>, ticket: Option<u32>)
    requires { vec_len tickets.old + 1 ≤ vec_capacity tickets.old }
    ensures { tickets.new.items ≡ with_ticket ticket tickets.old.items }
{
    let Some(ticket) = ticket else {
        return;
    };
    let Ok(()) = tickets.push(ticket) else {
        unreachable!()
    };
}

// The whole list, which is empty then.
pub fn take_all<T>(alloc: Global, list: &mut Vec<T>) -> Items<T>
    ensures all { result ≡ list.old.items }
    ensures left { list.new.items ≡ [] }
{
    Items::from_vec(mem::replace(list, Vec::new(alloc)))
}
