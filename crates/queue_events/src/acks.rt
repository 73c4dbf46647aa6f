// The tickets that a delivery acknowledges, in ascending order.
ghost use Rattle.std.specs.Prelude.{◌≡◌, ◌≤◌, fold, length, position, OnOk};
ghost use Rattle.std.specs.List.{position_or_len};
ghost use Rattle.queue_events.specs.Acks.{is_above, put_in};

use rep_types::Memory;

// The first of them that is greater.
fn stop(acks: &[u32], ticket: u32) -> Option<usize>
    ensures { result ≡ position (is_above ticket) acks.now }
{
    acks.iter().position(|held| ticket < *held)
}

fn place(acks: &[u32], ticket: u32) -> usize
    ensures at { result ≡ position_or_len (is_above ticket) acks.now }
    ensures within { result ≤ length acks.now }
{
    match stop(acks, ticket) {
        Some(at) => at,
        None => acks.len(),
    }
}

fn add_ticket(acks: &mut Vec<u32>, ticket: u32) -> Result<(), Memory>
    ensures { OnOk result (acks.new.items ≡ put_in acks.old.items ticket) }
{
    let at = place(acks, ticket);
    acks.insert(at, ticket)?;
    Ok(())
}

/// Each of the tickets comes where its number belongs.
pub fn add_tickets(acks: &mut Vec<u32>, tickets: &[u32]) -> Result<(), Memory>
    ensures { OnOk result (acks.new.items ≡ fold put_in acks.old.items tickets.now) }
{
    for ticket in tickets {
        add_ticket(acks, *ticket)?;
    }
    Ok(())
}
