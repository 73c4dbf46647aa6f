// How tickets end.
ghost use Rattle.std.specs.Prelude.{◌≡◌, ◌+◌, ◌&&◌, not, IfOk};
ghost use Rattle.rep_model.specs.Tickets.{unless_told, tell_number, is_acknowledged, newly};

use rep_model::{Ticket, Told};
use rep_types::{Items, Memory, Tickets};
use std::alloc::Global;

fn unless_told(new: Told, old: Told) -> Told
    ensures { result ≡ unless_told new old }
{
    match old {
        Told::Pending => new,
        _ => old,
    }
}

/// The ticket, if there is one, is told so, unless it was told before.
#[tactic(auto, unfolding(rep_model::specs::Keyed::given))]
pub fn tell(tickets: &mut Items<Ticket>, ticket: Option<u32>, new: Told)
    ensures told { tickets.new ≡ tell_number ticket new tickets.old }
{
    let Some(number) = ticket else {
        return;
    };
    let at = (number as usize).saturating_sub(1);
    if at < tickets.len() {
        let ticket = tickets.at_mut(at);
        ticket.told = unless_told(new, ticket.told);
    }
}

fn is_acknowledged(told: Told) -> bool
    ensures { result ≡ is_acknowledged told }
{
    matches!(told, Told::Plain | Told::Synchronous { .. })
}

// Acknowledged now, and not before.
fn is_new(before: Told, after: Told) -> bool
    ensures { result ≡ (is_acknowledged after && not (is_acknowledged before)) }
{
    is_acknowledged(after) && !is_acknowledged(before)
}

/// The number of the ticket at this place, where it has one of 32 bits.
pub fn ticket_number(at: usize) -> Result<u32, Memory>
    ensures { IfOk result (λ number. number ≡ at + 1) }
{
    if at < 0xffff_ffff {
        Ok(at as u32 + 1)
    } else {
        Err(Memory)
    }
}

/// The numbers of the tickets that are acknowledged now and weren't before, ascending.
pub fn newly_acknowledged(
    alloc: Global,
    before: &[Ticket],
    after: &[Ticket],
) -> Result<Tickets, Memory>
    ensures { IfOk result (λ acks. acks ≡ newly is_acknowledged 1 before.now after.now) }
{
    let mut acks = Items::new(alloc);
    for at in 0..before.len().min(after.len()) {
        if is_new(before[at].told, after[at].told) {
            acks.push(ticket_number(at)?)?;
        }
    }
    Ok(acks)
}
