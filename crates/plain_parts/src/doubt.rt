// The tickets that a loss makes doubtful.
ghost use Rattle.std.specs.Prelude.{◌≡◌, ◌∷◌, [], ◌==◌, ◌&&◌, not, IfOk};
ghost use Rattle.rep_model.specs.Tickets.{doubt_pending, tell_waiting, is_doubtful, newly};
ghost use Rattle.rep_model.specs.declared.machine.Told.TheVariants as told;

use crate::sides::mark;
use crate::tickets::{tell, ticket_number};
use rep_model::{Pending, Ticket, Told};
use rep_types::{Cluster, Items, Memory, ServerId, Tickets};
use std::alloc::Global;

/// The tickets of these pending entries are doubtful.
pub fn doubt_pending(tickets: &mut Items<Ticket>, pending: &[Pending])
    ensures told { tickets.new ≡ doubt_pending pending.now tickets.old }
{
    for entry in pending {
        tell(tickets, entry.ticket, Told::Doubtful);
    }
}

// What the ticket is told once the server has died.
fn after_death(ticket: &Ticket, cluster: Cluster, server: ServerId) -> Told
    ensures { tell_waiting cluster (λ t log. t == server) (λ _. told.Doubtful) (ticket.now ∷ []) ≡ record ticket.now { told = result } ∷ [] }
{
    match &ticket.told {
        Told::Waiting { server: at, .. }
            if mark(ticket.cluster) == mark(cluster) && *at == server => { Told::Doubtful }
        _ => ticket.told,
    }
}

/// The tickets that wait for the remote copies of a server's logs are doubtful.
pub fn doubt_waiting(tickets: &mut Items<Ticket>, cluster: Cluster, server: ServerId)
    ensures told { tickets.new ≡ tell_waiting cluster (λ t log. t == server) (λ _. told.Doubtful) tickets.old }
{
    for at in 0..tickets.len() {
        let ticket = tickets.at_mut(at);
        ticket.told = after_death(ticket, cluster, server);
    }
}

fn is_doubtful(told: Told) -> bool
    ensures { result ≡ is_doubtful told }
{
    matches!(told, Told::Doubtful)
}

// Doubtful now, and not before.
fn is_newly_doubtful(before: Told, after: Told) -> bool
    ensures { result ≡ (is_doubtful after && not (is_doubtful before)) }
{
    is_doubtful(after) && !is_doubtful(before)
}

/// The numbers of the tickets that are doubtful now and weren't before, ascending.
pub fn newly_doubtful(alloc: Global, before: &[Ticket], after: &[Ticket]) -> Result<Tickets, Memory>
    ensures { IfOk result (λ numbers. numbers ≡ newly is_doubtful 1 before.now after.now) }
{
    let mut numbers = Items::new(alloc);
    for at in 0..before.len().min(after.len()) {
        if is_newly_doubtful(before[at].told, after[at].told) {
            numbers.push(ticket_number(at)?)?;
        }
    }
    Ok(numbers)
}
