// How tickets that wait for a remote copy end.
ghost use Rattle.std.specs.Prelude.{◌≡◌, ◌∷◌, [], ◌==◌, ◌&&◌, true};
ghost use Rattle.rep_model.specs.Tickets.{tell_waiting};

use crate::sides::mark;
use rep_model::{Ticket, Told};
use rep_types::{Cluster, Items, ServerId};

// What the ticket is told where each one of the cluster that waits ends so.
fn ended(ticket: &Ticket, cluster: Cluster, end: &Told) -> Told
    ensures { tell_waiting cluster (λ s l. true) (λ x. end.now) (ticket.now ∷ []) ≡ (record ticket.now { told = result }) ∷ [] }
{
    match ticket.told {
        Told::Waiting { .. } => {
            if mark(ticket.cluster) == mark(cluster) {
                *end
            } else {
                ticket.told
            }
        }
        _ => ticket.told,
    }
}

/// The cluster's tickets that wait end so.
pub fn end_waiting(tickets: &mut Items<Ticket>, cluster: Cluster, end: &Told)
    ensures told { tickets.new ≡ tell_waiting cluster (λ s l. true) (λ x. end.now) tickets.old }
{
    for at in 0..tickets.len() {
        let ticket = tickets.at_mut(at);
        ticket.told = ended(ticket, cluster, end);
    }
}

// What the ticket is told where the copy of this log has taken what it waits for.
fn mirrored(ticket: &Ticket, cluster: Cluster, server: ServerId, log: u32) -> Told
    ensures { tell_waiting cluster (λ s l. (s == server) && (l == log)) (λ x. Told.Synchronous x) (ticket.now ∷ []) ≡ (record ticket.now { told = result }) ∷ [] }
{
    match &ticket.told {
        Told::Waiting {
            server: at,
            log: number,
            entry,
        } => {
            if mark(ticket.cluster) == mark(cluster) && (*at == server && *number == log) {
                Told::Synchronous { entry: *entry }
            } else {
                ticket.told
            }
        }
        _ => ticket.told,
    }
}

/// The cluster's tickets that wait for the copy of this log end.
pub fn end_log(tickets: &mut Items<Ticket>, cluster: Cluster, server: ServerId, log: u32)
    ensures told { tickets.new ≡ tell_waiting cluster (λ s l. (s == server) && (l == log)) (λ x. Told.Synchronous x) tickets.old }
{
    for at in 0..tickets.len() {
        let ticket = tickets.at_mut(at);
        ticket.told = mirrored(ticket, cluster, server, log);
    }
}
