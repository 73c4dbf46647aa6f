// A delivered flight is recorded.
ghost use Rattle.std.specs.Prelude.{◌≡◌, true, Some, map, IfOk, MatchResult};
ghost use Rattle.rep_types.specs.declared.event.Event.TheVariants as event;
ghost use Rattle.rep_vault.specs.Contents.{Contents};
ghost use Rattle.rep_model.specs.Calm.{is_calm};
ghost use Rattle.rep_model.specs.QueueEvents.{confirm_plan};
ghost use Rattle.rep_model.specs.Path.{refusal_of};
ghost use Rattle.rep_model.specs.State.{Route, of};
ghost use Rattle.rep_model.specs.Words.{is_in};
ghost use Rattle.rep_model.specs.declared.machine.Machine.{Machine};
ghost use Rattle.cluster_core.specs.Stands.{Stands};
ghost use Rattle.cluster_core.specs.Does.{Reached, sent_of, FliesOr};
ghost use Rattle.queue_events.specs.Flights.{IsFrom};
ghost use Rattle.queue_events.specs.Confirming.{MayConfirm, landed};

use crate::flights::{find_sent, is_out};
use cluster_core::{
    ClusterCore, CoreError, Sent, added_peer, find_line, is_live, set_landed, shelf_length,
};
use rep_types::{Items, Refusal, Reply};

/// The flight that may be recorded, or why it isn't.
fn may_confirm<'a>(
    core: &ClusterCore,
    flights: &'a Items<Sent>,
    flight: u32,
) -> Result<&'a Sent, Refusal>
    ensures { (way : Route) (c : Contents) (m : Machine) → Reached way m → Stands core.now.own c core.now (of core.now.own m)
        → flights.now ≡ map (sent_of way) m.flights → IsFrom core.now.own flight m
        → MatchResult result (λ sent. MayConfirm way core.now flight m sent.now) (λ why. refusal_of (confirm_plan flight m) ≡ Some why) }
{
    let Some(sent) = find_sent(flights, flight) else {
        return Err(Refusal::NoFlight);
    };
    let Some(_) = added_peer(&core.peers, sent.peer) else {
        return Err(Refusal::NoPeer);
    };
    let Some(line) = find_line(&core.lines, sent.peer, sent.server) else {
        return Err(Refusal::Stale { now: None });
    };
    if !is_out(line.flight, flight) {
        return Err(Refusal::Stale { now: line.flight });
    }
    if !is_live(&core.stations, line.owner) {
        return Err(Refusal::OwnerDead { by: line.owner });
    }
    if !sent.delivered {
        return Err(Refusal::NotDelivered { flight });
    }
    Ok(sent)
}

/// The queue's head stands behind the flight's entries.
#[tactic(auto, unfolding(rep_model::specs::Keyed::given))]
fn land(core: &mut ClusterCore, sent: &Sent)
    ensures { core.new ≡ landed sent.now core.old }
{
    let end = shelf_length(&core.index.shelves, sent.server);
    set_landed(&mut core.lines, sent.peer, sent.server, sent.entries, end);
}

/// The peer records the entries of a delivered flight, and the head of the queue that it was sent from
/// stands behind them. The core is that of the flight's source. No call of its store is made.
pub fn confirm(
    core: &mut ClusterCore,
    flights: &Items<Sent>,
    flight: u32,
) -> Result<Reply, CoreError>
    ensures does { (way : Route) (c : Contents) (m : Machine) → Reached way m → is_in way core.old.own ≡ true → Stands core.old.own c core.old (of core.old.own m)
        → flights.now ≡ map (sent_of way) m.flights → IsFrom core.old.own flight m
        → FliesOr way core.old.own (event.Confirm flight) m c core.old flights.now c core.new flights.now result }
    ensures calm { IfOk result (λ reply. is_calm reply ≡ true) }
{
    match may_confirm(core, flights, flight) {
        Ok(sent) => {
            land(core, sent);
            Ok(Reply::Recorded {
                entries: sent.entries,
            })
        }
        Err(why) => Ok(Reply::Refused(why)),
    }
}
