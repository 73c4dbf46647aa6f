// The calls of stores that a record tells to have failed.
ghost use Rattle.std.specs.Prelude.{◌≡◌, [], ◌∷◌};
ghost use Rattle.rep_model.specs.LogEvents.{kept_of};
ghost use Rattle.rep_types.specs.declared.state.Call.TheVariants as Call;
ghost use Rattle.std.specs.List.{list_any};
ghost use Rattle.rep_model.specs.QueueEvents.{failing, failing_by, fails_at};
ghost use Rattle.rep_model.specs.Row.{call_number, fault_among, is_site, run_sites, site};

use crate::sides::mark;
use rep_model::{Failing, Site};
use rep_types::{Call, Cause, Cluster, Reply};

pub fn call_of(store: Cluster, call: Call) -> Site
    ensures { result ≡ site store call }
{
    Site { store, call }
}

// The call's place among the kinds of calls.
fn call_number(call: Call) -> u8
    ensures { result ≡ call_number call }
{
    match call {
        Call::Create => 0,
        Call::Append => 1,
        Call::Sync => 2,
        Call::Seal => 3,
        Call::Read => 4,
        Call::Make => 5,
        Call::Rename => 6,
        Call::Remove => 7,
        Call::List => 8,
        Call::Put => 9,
    }
}

fn is_site(store: Cluster, call: Call, site: &Site) -> bool
    ensures { result ≡ is_site store call site.now }
{
    mark(site.store) == mark(store) && call_number(site.call) == call_number(call)
}

fn is_among(store: Cluster, call: Call, sites: &[Site]) -> bool
    ensures { result ≡ list_any (is_site store call) sites.now }
{
    sites.iter().any(|site| is_site(store, call, site))
}

/// The call, among these, of which the reply says that it failed.
pub fn fault_among(sites: &[Site], said: &Reply) -> Option<Site>
    ensures sites { result ≡ fault_among sites.now said.now }
{
    match said {
        Reply::StoreFault { store, call, .. } => {
            if is_among(*store, *call, sites) {
                Some(Site {
                    store: *store,
                    call: *call,
                })
            } else {
                None
            }
        }
        _ => None,
    }
}

#[tactic(auto, unfolding(rep_model::specs::Keyed::given))]
fn failing_by(cluster: Cluster, index: u64, why: &Cause) -> Option<Failing>
    ensures { result ≡ failing_by cluster index why.now }
{
    match why {
        Cause::StoreFault { store, call, .. } => {
            let sites = [call_of(cluster, Call::Append), call_of(cluster, Call::Sync)];
            if is_among(*store, *call, &sites) {
                Some(Failing { index, why: *why })
            } else {
                None
            }
        }
        _ => None,
    }
}

/// What a reply tells of a failed append or sync on the cluster's store.
pub fn told_failing(cluster: Cluster, said: &Reply) -> Option<Failing>
    ensures value { result ≡ failing cluster said.now }
{
    match said {
        Reply::Stopped { index, cause, .. } => failing_by(cluster, *index, cause),
        _ => None,
    }
}

/// What fails at this form.
pub fn fails_at(failing: &Option<Failing>, index: u64) -> Option<Cause>
    ensures { result ≡ fails_at failing.now index }
{
    match failing {
        Some(failing) => {
            if failing.index == index {
                Some(failing.why)
            } else {
                None
            }
        }
        None => None,
    }
}

/// The call that failed of those that write a region's run.
pub fn run_fault(cluster: Cluster, said: &Reply) -> Option<Site>
    ensures sites { result ≡ fault_among (run_sites cluster (site cluster Call.Put ∷ [])) said.now }
{
    let sites = [
        call_of(cluster, Call::Create),
        call_of(cluster, Call::Append),
        call_of(cluster, Call::Sync),
        call_of(cluster, Call::Put),
    ];
    fault_among(&sites, said)
}

/// The call that failed of those that read a region's files and write a run.
pub fn rewrite_fault(cluster: Cluster, said: &Reply) -> Option<Site>
    ensures sites { result ≡ fault_among (site cluster Call.Read ∷ run_sites cluster (site cluster Call.Put ∷ [])) said.now }
{
    let sites = [
        call_of(cluster, Call::Read),
        call_of(cluster, Call::Create),
        call_of(cluster, Call::Append),
        call_of(cluster, Call::Sync),
        call_of(cluster, Call::Put),
    ];
    fault_among(&sites, said)
}

/// How many entries a store kept, by the reply of a roll, a seal or a replay.
pub fn kept_of(said: &Reply) -> u64
    ensures { result ≡ kept_of said.now }
{
    match said {
        Reply::Rolled { commits, .. } => *commits,
        Reply::Sealed { commits, .. } => *commits,
        Reply::Replayed { entries, .. } => *entries,
        _ => 0,
    }
}
