// What the words behind a command's first word mean, where nothing is kept of their texts.
#![tactic(auto, unfolding(crate::specs::Meanings::cluster_alone, crate::specs::Meanings::cluster_and_one, crate::specs::Meanings::cluster_and_two, crate::specs::Meanings::cluster_and_three))]

ghost use Rattle.std.specs.Prelude.{◌≡◌, Ok, Err, IfOk, IfErr};
ghost use Rattle.script_text.specs.Meanings.{cluster_alone, cluster_and_one, cluster_and_two, cluster_and_three, some_words, cluster_and_some, alone, on_cluster, on_server, on_region, on_peer, on_queue, on_place, on_flight, send, merge, claim, transit, fail, keep};
ghost use Rattle.script_text.specs.Words.{words_of};

use crate::forms::{
    call_word, cluster_word, flight_word, number_word, peer_word, region_word, server_word,
    state_word,
};
use crate::head::{Alone, OnCluster, OnFlight, OnPeer, OnPlace, OnQueue, OnRegion, OnServer};
use crate::makings::{
    alone_command, cluster_command, flight_command, peer_command, place_command, queue_command,
    region_command, server_command,
};
use crate::words::{four_words, has_word, one_word, three_words, two_words};
use crate::{Command, Rule};
use rep_types::{Cluster, Event};

fn cluster_alone(text: &[u8]) -> Result<Cluster, Rule>
    ensures { result ≡ cluster_alone (words_of text.now) }
{
    cluster_word(one_word(text)?)
}

pub fn cluster_and_one(text: &[u8]) -> Result<(Cluster, &[u8]), Rule>
    ensures words { IfOk result (λ p. cluster_and_one (words_of text.now) ≡ Ok (p.0, p.1.now)) }
    ensures refused { IfErr result (λ e. cluster_and_one (words_of text.now) ≡ Err e) }
{
    let (first, second) = two_words(text)?;
    let cluster = cluster_word(first)?;
    Ok((cluster, second))
}

pub fn cluster_and_two(text: &[u8]) -> Result<(Cluster, &[u8], &[u8]), Rule>
    ensures words { IfOk result (λ p. cluster_and_two (words_of text.now) ≡ Ok (p.0, p.1.now, p.2.now)) }
    ensures refused { IfErr result (λ e. cluster_and_two (words_of text.now) ≡ Err e) }
{
    let (first, second, third) = three_words(text)?;
    let cluster = cluster_word(first)?;
    Ok((cluster, second, third))
}

pub fn cluster_and_three(text: &[u8]) -> Result<(Cluster, &[u8], &[u8], &[u8]), Rule>
    ensures words { IfOk result (λ p. cluster_and_three (words_of text.now) ≡ Ok (p.0, p.1.now, p.2.now, p.3.now)) }
    ensures refused { IfErr result (λ e. cluster_and_three (words_of text.now) ≡ Err e) }
{
    let (first, second, third, fourth) = four_words(text)?;
    let cluster = cluster_word(first)?;
    Ok((cluster, second, third, fourth))
}

#[tactic(auto, unfolding(crate::specs::Meanings::alone))]
pub fn alone(word: Alone, text: &[u8]) -> Result<Command, Rule>
    ensures { result ≡ alone word (words_of text.now) }
{
    if has_word(text) {
        return Err(Rule::Words);
    }
    Ok(alone_command(word))
}

#[tactic(auto, unfolding(crate::specs::Meanings::on_cluster))]
pub fn on_cluster(word: OnCluster, text: &[u8]) -> Result<Command, Rule>
    ensures { result ≡ on_cluster word (words_of text.now) }
{
    let cluster = cluster_alone(text)?;
    Ok(cluster_command(word, cluster))
}

#[tactic(auto, unfolding(crate::specs::Meanings::on_server))]
pub fn on_server(word: OnServer, text: &[u8]) -> Result<Command, Rule>
    ensures { result ≡ on_server word (words_of text.now) }
{
    let (cluster, server) = cluster_and_one(text)?;
    let server = server_word(server)?;
    Ok(server_command(word, cluster, server))
}

#[tactic(auto, unfolding(crate::specs::Meanings::on_region))]
pub fn on_region(word: OnRegion, text: &[u8]) -> Result<Command, Rule>
    ensures { result ≡ on_region word (words_of text.now) }
{
    let (cluster, region) = cluster_and_one(text)?;
    let region = region_word(region)?;
    Ok(region_command(word, cluster, region))
}

#[tactic(auto, unfolding(crate::specs::Meanings::on_peer))]
pub fn on_peer(word: OnPeer, text: &[u8]) -> Result<Command, Rule>
    ensures { result ≡ on_peer word (words_of text.now) }
{
    let (cluster, peer) = cluster_and_one(text)?;
    let peer = peer_word(peer)?;
    Ok(peer_command(word, cluster, peer))
}

#[tactic(auto, unfolding(crate::specs::Meanings::on_queue))]
pub fn on_queue(word: OnQueue, text: &[u8]) -> Result<Command, Rule>
    ensures { result ≡ on_queue word (words_of text.now) }
{
    let (cluster, peer, server) = cluster_and_two(text)?;
    let peer = peer_word(peer)?;
    let server = server_word(server)?;
    Ok(queue_command(word, cluster, peer, server))
}

#[tactic(auto, unfolding(crate::specs::Meanings::on_place))]
pub fn on_place(word: OnPlace, text: &[u8]) -> Result<Command, Rule>
    ensures { result ≡ on_place word (words_of text.now) }
{
    let (cluster, region, server) = cluster_and_two(text)?;
    let region = region_word(region)?;
    let server = server_word(server)?;
    Ok(place_command(word, cluster, region, server))
}

#[tactic(auto, unfolding(crate::specs::Meanings::on_flight))]
pub fn on_flight(word: OnFlight, text: &[u8]) -> Result<Command, Rule>
    ensures { result ≡ on_flight word (words_of text.now) }
{
    let flight = one_word(text)?;
    let flight = flight_word(flight)?;
    Ok(flight_command(word, flight))
}

// Four words, of which the last may be left out.
#[tactic(auto, unfolding(crate::specs::Meanings::some_words))]
fn some_words<'a>(
    text: &'a [u8],
    last: &'a [u8],
) -> Result<(&'a [u8], &'a [u8], &'a [u8], &'a [u8]), Rule>
    ensures words { IfOk result (λ p. some_words last.now (words_of text.now) ≡ Ok (p.0.now, p.1.now, p.2.now, p.3.now)) }
    ensures refused { IfErr result (λ e. some_words last.now (words_of text.now) ≡ Err e) }
{
    match three_words(text) {
        Ok((first, second, third)) => Ok((first, second, third, last)),
        Err(_) => four_words(text),
    }
}

#[tactic(auto, unfolding(crate::specs::Meanings::cluster_and_some))]
fn cluster_and_some<'a>(
    text: &'a [u8],
    last: &'a [u8],
) -> Result<(Cluster, &'a [u8], &'a [u8], &'a [u8]), Rule>
    ensures words { IfOk result (λ p. cluster_and_some last.now (words_of text.now) ≡ Ok (p.0, p.1.now, p.2.now, p.3.now)) }
    ensures refused { IfErr result (λ e. cluster_and_some last.now (words_of text.now) ≡ Err e) }
{
    let (first, second, third, fourth) = some_words(text, last)?;
    let cluster = cluster_word(first)?;
    Ok((cluster, second, third, fourth))
}

#[tactic(auto, unfolding(crate::specs::Meanings::send))]
pub fn send(text: &[u8]) -> Result<Command, Rule>
    ensures { result ≡ send (words_of text.now) }
{
    let (cluster, peer, server, most) = cluster_and_some(text, b"25")?;
    let peer = peer_word(peer)?;
    let server = server_word(server)?;
    let most = number_word(most, 1, 1000)?;
    Ok(Command::Single(Event::Send {
        cluster,
        peer,
        server,
        most: most as u16,
    }))
}

#[tactic(auto, unfolding(crate::specs::Meanings::merge))]
pub fn merge(text: &[u8]) -> Result<Command, Rule>
    ensures { result ≡ merge (words_of text.now) }
{
    let (cluster, low, high) = cluster_and_two(text)?;
    let low = region_word(low)?;
    let high = region_word(high)?;
    Ok(Command::Single(Event::Merge { cluster, low, high }))
}

#[tactic(auto, unfolding(crate::specs::Meanings::claim))]
pub fn claim(text: &[u8]) -> Result<Command, Rule>
    ensures { result ≡ claim (words_of text.now) }
{
    let (cluster, by, server, peer) = cluster_and_three(text)?;
    let by = server_word(by)?;
    let server = server_word(server)?;
    let peer = peer_word(peer)?;
    Ok(Command::Single(Event::Claim {
        cluster,
        by,
        server,
        peer,
    }))
}

#[tactic(auto, unfolding(crate::specs::Meanings::transit))]
pub fn transit(text: &[u8]) -> Result<Command, Rule>
    ensures { result ≡ transit (words_of text.now) }
{
    let (cluster, state) = cluster_and_one(text)?;
    let state = state_word(state)?;
    Ok(Command::Single(Event::TransitBegin { cluster, state }))
}

#[tactic(auto, unfolding(crate::specs::Meanings::fail))]
pub fn fail(text: &[u8]) -> Result<Command, Rule>
    ensures { result ≡ fail (words_of text.now) }
{
    let (cluster, call, nth, bytes) = cluster_and_some(text, b"0")?;
    let call = call_word(call)?;
    let nth = number_word(nth, 1, 1_000_000)?;
    let bytes = number_word(bytes, 0, 65_536)?;
    Ok(Command::Fail {
        cluster,
        call,
        nth,
        bytes,
    })
}

#[tactic(auto, unfolding(crate::specs::Meanings::keep))]
pub fn keep(text: &[u8]) -> Result<Command, Rule>
    ensures { result ≡ keep (words_of text.now) }
{
    let (cluster, bytes) = cluster_and_one(text)?;
    let bytes = number_word(bytes, 0, 65_536)?;
    Ok(Command::Keep { cluster, bytes })
}
