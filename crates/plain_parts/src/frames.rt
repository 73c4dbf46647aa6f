// How long the frames of a log are, in bytes.
ghost use Rattle.std.specs.Prelude.{◌≡◌, ◌+◌, ◌-◌, ◌^◌, ◌≤◌, min, nat_lt};
ghost use Rattle.rep_model.specs.Frames.{commits_length, pending_length};
ghost use Rattle.rep_model.specs.Commits.{log_commits};
ghost use Rattle.rep_model.specs.Places.{capped};

use rep_model::{Commit, Pending, Server, Side};
use rep_types::ServerId;
use wal_entry::kind_length;

/// The greatest length of a log, in bytes. Ours.
const LOG_LIMIT: u32 = 65_536;

fn log_length(commits: &[Commit], server: ServerId, log: u32) -> u32
    ensures { result ≡ capped (commits_length (log_commits server log commits.now)) }
{
    let mut total = 0u32;
    for commit in commits {
        if commit.server == server && commit.log == log {
            total = total.saturating_add(kind_length(&commit.kind));
        }
    }
    total
}

fn pending_length(pending: &[Pending]) -> u32
    ensures { result ≡ capped (pending_length pending.now) }
{
    let mut total = 0u32;
    for entry in pending {
        total = total.saturating_add(kind_length(&entry.kind));
    }
    total
}

/// The length of the frames in a server's current log; a greater one than 32 bits count is told as
/// the greatest number that they do.
pub fn used(side: &Side, server: &Server) -> u32
    ensures { result ≡ min (commits_length (log_commits server.now.number server.now.log side.now.commits) + pending_length server.now.pending) (2 ^ 32 - 1) }
{
    log_length(side.commits.as_slice(), server.number, server.log).saturating_add(pending_length(
        server.pending.as_slice(),
    ))
}

/// Whether a frame of this length, in bytes, would pass the limit of the server's current log.
pub fn lacks_room(side: &Side, server: &Server, need: u32) -> bool
    requires { need ≤ 8224 }
    ensures { result ≡ nat_lt 65536 (commits_length (log_commits server.now.number server.now.log side.now.commits) + pending_length server.now.pending + need) }
{
    used(side, server) > LOG_LIMIT - need
}
