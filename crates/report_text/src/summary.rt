ghost use Rattle.std.specs.Prelude.{◌≡◌, ◌++◌, IfOk, OnOk, string_bytes};
ghost use Rattle.serde_json.specs.Data.{array};
ghost use Rattle.serde_json.specs.Written.{compact_text};
ghost use Rattle.serde_json.specs.View.{view};
ghost use Rattle.report_text.specs.StatusLine.{numbers_data, side_data, status_data, status_text};

use crate::words::state_word;
use rep_types::{Memory, ServerId, SideLine, StatusLine};
use serde_json::{Value, json};
use std::alloc::{AllocError, Global};

fn numbers_value(alloc: Global, servers: &[ServerId]) -> Result<Value, AllocError>
    ensures { IfOk result (λ v. view v ≡ array (numbers_data servers.now)) }
{
    let mut list = Vec::new(alloc);
    for server in servers {
        list.push(Value::from(server.number()))?;
    }
    Ok(Value::Array(list))
}

fn side_value(alloc: Global, side: &SideLine) -> Result<Value, AllocError>
    ensures { IfOk result (λ v. view v ≡ side_data side.now) }
{
    let live = numbers_value(alloc, side.live.as_slice())?;
    let commits = side.commits;
    let sync = state_word(side.sync);
    json!(in alloc; {"commits": commits, "live": live, "sync": sync})
}

fn status_value(alloc: Global, status: &StatusLine) -> Result<Value, AllocError>
    ensures { IfOk result (λ v. view v ≡ status_data status.now) }
{
    let a = side_value(alloc, &status.a)?;
    let b = side_value(alloc, &status.b)?;
    let flights = status.flights;
    let records = status.records;
    json!(in alloc; {"a": a, "b": b, "flights": flights, "records": records})
}

#[tactic(auto, using(crate::proofs::Floats::status_is_whole))]
fn status_json(alloc: Global, status: &StatusLine) -> Result<String, AllocError>
    ensures { IfOk result (λ text. string_bytes text ≡ compact_text (status_data status.now)) }
{
    let value = status_value(alloc, status)?;
    value.to_string(alloc)
}

/// Adds one line of JSON: for each cluster the number of its commits, its live servers and its
/// state; the number of flights; and the number of records. After Memory a part of these bytes may
/// stand at the end of `out`.
pub fn status_line(alloc: Global, status: &StatusLine, out: &mut Vec<u8>) -> Result<(), Memory>
    ensures text { OnOk result (out.new.items ≡ out.old.items ++ status_text status.now) }
{
    let text = status_json(alloc, status)?;
    out.extend_from_slice(text.as_bytes())?;
    out.push(b'\n')?;
    Ok(())
}
