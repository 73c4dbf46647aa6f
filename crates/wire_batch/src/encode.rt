ghost use Rattle.std.specs.Prelude.{◌≡◌, ◌≤◌, ◌+◌, ◌++◌, length, take, sum_by, All, OnOk, OnErr};
ghost use Rattle.wal_entry.specs.Length.{frame_length_of};
ghost use Rattle.wire_batch.specs.Batches.{IsForm, IsSendable};
ghost use Rattle.wire_batch.specs.Spelling.{heading_of, forms_spelling, heading_spelling, batch_spelling};

use crate::Batch;
use crate::heading::Heading;
use rep_types::{Bytes, Entry, Memory};
use wal_entry::{cluster_number, encode_frame, entry_length};

// The length of the frames together.
fn frames_length(forms: &[Entry]) -> u32
    requires { sum_by frame_length_of forms.now ≤ 65536 }
    ensures { result ≡ sum_by frame_length_of forms.now }
{
    let mut total = 0;
    for form in forms {
        total += entry_length(form);
    }
    total
}

// The fields before the forms.
fn heading_of(batch: &Batch) -> Heading
    requires { IsSendable batch.now }
    ensures { result ≡ heading_of batch.now }
{
    let forms = batch.forms.as_slice();
    Heading {
        length: 16 + frames_length(forms),
        cluster: batch.cluster,
        peer: batch.peer,
        server: batch.server,
        flight: batch.flight,
        count: forms.len() as u16,
    }
}

// Where memory runs out some of the fields may have been added.
fn push_heading(out: &mut Bytes, heading: Heading) -> Result<(), Memory>
    ensures ok { OnOk result (out.new ≡ out.old ++ heading_spelling heading) }
    ensures err { OnErr result (take (length out.old) out.new ≡ out.old) }
{
    let peer = heading.peer.number() as u8;
    let server = heading.server.number() as u16;
    out.extend_from_slice(&heading.length.to_be_bytes())?;
    out.extend_from_slice(&[cluster_number(heading.cluster), peer])?;
    out.extend_from_slice(&server.to_be_bytes())?;
    out.extend_from_slice(&heading.flight.to_be_bytes())?;
    out.extend_from_slice(&heading.count.to_be_bytes())?;
    out.extend_from_slice(&[0, 0])
}

fn push_forms(out: &mut Bytes, forms: &[Entry]) -> Result<(), Memory>
    requires { All IsForm forms.now }
    ensures ok { OnOk result (out.new ≡ out.old ++ forms_spelling forms.now) }
    ensures err { OnErr result (take (length out.old) out.new ≡ out.old) }
{
    for form in forms {
        encode_frame(form, out)?;
    }
    Ok(())
}

#[tactic(auto, unfolding(crate::specs::Spelling::batch_spelling))]
fn push_batch(batch: &Batch, out: &mut Bytes) -> Result<(), Memory>
    requires { IsSendable batch.now }
    ensures ok { OnOk result (out.new ≡ out.old ++ batch_spelling batch.now) }
    ensures err { OnErr result (take (length out.old) out.new ≡ out.old) }
{
    push_heading(out, heading_of(batch))?;
    push_forms(out, batch.forms.as_slice())
}

/// Adds the batch's one spelling at the end, 16 to 65,552 bytes.
pub fn encode_batch(batch: &Batch, out: &mut Bytes) -> Result<(), Memory>
    requires { IsSendable batch.now }
    ensures ok { OnOk result (out.new ≡ out.old ++ batch_spelling batch.now) }
    ensures err { OnErr result (out.new ≡ out.old) }
{
    let before = out.len();
    let pushed = push_batch(batch, out);
    if pushed.is_err() {
        out.truncate(before);
    }
    pushed
}
