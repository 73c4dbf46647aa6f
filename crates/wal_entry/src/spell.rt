ghost use Rattle.std.specs.Prelude.{◌≡◌, ◌++◌, length, take, OnOk, OnErr};
ghost use Rattle.wal_entry.specs.Frame.{cluster_of};
ghost use Rattle.wal_entry.specs.Spelling.{sized, cluster_number};

use rep_types::{Bytes, Cluster, Memory};

/// The number by which a cluster is spelled: 1 for a, 2 for b, 3 for c.
pub fn cluster_number(cluster: Cluster) -> u8
    ensures value { result ≡ cluster_number cluster }
{
    match cluster {
        Cluster::A => 1,
        Cluster::B => 2,
        Cluster::C => 3,
    }
}

/// The cluster that is spelled by a number from 1 to 3. Any other number gives c: whoever reads one judges it first.
pub fn cluster_of(number: u64) -> Cluster
    ensures value { result ≡ cluster_of number }
{
    match number {
        1 => Cluster::A,
        2 => Cluster::B,
        _ => Cluster::C,
    }
}

// Lengths fit their bytes by the types of what is written, which no clause tells here: so `% 256`.

/// Adds a name at the end, behind its length in one byte. A name has at most 16 bytes by its type; of a text with more
/// than 255 the length stands modulo 256. For want of memory a part may have been added.
pub fn push_name(out: &mut Bytes, text: &str) -> Result<(), Memory>
    ensures ok { OnOk result (out.new ≡ out.old ++ sized 1 text.now) }
    ensures err { OnErr result (take (length out.old) out.new ≡ out.old) }
{
    out.push((text.len() % 256) as u8)?;
    out.extend_from_slice(text.as_bytes())
}

/// Adds a key or a value at the end, behind its length in two bytes, the highest first. They have at most 16,384 bytes
/// by their types; of a text with more than 65,535 the length stands modulo 65,536. For want of memory a part may have
/// been added.
pub fn push_text(out: &mut Bytes, text: &[u8]) -> Result<(), Memory>
    ensures ok { OnOk result (out.new ≡ out.old ++ sized 2 text.now) }
    ensures err { OnErr result (take (length out.old) out.new ≡ out.old) }
{
    let size = (text.len() % 65536) as u16;
    out.extend_from_slice(&size.to_be_bytes())?;
    out.extend_from_slice(text)
}
