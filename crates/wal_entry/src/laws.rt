ghost use Rattle.std.specs.Prelude.{◌≡◌, ◌<◌, ◌≤◌, ◌++◌, ℕ, List, length, take, slice_index};
ghost use Rattle.wal_entry.specs.Decoded.{BeginsWithFrame};
ghost use Rattle.wal_entry.specs.Framed.{HasFrame};
ghost use Rattle.wal_entry.specs.Judging.{Place, Whole, Broken, Cut, IsCut};
ghost use Rattle.wal_entry.specs.Frame.{verdict};
ghost use Rattle.wal_entry.specs.Length.{frame_length_of};
ghost use Rattle.wal_entry.specs.Resumed.{HasSeen, fresh};
ghost use Rattle.wal_entry.specs.Spelling.{spelling};

use crate::Decoder;
use rep_types::Entry;

/// No spelling begins another. Each has the length that `Length` computes.
pub fn spellings_are_apart()
    ensures length { (entry : Entry) → length (spelling entry) ≡ frame_length_of entry }
    ensures apart { (entry other : Entry) (rest others : List ℕ) → HasFrame entry → HasFrame other
        → spelling entry ++ rest ≡ spelling other ++ others → (entry ≡ other) × (rest ≡ others) }
{}

/// Bytes that come in pieces: what was short may become a frame or bad, and nothing else changes.
pub fn pieces_agree()
    // A spelling is a frame, whatever follows.
    ensures whole { (entry : Entry) (rest : List ℕ) → HasFrame entry
        → verdict (spelling entry ++ rest) ≡ Whole entry (record { at = frame_length_of entry; end = frame_length_of entry; rest = rest }) }
    // And a frame is a spelling.
    ensures spelled { (bytes : List ℕ) (entry : Entry) (after : Place) → ((i : ℕ) → slice_index bytes i < 256)
        → verdict bytes ≡ Whole entry after → BeginsWithFrame bytes entry after.at }
    // Each proper prefix of a spelling is short.
    ensures prefix { (entry : Entry) (some : ℕ) → HasFrame entry → some < frame_length_of entry
        → IsCut (verdict (take some (spelling entry))) }
    // What is bad stays so, whatever follows.
    ensures bad { (bytes more : List ℕ) (at rule : ℕ) → verdict bytes ≡ Broken at rule
        → verdict (bytes ++ more) ≡ Broken at rule }
    // What is short ends in an item, and stays so while that doesn't stand whole.
    ensures short { (bytes more : List ℕ) (until : ℕ) → verdict bytes ≡ Cut until → length (bytes ++ more) < until
        → verdict (bytes ++ more) ≡ Cut until }
    // The item ends within the longest frame.
    ensures until { (bytes : List ℕ) (until : ℕ) → verdict bytes ≡ Cut until → (length bytes < until) × (until ≤ 8224) }
    // A new decoder goes on with any bytes, and one that was shown bytes with any that begin with them.
    ensures anew { (bytes : List ℕ) → HasSeen fresh bytes }
    ensures on { (decoder : Decoder) (bytes more : List ℕ) → HasSeen decoder bytes → HasSeen decoder (bytes ++ more) }
{}
