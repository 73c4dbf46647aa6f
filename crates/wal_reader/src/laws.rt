ghost use Rattle.std.specs.Prelude.{◌≡◌, ◌+◌, [], ◌++◌, ℕ, List, length};
ghost use Rattle.std.specs.List.{flat_map};
ghost use Rattle.rep_types.specs.declared.entry.Entry.{Entry};
ghost use Rattle.wal_entry.specs.Frame.{verdict};
ghost use Rattle.wal_entry.specs.Judging.{IsCut};
ghost use Rattle.wal_entry.specs.Spelling.{spelling};
ghost use Rattle.wal_reader.specs.Calls.{Call, Calls, pieces, given, AreFrames, EndsFrames};
ghost use Rattle.wal_reader.specs.Reader.{Reader, fed};

/// How a log is cut into pieces doesn't matter, nor when entries are asked for.
pub fn any_cutting()
    // Two pieces are one.
    ensures joined { (r : Reader) (first second : List ℕ)
        → fed second (fed first r) ≡ fed (first ++ second) r }
    // In one log the bytes are the frames of the entries given, and what is left.
    ensures parts { (old new : Reader) (calls : List Call) → Calls old calls new
        → AreFrames (old.left ++ pieces calls) (given calls) new.left }
    // The place is after these frames.
    ensures place { (old new : Reader) (calls : List Call) → Calls old calls new
        → new.place ≡ record old.place {
          offset = old.place.offset + length (flat_map spelling (given calls));
        } }
    // The entries of a log are given in order, each once: so far these, and more of them are left.
    ensures so_far { (old new : Reader) (calls : List Call) (entries : List Entry) (rest : List ℕ)
        → Calls old calls new → AreFrames (old.left ++ pieces calls) entries rest → EndsFrames rest
        → (more : List Entry) × (given calls ++ more ≡ entries) × AreFrames new.left more rest }
    // Once what is left is short or bad, all of them were given.
    ensures all { (old new : Reader) (calls : List Call) (entries : List Entry) (rest : List ℕ)
        → Calls old calls new → AreFrames (old.left ++ pieces calls) entries rest → EndsFrames rest
        → EndsFrames new.left → (given calls ≡ entries) × (new.left ≡ rest) }
    // Where nothing is left, it is short.
    ensures none { IsCut (verdict []) }
{}
