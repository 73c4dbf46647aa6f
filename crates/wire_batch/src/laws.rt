ghost use Rattle.std.specs.Prelude.{◌≡◌, ◌<◌, ℕ, List, length, slice_index};
ghost use Rattle.wire_batch.specs.Answers.{IsSpelled};
ghost use Rattle.wire_batch.specs.Batches.{HasBytes, batch_length};
ghost use Rattle.wire_batch.specs.Grammar.{verdict_of};
ghost use Rattle.wire_batch.specs.Reading.{Place, Whole};
ghost use Rattle.wire_batch.specs.Spelling.{batch_spelling};
ghost use Rattle.wire_batch.specs.declared.batch.Batch.{Batch};

/// A batch has one spelling, and the bytes are a batch exactly where they are its spelling.
pub fn batches_both_ways()
    ensures length { (batch : Batch) → length (batch_spelling batch) ≡ batch_length batch }
    // What is spelled is that batch.
    ensures whole { (batch : Batch) → HasBytes batch
        → (end : Place) × (verdict_of (batch_spelling batch) ≡ Whole batch end) }
    // And a batch is spelled so.
    ensures spelled { (bytes : List ℕ) (batch : Batch) (end : Place) → ((i : ℕ) → slice_index bytes i < 256)
        → verdict_of bytes ≡ Whole batch end → IsSpelled bytes batch }
    // No two batches have one spelling.
    ensures apart { (batch other : Batch) → HasBytes batch → HasBytes other
        → batch_spelling batch ≡ batch_spelling other → batch ≡ other }
{}
