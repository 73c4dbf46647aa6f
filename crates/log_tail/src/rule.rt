// The rule of the table, and what each step of it tells: plain data of the proofs, of which no value is made.
ghost use Rattle.std.specs.Prelude.{◌≡◌, [], ◌∷◌};
ghost use Rattle.log_tail.specs.Knowing.{with_ready, with_published, with_closed, with_checked, with_read, LooksTo, PartsTo};

use atomic_table::{Join, Play, Split, TableRule};
use std::collections::LinkedList;

// What a seat knows. The pen's: the words published, those stored behind them that are not published yet, and whether it closed the tail.
// A reader's: the words below the length that it found last, those that it read, and what it found of the closed word.
pub struct Knows {
    pub capacity: u64,
    pub writes: bool,
    pub reads: bool,
    pub closed: bool,
    pub fresh: bool,
    pub ended: bool,
    pub looks: u64,
    pub log: LinkedList<u64>,
    pub ready: LinkedList<u64>,
    pub read: LinkedList<u64>,
}

pub struct Published;

impl<S> TableRule<S, Knows, usize> for Published {
    ghost use Rattle.log_tail.specs.Knowing.{first_pen, Kept};

    ghost holds = { λ capacity s. Kept capacity s.words s.views };

    ghost first = { first_pen };
}

// The pen stores a word behind the published ones.
pub struct Readies;

impl<S> Play<S, Knows> for Readies {
    ghost then = { λ s m n o. (o.0 ≡ with_ready m.0 (n ∷ [])) × (o.1 ≡ m.1) };
}

// The pen stores the length.
pub struct Publishes;

impl<S> Play<S, Knows> for Publishes {
    ghost then = { λ s m n o. (o.0 ≡ with_published m.0) × (o.1 ≡ m.1) };
}

// The pen stores the closed word.
pub struct Closes;

impl<S> Play<S, Knows> for Closes {
    ghost then = { λ s m n o. (o.0 ≡ with_closed m.0) × (o.1 ≡ m.1) };
}

// A reader loads the closed word.
pub struct Checks;

impl<S> Play<S, Knows> for Checks {
    ghost then = { λ s m n o. (o.0 ≡ with_checked m.0 n) × (o.1 ≡ m.1) };
}

// A reader loads the length.
pub struct Looks;

impl<S> Play<S, Knows> for Looks {
    ghost then = { λ s m n o. LooksTo m.0 n o.0 × (o.1 ≡ m.1) };
}

// A reader loads its next word.
pub struct Reads;

impl<S> Play<S, Knows> for Reads {
    ghost then = { λ s m n o. (o.0 ≡ with_read m.0 (n ∷ [])) × (o.1 ≡ m.1) };
}

// The pen, which took in a reader's seat, learns how far that reader came.
pub struct Parts;

impl<S> Play<S, Knows> for Parts {
    ghost then = { λ s m n o. PartsTo m.0 o.0 × (o.1 ≡ m.1) };
}

// A new reader beside the pen, and back.
pub struct Seats;

impl Split<Knows> for Seats {
    ghost use Rattle.log_tail.specs.Knowing.{newcomer};

    ghost left = { λ v. v };

    ghost right = { λ v. newcomer v.capacity };
}

impl Join<Knows> for Seats {
    ghost use Rattle.log_tail.specs.Knowing.{taken_in, spent_view};

    ghost both = { taken_in };

    ghost spent = { spent_view };
}
