// The rule of the queue, and what a step of it tells: plain data of the proofs, of which no value is made.
ghost use Rattle.std.specs.Prelude.{◌≡◌, true, [], ◌∷◌, ◌++◌};
ghost use mathlib.Core.List.{IsPrefix};
ghost use Rattle.read_hand.specs.Carrying.{carried, EndsWith};

use crate::piece::Piece;
use crossbeam_queue::protocol::{Join, Lesson, Outcome, Protocol, Split};
use std::collections::LinkedList;

// What a pass may do, what it knows to have been put, and what it has taken.
pub struct Carried {
    pub gives: bool,
    pub takes: bool,
    pub put: LinkedList<Piece>,
    pub taken: LinkedList<Piece>,
}

pub struct InOrder;

impl Protocol<Piece, Carried> for InOrder {
    ghost use Rattle.std.specs.Prelude.{true, []};
    ghost use Rattle.read_hand.specs.Carrying.{carried, Carries};

    ghost holds = { Carries };

    ghost first = { carried true true [] [] };
}

// The giver's part of the first pass, and the taker's.
pub struct Roles;

impl Split<Carried> for Roles {
    ghost use Rattle.std.specs.Prelude.{true, false, []};
    ghost use Rattle.read_hand.specs.Carrying.{carried};

    ghost left = { λ v. carried true false v.put [] };

    ghost right = { λ v. carried false true [] v.taken };
}

// The taker takes in the giver.
impl Join<Carried> for Roles {
    ghost use Rattle.std.specs.Prelude.{true, false, []};
    ghost use Rattle.read_hand.specs.Carrying.{carried};

    ghost both = { λ v w. carried true true w.put v.taken };

    ghost spent = { carried false false [] [] };
}

pub struct Puts;

impl Outcome<Piece, Carried> for Puts {
    ghost then = { λ v x w. w ≡ carried v.gives v.takes (v.put ++ x ∷ []) v.taken };
}

impl Lesson<Piece, Carried> for Puts {
    ghost fact = { λ v items. EndsWith v.put items };
}

pub struct Takes;

impl Outcome<Piece, Carried> for Takes {
    ghost then = { λ v x w. (w ≡ carried v.gives v.takes v.put (v.taken ++ x ∷ [])) × (v.gives ≡ true → IsPrefix (v.taken ++ x ∷ []) v.put) };
}

impl Lesson<Piece, Carried> for Takes {
    ghost fact = { λ v items. v.gives ≡ true → v.taken ++ items ≡ v.put };
}
