ghost use Rattle.std.specs.Prelude.{◌≡◌, ◌≤◌, [], ◌∷◌, ◌++◌, Some, None, IfOk, IfErr, OnOk, OnErr, IfSome, IfNone};
ghost use mathlib.Core.List.{IsPrefix};
ghost use Rattle.read_hand.specs.Hands.{capacity_of, IsGiverOf, IsTakerOf, pieces_put, pieces_taken, all_put, HadWaiting};

use crate::piece::Piece;
use crate::rule::{Carried, InOrder, Puts, Roles, Takes};
use crossbeam_queue::{Pass, RuledArrayQueue};
use std::alloc::{AllocError, Global};
use std::sync::Wait;

/// A queue of pieces between one giver and one taker, which may be two threads.
#[derive(Drop)]
pub struct Hand {
    line: RuledArrayQueue<Piece, Carried, InOrder>,
}

/// The right to put pieces. It takes no bytes.
#[derive(Drop)]
pub struct Giver {
    pass: Pass<Piece, Carried>,
}

/// The right to take pieces. It takes no bytes.
#[derive(Drop)]
pub struct Taker {
    pass: Pass<Piece, Carried>,
}

impl Hand {
    /// A hand that holds at most `capacity` pieces, at least 1, its one giver and its one taker. Fails for want of memory alone.
    pub fn new(alloc: Global, capacity: usize) -> Result<(Hand, Giver, Taker), AllocError>
        requires { 1 ≤ capacity }
        ensures capacity { IfOk result (λ made. capacity_of made.0 ≡ capacity) }
        ensures ends { IfOk result (λ made. IsGiverOf made.0 made.1 × IsTakerOf made.0 made.2) }
        ensures fresh { IfOk result (λ made. (pieces_put made.1 ≡ []) × (pieces_taken made.2 ≡ []) × (all_put made.2 ≡ None)) }
    {
        let (line, mut pass) = RuledArrayQueue::ruled(alloc, capacity)?;
        let taker = line.another::<Roles>(&mut pass);
        Ok((Hand { line }, Giver { pass }, Taker { pass: taker }))
    }

    /// Puts a piece behind the others. It comes back where the hand was full at one moment of the call.
    pub fn put<R: Wait>(&self, rt: &R, giver: &mut Giver, piece: Piece) -> Result<(), Piece>
        requires { IsGiverOf self.now giver.old }
        ensures giver { IsGiverOf self.now giver.new }
        ensures put { OnOk result (pieces_put giver.new ≡ pieces_put giver.old ++ piece ∷ []) }
        ensures back { IfErr result (λ same. same ≡ piece) }
        ensures unchanged { OnErr result (pieces_put giver.new ≡ pieces_put giver.old) }
        ensures full { OnErr result (HadWaiting (capacity_of self.now) (pieces_put giver.old)) }
    {
        self.line.push_as::<Puts, R>(rt, &mut giver.pass, piece)
    }

    /// Takes the piece that was put first of those that the hand holds. None where it was empty at one moment of the call.
    pub fn take<R: Wait>(&self, rt: &R, taker: &mut Taker) -> Option<Piece>
        requires { IsTakerOf self.now taker.old }
        ensures taker { IsTakerOf self.now taker.new }
        ensures known { all_put taker.new ≡ all_put taker.old }
        ensures taken { IfSome result (λ piece. pieces_taken taker.new ≡ pieces_taken taker.old ++ piece ∷ []) }
        ensures ordered { IfSome result (λ piece. IfSome (all_put taker.old) (λ all. IsPrefix (pieces_taken taker.new) all)) }
        ensures unchanged { IfNone result (pieces_taken taker.new ≡ pieces_taken taker.old) }
        ensures empty { IfNone result (IfSome (all_put taker.old) (λ all. pieces_taken taker.old ≡ all)) }
    {
        self.line.pop_as::<Takes, R>(rt, &mut taker.pass)
    }

    /// The giver ends, and the taker learns what was put: the pieces taken so far are its first ones. What is left can be taken as before.
    pub fn meet(&self, giver: Giver, taker: &mut Taker)
        requires giver { IsGiverOf self.now giver }
        requires taker { IsTakerOf self.now taker.old }
        ensures taker { IsTakerOf self.now taker.new }
        ensures known { all_put taker.new ≡ Some (pieces_put giver) }
        ensures unchanged { pieces_taken taker.new ≡ pieces_taken taker.old }
        ensures prefix { IsPrefix (pieces_taken taker.old) (pieces_put giver) }
    {
        let Giver { pass } = giver;
        self.line.absorb::<Roles>(&mut taker.pass, pass);
        self.line.learn_as::<Takes>(&mut taker.pass);
    }
}
