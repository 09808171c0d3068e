//! The order of covers by a walk with a stack.
#![tactic(auto)]

ghost use Rattle.std.specs.Prelude.{◌≡◌, ◌<◌, ◌≤◌, ◌^◌, ◌+◌, ◌++◌, ◌∷◌, [], IfOk, IfNone, IfSome, Some, None, length, replicate, slice_get, slice_set, vec_len, ℕ, List as ListOf, true};
ghost use Rattle.std.specs.List.{list_all};
ghost use Rattle.blif_order.specs.declared.State.TheVariants as states;
ghost use Rattle.blif_order.specs.Orders.{ArrangedIs, Follows, IsBottom, IsCaught, IsSmall, IsWalk, Reads, RootIs, StepIs, is_done, is_in, is_open, reads_of};

use edge_bits::List;
use std::alloc::{AllocError, Global};

/// How far a cover is: `Open(i)` stands on the stack, and those that it reads before i are done.
#[derive(Clone, Copy, PartialEq, Eq, Drop)]
pub enum State {
    New,
    Open(u32),
    Done,
}

/// A walk: the state of each cover, those that are done in order, and the stack.
#[derive(Drop)]
pub struct Walk {
    pub states: Vec<State>,
    pub order: Vec<u32>,
    pub stack: Vec<u32>,
}

/// What a step came to.
#[derive(Drop)]
pub enum Step {
    Onward(Walk),
    Caught(Walk),
}

/// The read of a cover at a place.
fn read_at(reads: &[List<u32>], c: u32, next: u32) -> Option<u32>
    requires { c < length reads.now }
    ensures some { IfSome result (λ child. slice_get (reads_of reads.now c) next ≡ Some child) }
    ensures none { IfNone result (length (reads_of reads.now c) ≤ next) }
{
    reads[c as usize].as_slice().get(next as usize).copied()
}

impl Walk {
    fn state(&self, c: u32) -> State
        requires { c < vec_len self.now.states }
        ensures { slice_get self.now.states.items c ≡ Some result }
    {
        self.states[c as usize]
    }

    fn top(&self) -> Option<u32>
        ensures some { IfSome result (λ top. (front : ListOf ℕ) × (self.now.stack.items ≡ front ++ top ∷ [])) }
        ensures none { IfNone result (self.now.stack.items ≡ []) }
    {
        self.stack.as_slice().last().copied()
    }

    /// Puts a new cover on the stack.
    fn push(self, reads: &[List<u32>], c: u32) -> Result<Walk, AllocError>
        requires walk { IsWalk reads.now self }
        requires new { slice_get self.states.items c ≡ Some states.New }
        requires follows { Follows reads.now self.stack.items c }
        requires within { c < vec_len self.states }
        ensures walk { IfOk result (λ next. IsWalk reads.now next) }
        ensures stack { IfOk result (λ next. next.stack.items ≡ self.stack.items ++ c ∷ []) }
        ensures states { IfOk result (λ next. next.states.items ≡ slice_set self.states.items c (states.Open 0)) }
    {
        let Walk {
            mut states,
            order,
            mut stack,
        } = self;
        states[c as usize] = State::Open(0);
        match stack.push(c) {
            Ok(()) => Ok(Walk {
                states,
                order,
                stack,
            }),
            Err(_) => Err(AllocError),
        }
    }

    /// Passes a read that is done.
    fn advance(self, reads: &[List<u32>], c: u32, next: u32, child: u32) -> Walk
        requires walk { IsWalk reads.now self }
        requires at { slice_get self.states.items c ≡ Some (states.Open next) }
        requires read { slice_get (reads_of reads.now c) next ≡ Some child }
        requires done { slice_get self.states.items child ≡ Some states.Done }
        requires within { c < vec_len self.states }
        requires few { next + 1 < 2 ^ 32 }
        ensures walk { IsWalk reads.now result }
        ensures stack { result.stack.items ≡ self.stack.items }
        ensures states { result.states.items ≡ slice_set self.states.items c (states.Open (next + 1)) }
    {
        let Walk {
            mut states,
            order,
            stack,
        } = self;
        states[c as usize] = State::Open(next + 1);
        Walk {
            states,
            order,
            stack,
        }
    }

    /// Takes the top of the stack off, whose reads are all done.
    fn close(self, reads: &[List<u32>], c: u32, next: u32) -> Result<Walk, AllocError>
        requires walk { IsWalk reads.now self }
        requires at { slice_get self.states.items c ≡ Some (states.Open next) }
        requires past { length (reads_of reads.now c) ≤ next }
        requires top { (front : ListOf ℕ) × (self.stack.items ≡ front ++ c ∷ []) }
        requires within { c < vec_len self.states }
        ensures walk { IfOk result (λ walk. IsWalk reads.now walk) }
        ensures stack { IfOk result (λ walk. self.stack.items ≡ walk.stack.items ++ c ∷ []) }
        ensures states { IfOk result (λ walk. walk.states.items ≡ slice_set self.states.items c states.Done) }
    {
        let Walk {
            mut states,
            mut order,
            mut stack,
        } = self;
        states[c as usize] = State::Done;
        let _top = stack.pop();
        match order.push(c) {
            Ok(()) => Ok(Walk {
                states,
                order,
                stack,
            }),
            Err(_) => Err(AllocError),
        }
    }

    /// One step from the top of the stack.
    fn step(self, reads: &[List<u32>], top: u32) -> Result<Step, AllocError>
        requires small { IsSmall reads.now }
        requires walk { IsWalk reads.now self }
        requires top { (front : ListOf ℕ) × (self.stack.items ≡ front ++ top ∷ []) }
        ensures { IfOk result (λ step. (root : ℕ) → IsBottom root self.stack.items → StepIs reads.now root self.states.items step) }
    {
        let State::Open(next) = self.state(top) else {
            unreachable!();
        };
        let Some(child) = read_at(reads, top, next) else {
            return Ok(Step::Onward(self.close(reads, top, next)?));
        };
        match self.state(child) {
            State::Done => Ok(Step::Onward(self.advance(reads, top, next, child))),
            State::New => Ok(Step::Onward(self.push(reads, child)?)),
            State::Open(_) => Ok(Step::Caught(self)),
        }
    }

    /// A walk from a root, with nothing on the stack.
    fn walk_from(self, reads: &[List<u32>], root: u32) -> Result<Step, AllocError>
        requires small { IsSmall reads.now }
        requires walk { IsWalk reads.now self }
        requires empty { self.stack.items ≡ [] }
        requires within { root < length reads.now }
        ensures { IfOk result (λ step. RootIs reads.now root self.states.items step) }
    {
        match self.state(root) {
            State::New => {}
            _ => return Ok(Step::Onward(self)),
        }
        let mut walk = self.push(reads, root)?;
        while let Some(top) = walk.top() {
            match walk.step(reads, top)? {
                Step::Onward(next) => walk = next,
                Step::Caught(caught) => return Ok(Step::Caught(caught)),
            }
        }
        Ok(Step::Onward(walk))
    }
}

/// An order of covers, or the first that lies on a cycle or depends on one.
#[derive(Drop)]
pub enum Arranged {
    Ordering(Vec<u32>),
    Cyclic(u32),
}

fn new_states(alloc: Global, count: usize) -> Result<Vec<State>, AllocError>
    ensures { IfOk result (λ new. new.items ≡ replicate count states.New) }
{
    vec![in alloc; State::New; count]
}

fn start(alloc: Global, reads: &[List<u32>]) -> Result<Walk, AllocError>
    ensures walk { IfOk result (λ walk. IsWalk reads.now walk) }
    ensures stack { IfOk result (λ walk. walk.stack.items ≡ []) }
{
    let states = new_states(alloc, reads.len())?;
    Ok(Walk {
        states,
        order: Vec::new(alloc),
        stack: Vec::new(alloc),
    })
}

/// The covers in an order in which each stands after those that it reads, or the first that is never led back.
pub fn arrange(alloc: Global, reads: &[List<u32>]) -> Result<Arranged, AllocError>
    requires { IsSmall reads.now }
    ensures { IfOk result (λ arranged. ArrangedIs reads.now arranged) }
{
    let mut walk = start(alloc, reads)?;
    for root in 0..reads.len() as u32 {
        match walk.walk_from(reads, root)? {
            Step::Onward(next) => walk = next,
            Step::Caught(_) => return Ok(Arranged::Cyclic(root)),
        }
    }
    let Walk { order, .. } = walk;
    Ok(Arranged::Ordering(order))
}
