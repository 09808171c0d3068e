//! The board: it is taken, and put back.
ghost use Rattle.std.specs.Prelude.{◌≡◌, ◌∷◌, List, Option, true, None, IfSome, IfNone};
ghost use Rattle.atomic_table.specs.Table.{rest};
ghost use Rattle.words_rule.specs.declared.view.Held.{Held};
ghost use Rattle.words_rule.specs.Views.{holding, letting_go, shown};
ghost use Rattle.words_rule.specs.Passes.{me, view, in_hand, IsLiveOf, IsPassOf};

use crate::content::Content;
use crate::layout::{BOARD, BOARD_SLOT};
use crate::plays::{GiveBoard, TakeBoard};
use crate::seat::{Guard, Pass};

impl<S: Content> Guard<S> {
    /// Takes the board, if it is at home. The seat knows the functions of its cells then.
    pub fn take_board(&self, pass: &mut Pass<S>) -> Option<S>
        requires own { IsLiveOf self.now pass.old }
        ensures own { IsPassOf self.now pass.new }
        ensures taken { IfSome result (λ x. (cells : List (Option Held)) × (S.board x ≡ shown cells) × (view pass.new ≡ record (view pass.old) { draws = holding (view pass.old).draws cells }) × (in_hand pass.new ≡ (0, None) ∷ in_hand pass.old)) }
        ensures missed { IfNone result (me pass.new ≡ me pass.old) }
    {
        let mine = u64::from(pass.number) + 1;
        let found = self
            .table
            .shared
            .compare_exchange::<TakeBoard>(&mut pass.seat, BOARD, 0, mine);
        if found == 0 {
            self.table.shared.exchange(&mut pass.seat, BOARD_SLOT, None)
        } else {
            None
        }
    }

    /// Puts the board back, with the cells that the seat knows.
    pub fn give_board(&self, pass: &mut Pass<S>, content: S)
        requires own { IsLiveOf self.now pass.old }
        requires hand { in_hand pass.old ≡ (0, None) ∷ rest (in_hand pass.old) }
        requires holds { (view pass.old).draws.holds ≡ true }
        requires cells { S.board content ≡ shown (view pass.old).draws.cells }
        ensures own { IsPassOf self.now pass.new × (in_hand pass.new ≡ rest (in_hand pass.old)) }
        ensures gave { view pass.new ≡ record (view pass.old) { draws = letting_go (view pass.old).draws } }
    {
        match self
            .table
            .shared
            .exchange(&mut pass.seat, BOARD_SLOT, Some(content))
        {
            None => {}
            Some(_) => unreachable!(),
        }
        self.table
            .shared
            .store::<GiveBoard>(&mut pass.seat, BOARD, 0);
    }
}
