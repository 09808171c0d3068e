//! Sessions get seats of the closing one, and give them back.
ghost use Rattle.std.specs.Prelude.{◌≡◌, ◌<◌, ◌≤◌, [], true};
ghost use Rattle.words_rule.specs.Layout.{word_count};
ghost use Rattle.words_rule.specs.Shapes.{shape_in};
ghost use Rattle.words_rule.specs.Views.{one_more, session_of, sizes_for, with_gone};
ghost use Rattle.words_rule.specs.Rule.{bare};
ghost use Rattle.words_rule.specs.Passes.{in_hand, view, IsLiveOf};
ghost use Rattle.std.specs.Slots.{IsFull, slots_items, slots_len};
ghost use Rattle.words_rule.specs.Endings.{AreBack, Ends, IsSettled, Whole};
ghost use Rattle.words_rule.specs.Closings.{IsClosingOf, known};

use crate::closing::Closing;
use crate::content::Content;
use crate::layout::JOURNAL;
use crate::seat::{Guard, Pass};
use crate::seat_plays::{Back, Last, Next};
use atomic_table::Closed;
use edge_bits::MOST_SESSIONS;
use std::alloc::Global;

impl<S: Content> Guard<S> {
    /// Gives the next session a seat. There are no more sessions than the table was made for.
    pub fn split(&self, closing: &mut Closing<S>) -> Pass<S>
        requires own { IsClosingOf self.now closing.old }
        requires room { (known closing.old).given < (known closing.old).sessions }
        requires few { (known closing.old).sessions ≤ MOST_SESSIONS }
        ensures closing { IsClosingOf self.now closing.new × (known closing.new ≡ one_more (known closing.old)) }
        ensures session { IsLiveOf self.now result × (view result ≡ bare (session_of (known closing.old))) × (in_hand result ≡ []) }
    {
        let seat = self.table.shared.split_seat::<Next>(&mut closing.seat);
        let number = closing.given;
        let sizes = closing.sizes;
        closing.given += 1;
        Pass {
            seat,
            number,
            sizes,
        }
    }

    /// Takes in a session's seat, which has put down all that it had. Its rows and its entries come with it.
    pub fn join(&self, closing: &mut Closing<S>, pass: Pass<S>)
        requires own { IsClosingOf self.now closing.old }
        requires other { IsLiveOf self.now pass × (in_hand pass ≡ []) }
        requires settled { IsSettled (view pass) }
        ensures { IsClosingOf self.now closing.new × (known closing.new ≡ with_gone (known closing.old) (view pass).draws) }
    {
        let Pass {
            seat,
            number: _,
            sizes: _,
        } = pass;
        self.table.shared.join_seat::<Back>(&mut closing.seat, seat);
    }

    /// The number of calls so far, which are a legal history.
    pub fn calls(&self, closing: &mut Closing<S>) -> u64
        requires { IsClosingOf self.now closing.old }
        ensures own { IsClosingOf self.now closing.new × (known closing.new ≡ known closing.old) }
        ensures whole { Whole result (sizes_for (known closing.old).vars (known closing.old).elements) (known closing.old).given (known closing.old).gone }
    {
        self.table.shared.load::<Last>(&mut closing.seat, JOURNAL)
    }
    /// Closes the table once all sessions came back, and answers its words and what lies in its slots.
    pub fn close(self, closing: Closing<S>) -> Closed<Option<S>, Global>
        requires own { IsClosingOf self closing }
        requires back { AreBack (known closing).given (known closing).gone }
        ensures full { IsFull result.words × IsFull result.slots }
        ensures counts { (slots_len result.words ≡ word_count (shape_in (known closing))) × (slots_len result.slots ≡ 3) }
        ensures ends { Ends S.board S.free_slots S.memo (slots_items result.words) (slots_items result.slots) (known closing) }
    {
        let Guard { table } = self;
        let Closing {
            seat,
            sizes: _,
            given: _,
        } = closing;
        table.close_with(seat)
    }
}
