//! What each step of the holder of the order tells.

use crate::content::Content;
use crate::told::Level;
use crate::view::View;
use atomic_table::Play;
use std::marker::PhantomData;

/// The whole store is learnt, under the order hold.
pub struct LearnAll;

impl<S> Play<Option<S>, View> for LearnAll {
    ghost use Rattle.words_rule.specs.HolderPlays.{all_learnt};

    ghost then = { all_learnt };
}

/// A node word is loaded, under the order hold.
pub struct LoadHeld;

impl<S> Play<Option<S>, View> for LoadHeld {
    ghost use Rattle.words_rule.specs.HolderPlays.{held_loaded};

    ghost then = { held_loaded };
}

/// A position of an order is loaded, under the order hold.
pub struct LoadPosition;

impl<S> Play<Option<S>, View> for LoadPosition {
    ghost use Rattle.words_rule.specs.HolderPlays.{position_loaded};

    ghost then = { position_loaded };
}

/// The first slot of a chain is taken off it.
pub struct UnlinkFirst;

impl<S> Play<Option<S>, View> for UnlinkFirst {
    ghost use Rattle.words_rule.specs.HolderPlays.{first_unlinked};

    ghost then = { first_unlinked };
}

/// A later one is.
pub struct UnlinkLater;

impl<S> Play<Option<S>, View> for UnlinkLater {
    ghost use Rattle.words_rule.specs.HolderPlays.{later_unlinked};

    ghost then = { later_unlinked };
}

/// A new node is stored in the first free slot, with the free list in hand.
pub struct AddNode;

impl<S> Play<Option<S>, View> for AddNode {
    ghost use Rattle.words_rule.specs.HolderPlays.{node_added};

    ghost then = { node_added };
}

/// A node is rewritten in its slot.
pub struct RewriteNode;

impl<S> Play<Option<S>, View> for RewriteNode {
    ghost use Rattle.words_rule.specs.HolderPlays.{node_rewritten};

    ghost then = { node_rewritten };
}

/// A slot is freed.
pub struct FreeNode;

impl<S> Play<Option<S>, View> for FreeNode {
    ghost use Rattle.words_rule.specs.HolderPlays.{node_freed};

    ghost then = { node_freed };
}

/// A count word is loaded, and its count noted.
pub struct FindCount;

impl<S> Play<Option<S>, View> for FindCount {
    ghost use Rattle.words_rule.specs.HolderPlays.{count_found};

    ghost then = { count_found };
}

/// A slot gets its next generation.
pub struct Renew;

impl<S> Play<Option<S>, View> for Renew {
    ghost use Rattle.words_rule.specs.HolderPlays.{generation_stored};

    ghost then = { generation_stored };
}

/// A slot is pinned.
pub struct PinSlot;

impl<S> Play<Option<S>, View> for PinSlot {
    ghost use Rattle.words_rule.specs.HolderPlays.{slot_pinned};

    ghost then = { slot_pinned };
}

/// It is no longer.
pub struct UnpinSlot;

impl<S> Play<Option<S>, View> for UnpinSlot {
    ghost use Rattle.words_rule.specs.HolderPlays.{slot_unpinned};

    ghost then = { slot_unpinned };
}

/// The first order word of an exchange is stored.
pub struct Exchange;

impl<S> Play<Option<S>, View> for Exchange {
    ghost use Rattle.words_rule.specs.HolderPlays.{orders_exchanged};

    ghost then = { orders_exchanged };
}

/// Another is.
pub struct StoreDue;

impl<S> Play<Option<S>, View> for StoreDue {
    ghost use Rattle.words_rule.specs.HolderPlays.{due_stored};

    ghost then = { due_stored };
}

/// The free list is given back as it is.
pub struct ReturnFree;

impl<S> Play<Option<S>, View> for ReturnFree {
    ghost use Rattle.words_rule.specs.HolderPlays.{free_returned};

    ghost then = { free_returned };
}

/// The computed table is given back, without answers.
pub struct ReturnMemo;

impl<S> Play<Option<S>, View> for ReturnMemo {
    ghost use Rattle.words_rule.specs.HolderPlays.{memo_returned};

    ghost then = { memo_returned };
}

/// A head is loaded, with the turn of a level, under the order hold.
pub struct LoadWhole<E> {
    level: PhantomData<E>,
}

impl<S, E: Level> Play<Option<S>, View> for LoadWhole<E> {
    ghost use Rattle.words_rule.specs.HolderPlays.{whole_loaded};

    ghost then = { whole_loaded E.level };
}

/// The free list is taken, if it is at home, with all slots that are free.
pub struct ClaimFree;

impl<S: Content> Play<Option<S>, View> for ClaimFree {
    ghost use Rattle.words_rule.specs.HolderPlays.{free_claimed};

    ghost then = { free_claimed S.free_slots };
}

/// The computed table is taken, if it is at home.
pub struct ClaimMemo;

impl<S: Content> Play<Option<S>, View> for ClaimMemo {
    ghost use Rattle.words_rule.specs.HolderPlays.{memo_claimed};

    ghost then = { memo_claimed S.memo };
}
