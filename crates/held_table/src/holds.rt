//! The single steps over a table with one holder.

ghost use Rattle.std.specs.Prelude.{◌≡◌, ℕ, ◌+◌, ◌<◌, ◌^◌, List, [], ◌∷◌, IfNone, IfSome, vec_capacity};
ghost use Rattle.edge_bits.specs.Words.{unpack_of};
ghost use Rattle.node_store.specs.Changes.{var_of};
ghost use Rattle.held_table.specs.Tables.{IsWithoutFirst, free_list};

use crate::table::{Due, HeldTable, Rewritten};
use edge_bits::{Word, unpack};
use handle_count::raise;
use hold_store::Holds;
use node_store::Order;
use step_store::hand::{Chain, Link};

/// The variable of the node that the bits are.
fn variable_in(bits: u64) -> u32
    ensures { result ≡ var_of (unpack_of bits) }
{
    match unpack(bits) {
        Some(Word::Inner(node)) => node.var as u32,
        _ => 0,
    }
}

/// The first slot of a free list: the last one that was freed, or else the next that was never taken, if there is one.
fn first_of(freed: &Vec<u32>, next_free: u32, limit: u32) -> Option<u32>
    ensures some { IfSome result (λ slot. (list : List ℕ) × (free_list freed.now.items next_free limit ≡ slot ∷ list)) }
    ensures none { IfNone result (free_list freed.now.items next_free limit ≡ []) }
{
    let count = freed.len();
    if count > 0 {
        return Some(freed[count - 1]);
    }
    if next_free < limit {
        Some(next_free)
    } else {
        None
    }
}

/// Takes it off, and answers which is the next then that was never taken.
fn without_first(freed: &mut Vec<u32>, next_free: u32) -> u32
    requires { next_free + 1 < 2 ^ 32 }
    ensures taken { IsWithoutFirst freed.old.items next_free freed.new.items result }
    ensures room { vec_capacity freed.new ≡ vec_capacity freed.old }
{
    match freed.pop() {
        Some(_) => next_free,
        None => next_free + 1,
    }
}

impl Holds for HeldTable {
    ghost use Rattle.std.specs.Prelude.{false};
    ghost use Rattle.held_table.specs.Tables.{IsTable, known_of};
    ghost use Rattle.held_table.specs.TableLaws.{table_stands};

    type Rest = bool;

    ghost known = { known_of };

    ghost holds = { IsTable };

    ghost table = { λ _. 0 };

    ghost rest = { λ _. false };

    fn vars(&self) -> u32 {
        self.variables_at.len() as u32
    }

    fn elements(&self) -> u32 {
        self.elements_at.len() as u32
    }

    fn limit(&self) -> u32 {
        self.limit
    }

    fn heads(&self) -> u32 {
        self.heads.len() as u32
    }

    fn peek_turn(&self, level: u32) -> bool {
        self.turns <= level
    }

    fn peek_free(&self) -> bool {
        !self.has_free
    }

    fn peek_head(&self, head: u32) -> u32 {
        self.heads[head as usize]
    }

    fn take_turn(&mut self, level: u32) -> bool {
        if self.turns != level {
            return false;
        }
        self.turns = level + 1;
        true
    }

    fn give_turn(&mut self, level: u32) {
        self.turns = level;
        self.walk = None;
    }

    fn take_free(&mut self) -> bool {
        if self.has_free {
            return false;
        }
        self.has_free = true;
        true
    }

    fn give_free(&mut self) {
        self.has_free = false;
    }

    fn first_free(&self) -> Option<u32> {
        first_of(&self.freed, self.next_free, self.limit)
    }

    fn taken(&self) -> u32 {
        self.next_free
    }

    fn load_node(&mut self, slot: u32) -> u64 {
        self.words[slot as usize]
    }

    fn load_head(&mut self, head: u32, level: u32) -> u32 {
        self.walk = Some(Chain { head, level });
        self.heads[head as usize]
    }

    fn load_next(&mut self, slot: u32) -> u32 {
        self.nexts[slot as usize]
    }

    fn unlink_first(&mut self, head: u32, slot: u32, link: u32) {
        self.heads[head as usize] = link;
        self.loose = Some(slot);
        self.renewed = None;
        self.link = None;
        self.walk = None;
    }

    fn unlink_later(&mut self, before: u32, slot: u32, link: u32) {
        self.nexts[before as usize] = link;
        self.loose = Some(slot);
        self.renewed = None;
        self.link = None;
        self.walk = None;
    }

    fn store_next(&mut self, slot: u32, link: u32) {
        self.nexts[slot as usize] = link;
        self.link = Some(Link { slot, next: link });
    }

    fn push_head(&mut self, head: u32, slot: u32, link: u32) -> u32 {
        let found = self.heads[head as usize];
        if found == link {
            self.heads[head as usize] = slot + 1;
            self.loose = None;
            self.renewed = None;
            self.link = None;
            self.walk = None;
        }
        found
    }

    fn store_node(&mut self, slot: u32, bits: u64) {
        self.next_free = without_first(&mut self.freed, self.next_free);
        self.words[slot as usize] = bits;
        self.loose = Some(slot);
        self.renewed = None;
        self.link = None;
    }

    fn rewrite_node(&mut self, slot: u32, bits: u64) {
        let was = variable_in(self.words[slot as usize]);
        let now = variable_in(bits);
        self.words[slot as usize] = bits;
        self.half = Some(Rewritten { was, now });
    }

    fn free_node(&mut self, slot: u32) {
        self.words[slot as usize] = 0;
        self.freed.push_reserved(slot);
        self.loose = None;
        self.renewed = None;
        self.link = None;
    }

    fn load_count(&mut self, slot: u32) -> u64 {
        let word = self.counts[slot as usize];
        if self.pins[slot as usize] == 1 {
            raise(word)
        } else {
            word
        }
    }

    fn store_generation(&mut self, slot: u32, word: u64) {
        self.counts[slot as usize] = word;
        self.renewed = Some(slot);
    }

    fn pin_count(&mut self, slot: u32) {
        self.pins[slot as usize] = 1;
    }

    fn unpin_count(&mut self, slot: u32) {
        self.pins[slot as usize] = 0;
    }

    fn load_order(&mut self, order: Order, level: u32) -> u32 {
        match order {
            Order::Variables => self.variables_at[level as usize],
            Order::Elements => self.elements_at[level as usize],
        }
    }

    fn store_upper(&mut self, order: Order, level: u32, _lower: u32) {
        let at = level as usize;
        self.half = None;
        self.due = Some(Due {
            order,
            level: level + 1,
        });
        match order {
            Order::Variables => self.variables_at.swap(at, at + 1),
            Order::Elements => self.elements_at.swap(at, at + 1),
        }
    }

    fn store_lower(&mut self, _order: Order, _level: u32, _upper: u32) {
        self.due = None;
    }

    fn take_memo(&mut self) -> bool {
        if self.has_memo {
            return false;
        }
        self.has_memo = true;
        true
    }

    fn clear_memo(&mut self) {
        self.answers = false;
    }

    fn give_memo(&mut self) {
        self.has_memo = false;
    }

    ghost stands = { table_stands };
}
