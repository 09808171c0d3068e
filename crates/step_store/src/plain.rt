//! The single steps over a table with one user.

use crate::hand::{Chain, Link, Taken};
use crate::job::Job;
use crate::steps::Steps;
use crate::table::PlainTable;
use crate::walks::Walks;
use edge_bits::{Edge, FIRST_ELEMENT};
use node_store::{Key, Stack};

impl Steps for PlainTable {
    ghost use Rattle.std.specs.Prelude.{false};
    ghost use Rattle.step_store.specs.Plain.{IsSeat, known_of};
    ghost use Rattle.step_store.specs.TableLaws.{tables_stand};

    type Rest = bool;

    ghost known = { known_of };

    ghost shares = { IsSeat };

    ghost table = { λ _. 0 };

    ghost rest = { λ _. false };

    fn vars(&self) -> u32 {
        self.core.vars
    }

    fn elements(&self) -> u32 {
        self.core.elements
    }

    fn limit(&self) -> u32 {
        self.core.limit
    }

    fn heads(&self) -> u32 {
        self.core.heads.len() as u32
    }

    fn peek_turn(&self, _level: u32) -> bool {
        self.turn.is_none()
    }

    fn peek_free(&self) -> bool {
        !self.has_free
    }

    fn peek_head(&self, head: u32) -> u32 {
        self.core.heads[head as usize]
    }

    fn peek_next(&self, slot: u32) -> u32 {
        self.core.nexts[slot as usize]
    }

    fn peek_node(&self, slot: u32) -> u64 {
        self.core.words[slot as usize]
    }

    fn take_turn(&mut self, level: u32) -> bool {
        if self.turn.is_some() {
            return false;
        }
        self.turn = Some(level);
        true
    }

    fn give_turn(&mut self, _level: u32) {
        self.turn = None;
        self.chain = None;
    }

    fn load_head(&mut self, head: u32, level: u32) -> u32 {
        self.chain = Some(Chain { head, level });
        self.core.heads[head as usize]
    }

    fn load_next(&mut self, slot: u32) -> u32 {
        self.core.nexts[slot as usize]
    }

    fn load_node(&mut self, slot: u32) -> u64 {
        self.core.words[slot as usize]
    }

    fn take_free(&mut self) -> bool {
        if self.has_free {
            return false;
        }
        self.has_free = true;
        true
    }

    fn has_free(&self) -> bool {
        self.core.first_free < self.core.limit
    }

    fn take_slot(&mut self, bits: u64) -> u32 {
        let slot = self.core.first_free;
        self.core.first_free += 1;
        self.core.taken = Some(Taken { slot, bits });
        self.core.link = None;
        self.has_free = false;
        slot
    }

    fn give_empty(&mut self, _bits: u64, job: &Job) {
        self.core.fulls = self.core.fulls.saturating_add(1);
        self.core.due = Some(*job);
        self.has_free = false;
    }

    fn store_next(&mut self, slot: u32, link: u32) {
        self.core.nexts[slot as usize] = link;
        self.core.link = Some(Link { slot, next: link });
    }

    fn store_node(&mut self, slot: u32, bits: u64) {
        self.core.words[slot as usize] = bits;
        self.core.taken = None;
        self.core.loose = Some(slot);
    }

    fn push_head(&mut self, head: u32, slot: u32, link: u32) -> u32 {
        let found = self.core.heads[head as usize];
        if found == link {
            self.core.heads[head as usize] = slot + 1;
            self.core.loose = None;
            self.core.link = None;
            self.chain = None;
        }
        found
    }

    fn load_level(&mut self, var: u32) -> u32 {
        if var < FIRST_ELEMENT {
            var
        } else {
            var - FIRST_ELEMENT
        }
    }

    fn take_memo(&mut self) -> bool {
        if self.has_memo {
            return false;
        }
        self.has_memo = true;
        true
    }

    fn recall(&mut self, key: &Key) -> Option<Edge> {
        self.core.memo.get(key)
    }

    fn remember(&mut self, key: Key, edge: Edge) {
        self.core.memo.put(key, edge);
    }

    fn give_memo(&mut self) {
        self.has_memo = false;
    }

    fn take_scratch(&mut self) -> Stack {
        match self.core.scratch.take() {
            Some(mut stack) => {
                stack.truncate(0);
                stack
            }
            None => Stack::new(self.core.alloc),
        }
    }

    fn give_scratch(&mut self, stack: Stack) {
        self.core.scratch = Some(stack);
    }

    ghost stands = { tables_stand };
}

impl Walks for PlainTable {
    ghost use Rattle.std.specs.Prelude.{false};
    ghost use Rattle.step_store.specs.Plain.{IsSeat, known_of};
    ghost use Rattle.step_store.specs.TableLaws.{base_stands};

    type Rest = bool;

    ghost sees = { λ t. (known_of t).view };

    ghost loads = { λ t. t.loads };

    ghost walks = { IsSeat };

    ghost table = { λ _. 0 };

    ghost rest = { λ _. false };

    fn load_word(&mut self, slot: u32) -> u64 {
        self.loads = self.loads.saturating_add(1);
        self.core.words[slot as usize]
    }

    ghost stands = { base_stands };
}
