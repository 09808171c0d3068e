//! The places of a list by their hashes.

ghost use Rattle.std.specs.Prelude.{◌≡◌, ℕ, List, ◌+◌, ◌-◌, ◌*◌, ◌%◌, ◌<◌, ◌≤◌, ◌^◌, [], ◌∷◌, ◌++◌, length, slice_index, slice_set, swap_remove, replicate, IfOk, OnOk, vec_capacity, take};
ghost use Rattle.level_table.specs.Chains.{link_to, bucket_of, put, IsLatest, IsChained, AreChains, IsNextAbove};

use edge_bits::Memory;
use std::alloc::Global;
use std::marker::Model;

/// The hashes of places 0, 1, 2, .., each place in the chain of its bucket: bucket b has the hashes that are b modulo the number of buckets.
///
/// A chain goes from its greatest place down. Where there are as many places as buckets, and the capacity allows it, the buckets are doubled in one step; linear hashing (Larson 1988) splits one at a time.
#[derive(Drop)]
pub struct Chains {
    hashes: Vec<u32>,
    // Of each place the link to the next lower one in its bucket: 0, or one more than the place.
    links: Vec<u32>,
    // Of each bucket the link to its greatest place.
    heads: Vec<u32>,
}

impl Model for Chains {
    ghost use Rattle.std.specs.Prelude.{◌-◌, min, vec_capacity, vec_len};
    ghost use Rattle.level_table.specs.Chains.{Hashed, AreChains};

    ghost Value = { Hashed };

    ghost view = { λ c. record { hashes = c.hashes.items; spare = min (vec_capacity c.hashes - vec_len c.hashes) (vec_capacity c.links - vec_len c.links) } };

    ghost invariant = { λ c. AreChains c.hashes.items c.links.items c.heads.items };
}

/// The place that a link leads to.
pub(crate) fn place_of(link: u32) -> Option<usize>
    ensures { link_to result ≡ link }
{
    if link == 0 {
        None
    } else {
        Some(link as usize - 1)
    }
}

/// From this link down, the greatest place with the hash.
fn candidate(hashes: &[u32], links: &[u32], first: u32, hash: u32) -> Option<usize>
    requires within { first ≤ length links.now }
    requires as_long { length links.now ≡ length hashes.now }
    requires fall { (k : ℕ) → k < length links.now → slice_index links.now k ≤ k }
    ensures { (heads : List ℕ) (n : ℕ) → AreChains hashes.now links.now heads → IsLatest (bucket_of hashes.now (length heads)) (hash % length heads) n first → IsLatest (slice_index hashes.now) hash n (link_to result) }
{
    let mut link = first;
    while let Some(place) = place_of(link) {
        if hashes[place] == hash {
            return Some(place);
        }
        link = links[place];
    }
    None
}

/// The least place above this one in the bucket.
fn next_above(heads: &[u32], links: &[u32], bucket: usize, place: usize) -> Option<usize>
    requires bucket { bucket < length heads.now }
    requires within { slice_index heads.now bucket ≤ length links.now }
    requires fall { (k : ℕ) → k < length links.now → slice_index links.now k ≤ k }
    ensures { (at : ℕ → ℕ) → IsChained at heads.now links.now → IsNextAbove at bucket (length links.now) place result }
{
    let mut above = None;
    let mut link = heads[bucket];
    while let Some(next) = place_of(link) {
        if next <= place {
            break;
        }
        above = Some(next);
        link = links[next];
    }
    above
}

/// Takes a place out of the chain of this bucket.
pub(crate) fn unlink(heads: &mut [u32], links: &mut [u32], bucket: usize, place: usize)
    requires bucket { bucket < length heads.old }
    requires place { place < length links.old }
    requires chained { (at : ℕ → ℕ) × IsChained at heads.old links.old }
    ensures { (at : ℕ → ℕ) → IsChained at heads.old links.old → at place ≡ bucket → IsChained (put at place (length heads.new)) heads.new links.new }
{
    let below = links[place];
    match next_above(heads, links, bucket, place) {
        Some(above) => links[above] = below,
        None => heads[bucket] = below,
    }
}

/// Puts a place that is in no chain into that of this bucket.
pub(crate) fn link(heads: &mut [u32], links: &mut [u32], bucket: usize, place: usize)
    requires bucket { bucket < length heads.old }
    requires place { place < length links.old }
    requires few { length links.old < 2 ^ 32 }
    requires chained { (at : ℕ → ℕ) × IsChained at heads.old links.old }
    ensures { (at new : ℕ → ℕ) → IsChained at heads.old links.old → at place ≡ length heads.old → ((k : ℕ) → (k ≡ place → ⊥) → new k ≡ at k) → new place ≡ bucket → IsChained new heads.new links.new }
{
    let to_place = place as u32 + 1;
    match next_above(heads, links, bucket, place) {
        Some(above) => {
            links[place] = links[above];
            links[above] = to_place;
        }
        None => {
            links[place] = heads[bucket];
            heads[bucket] = to_place;
        }
    }
}

/// So many empty buckets.
pub(crate) fn clear(heads: &mut Vec<u32>, buckets: usize)
    requires { buckets ≤ vec_capacity heads.old }
    ensures { heads.new.items ≡ replicate buckets 0 }
{
    heads.truncate(0);
    for _ in 0..buckets {
        heads.push_reserved(0);
    }
}

/// Puts all places into empty buckets.
fn link_all(heads: &mut [u32], links: &mut [u32], hashes: &[u32])
    requires empty { heads.old ≡ replicate (length heads.old) 0 }
    requires bucket { 0 < length heads.old }
    requires as_long { length links.old ≡ length hashes.now }
    requires few { length hashes.now < 2 ^ 32 }
    ensures { AreChains hashes.now links.new heads.new }
{
    for place in 0..hashes.len() {
        let bucket = hashes[place] as usize % heads.len();
        links[place] = heads[bucket];
        heads[bucket] = place as u32 + 1;
    }
}

/// Doubles the buckets, where the capacity allows it.
fn widen(heads: &mut Vec<u32>, links: &mut [u32], hashes: &[u32])
    requires { AreChains hashes.now links.old heads.old.items }
    ensures { AreChains hashes.now links.new heads.new.items }
{
    if heads.len() <= heads.capacity() - heads.len() {
        let buckets = heads.len() + heads.len();
        clear(heads, buckets);
        link_all(heads, links, hashes);
    }
}

/// Takes out the last place, and gives its hash.
fn take_last(heads: &mut [u32], links: &mut Vec<u32>, hashes: &mut Vec<u32>) -> u32
    requires chains { AreChains hashes.old.items links.old.items heads.old }
    requires some { 0 < length hashes.old.items }
    ensures chains { AreChains hashes.new.items links.new.items heads.new }
    ensures hashes { hashes.old.items ≡ hashes.new.items ++ result ∷ [] }
    ensures hashes_room { vec_capacity hashes.new ≡ vec_capacity hashes.old }
    ensures links_room { vec_capacity links.new ≡ vec_capacity links.old }
{
    let last = hashes.len() - 1;
    let hash = hashes[last];
    heads[hash as usize % heads.len()] = links[last];
    links.truncate(last);
    hashes.truncate(last);
    hash
}

/// Gives a place another hash.
fn rehash(heads: &mut [u32], links: &mut [u32], hashes: &mut [u32], place: usize, hash: u32)
    requires chains { AreChains hashes.old links.old heads.old }
    requires within { place < length hashes.old }
    ensures chains { AreChains hashes.new links.new heads.new }
    ensures hashes { hashes.new ≡ slice_set hashes.old place hash }
{
    let before = hashes[place] as usize % heads.len();
    unlink(heads, links, before, place);
    hashes[place] = hash;
    let after = hash as usize % heads.len();
    link(heads, links, after, place);
}

impl Chains {
    /// No places, with one bucket.
    pub fn new(alloc: Global) -> Result<Chains, Memory>
        ensures { IfOk result (λ c. c.hashes ≡ []) }
    {
        let heads = vec![in alloc; 0]?;
        Ok(Chains {
            hashes: Vec::new(alloc),
            links: Vec::new(alloc),
            heads,
        })
    }

    /// Makes room for so many more places, and for twice as many buckets as there are places then.
    pub fn reserve(&mut self, more: u32) -> Result<(), Memory>
        ensures hashes { self.new.hashes ≡ self.old.hashes }
        ensures room { OnOk result (more ≤ self.new.spare) }
        ensures kept { self.old.spare ≤ self.new.spare }
    {
        let more = more as usize;
        self.hashes.reserve(more)?;
        self.links.reserve(more)?;
        let buckets = 2 * (self.hashes.len() + more);
        self.heads
            .reserve(buckets.saturating_sub(self.heads.len()))?;
        Ok(())
    }

    /// The greatest place with the hash.
    pub fn last(&self, hash: u32) -> Option<usize>
        ensures { IsLatest (slice_index self.now.hashes) hash (length self.now.hashes) (link_to result) }
    {
        let bucket = hash as usize % self.heads.len();
        candidate(&self.hashes, &self.links, self.heads[bucket], hash)
    }

    /// The greatest place below this one with the same hash.
    pub fn previous(&self, place: usize) -> Option<usize>
        requires { place < length self.now.hashes }
        ensures { IsLatest (slice_index self.now.hashes) (slice_index self.now.hashes place) place (link_to result) }
    {
        candidate(
            &self.hashes,
            &self.links,
            self.links[place],
            self.hashes[place],
        )
    }

    /// Adds a place at the end.
    pub fn push(&mut self, hash: u32)
        requires room { 1 ≤ self.old.spare }
        requires few { length self.old.hashes < 2 ^ 32 - 1 }
        ensures hashes { self.new.hashes ≡ self.old.hashes ++ hash ∷ [] }
        ensures spare { self.new.spare + 1 ≡ self.old.spare }
    {
        if self.hashes.len() >= self.heads.len() {
            widen(&mut self.heads, &mut self.links, &self.hashes);
        }
        let bucket = hash as usize % self.heads.len();
        self.links.push_reserved(self.heads[bucket]);
        self.hashes.push_reserved(hash);
        self.heads[bucket] = self.hashes.len() as u32;
    }

    /// Removes all places. The room stays.
    pub fn clear(&mut self)
        ensures hashes { self.new.hashes ≡ [] }
        ensures spare { self.new.spare ≡ self.old.spare + length self.old.hashes }
    {
        self.hashes.truncate(0);
        self.links.truncate(0);
        let buckets = self.heads.len();
        clear(&mut self.heads, buckets);
    }

    /// Removes a place, where the last one comes to stand.
    pub fn swap_remove(&mut self, place: usize)
        requires { place < length self.old.hashes }
        ensures hashes { self.new.hashes ≡ swap_remove self.old.hashes place 0 }
        ensures spare { self.new.spare ≡ self.old.spare + 1 }
    {
        let hash = take_last(&mut self.heads, &mut self.links, &mut self.hashes);
        if place < self.hashes.len() {
            rehash(
                &mut self.heads,
                &mut self.links,
                &mut self.hashes,
                place,
                hash,
            );
        }
    }
}
