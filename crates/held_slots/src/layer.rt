//! One layer: a bit for each number, in words of 64.

ghost use Rattle.std.specs.Prelude.{◌≡◌, ◌≢◌, ℕ, ◌+◌, ◌*◌, ◌/◌, ◌<◌, ◌≤◌, ◌^◌, ◌==◌, length, slice_index, true, false};
ghost use Rattle.held_slots.specs.SlotSets.{is_in, has_some, IsNext, IsNextInWord, IsSummary};

/// Whether the bit of a number is set.
pub(crate) fn is_set(bits: &[u64], place: usize) -> bool
    ensures { result ≡ is_in bits.now place }
{
    place / 64 < bits.len() && bits[place / 64] >> (place % 64) & 1 == 1
}

/// Sets the bit of a number.
pub(crate) fn set(bits: &mut Vec<u64>, place: usize)
    requires { place / 64 < length bits.old.items }
    ensures here { is_in bits.new.items place ≡ true }
    ensures others { (p : ℕ) → p ≢ place → is_in bits.new.items p ≡ is_in bits.old.items p }
    ensures some { has_some bits.new.items (place / 64) ≡ true }
    ensures rest { (w : ℕ) → w ≢ place / 64 → slice_index bits.new.items w ≡ slice_index bits.old.items w }
    ensures length { length bits.new.items ≡ length bits.old.items }
{
    let word = bits[place / 64];
    bits[place / 64] = word | 1 << (place % 64);
}

/// Takes the bit of a number away. Tells whether its word has others.
pub(crate) fn unset(bits: &mut Vec<u64>, place: usize) -> bool
    requires { place / 64 < length bits.old.items }
    ensures here { is_in bits.new.items place ≡ false }
    ensures others { (p : ℕ) → p ≢ place → is_in bits.new.items p ≡ is_in bits.old.items p }
    ensures some { result ≡ has_some bits.new.items (place / 64) }
    ensures had { has_some bits.new.items (place / 64) ≡ true → has_some bits.old.items (place / 64) ≡ true }
    ensures rest { (w : ℕ) → w ≢ place / 64 → slice_index bits.new.items w ≡ slice_index bits.old.items w }
    ensures length { length bits.new.items ≡ length bits.old.items }
{
    let word = bits[place / 64] & !(1 << (place % 64));
    bits[place / 64] = word;
    word != 0
}

/// The least number from this one on whose bit is set in the same word, or none.
pub(crate) fn next_in_word(bits: &[u64], from: usize) -> Option<usize>
    requires { length bits.now ≤ 2 ^ 18 }
    ensures { IsNextInWord bits.now from result }
{
    if from / 64 >= bits.len() {
        return None;
    }
    let rest = bits[from / 64] >> (from % 64);
    if rest == 0 {
        None
    } else {
        Some(from + rest.trailing_zeros() as usize)
    }
}

/// The least word from this one on that has a bit, or none, by a walk over the words.
fn next_word(bits: &[u64], from: usize) -> Option<usize>
    ensures { IsNext (has_some bits.now) from result }
{
    for word in from..bits.len() {
        if bits[word] != 0 {
            return Some(word);
        }
    }
    None
}

/// The least number from this one on whose bit is set, or none, where its own word has none from there on, and by the next word that has some.
pub(crate) fn next_behind(bits: &[u64], from: usize, word: Option<usize>) -> Option<usize>
    requires few { length bits.now ≤ 2 ^ 18 }
    requires here { (q : ℕ) → from ≤ q → q / 64 ≡ from / 64 → is_in bits.now q ≡ false }
    requires word { IsNext (has_some bits.now) (from / 64 + 1) word }
    ensures { IsNext (is_in bits.now) from result }
{
    next_in_word(bits, word? * 64)
}

/// The least number from this one on whose bit is set in the top layer, or none.
fn next_on_top(bits: &[u64], from: usize) -> Option<usize>
    requires { length bits.now ≤ 2 ^ 18 }
    ensures { IsNext (is_in bits.now) from result }
{
    match next_in_word(bits, from) {
        Some(place) => Some(place),
        None => next_behind(bits, from, next_word(bits, from / 64 + 1)),
    }
}

/// The least number from this one on whose bit is set in the layer below the top one, or none.
pub(crate) fn next_below(bits: &[u64], top: &[u64], from: usize) -> Option<usize>
    requires few { (length bits.now ≤ 2 ^ 18) × (length top.now ≤ 2 ^ 18) }
    requires sums { IsSummary bits.now top.now }
    ensures { IsNext (is_in bits.now) from result }
{
    match next_in_word(bits, from) {
        Some(place) => Some(place),
        None => next_behind(bits, from, next_on_top(top, from / 64 + 1)),
    }
}
