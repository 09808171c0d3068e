//! Places of a list of 2^n values: each is an assignment, bit v being the value of variable v, or a combination.

ghost use Rattle.std.specs.Prelude.{◌≡◌, ◌<◌, ◌^◌, IsTrue, bit_or, length};
ghost use Rattle.edge_bits.specs.Assignments.{bit, set_bit};
ghost use Rattle.function_laws.specs.Lists.{is_size, truth};
ghost use Rattle.function_laws.specs.Values.{cofactor};
ghost use Rattle.function_laws.specs.Restricting.{set_bits};

/// The assignment k with the variable set.
fn with_bit(k: usize, var: u32, value: bool) -> usize
    requires var { var < 32 }
    requires k { k < 2 ^ 32 }
    ensures { result ≡ set_bit k var value }
{
    let low = k % (1 << var);
    let high = k / (1 << var) / 2;
    let digit = if value { 1 } else { 0 };
    (high * 2 + digit) * (1 << var) + low
}

/// Of a list of so many values, the place k with the variable set.
pub(crate) fn place_with(size: usize, k: usize, var: u32, value: bool) -> usize
    requires size { IsTrue (is_size size) }
    requires var { 2 ^ var < size }
    requires place { k < size }
    ensures value { result ≡ set_bit k var value }
    ensures within { result < size }
{
    with_bit(k, var, value)
}

/// Of a list of so many values, whether the variable is 1 at the place k.
pub(crate) fn bit_of(size: usize, k: usize, var: u32) -> bool
    requires size { IsTrue (is_size size) }
    requires var { 2 ^ var < size }
    ensures { result ≡ bit k var }
{
    k / (1 << var) % 2 == 1
}

/// The value at k of f with the variable set.
pub(crate) fn cofactor_at(f: &[bool], var: u32, value: bool, k: usize) -> bool
    requires size { IsTrue (is_size (length f.now)) }
    requires var { 2 ^ var < length f.now }
    requires place { k < length f.now }
    ensures { result ≡ cofactor (truth f.now) var value k }
{
    f[place_with(f.len(), k, var, value)]
}

/// The value of p at the union of two combinations.
pub(crate) fn union_at(p: &[bool], a: usize, b: usize) -> bool
    requires size { IsTrue (is_size (length p.now)) }
    requires first { a < length p.now }
    requires second { b < length p.now }
    ensures { result ≡ truth p.now (bit_or a b) }
{
    p[a | b]
}

/// The value at k of f with the variables of `cares` set to their bits of `bits`.
pub(crate) fn literals_at(f: &[bool], cares: usize, bits: usize, k: usize) -> bool
    requires size { IsTrue (is_size (length f.now)) }
    requires bits { bits < length f.now }
    requires place { k < length f.now }
    ensures { result ≡ truth f.now (set_bits k cares bits) }
{
    let at = (k ^ (k & cares)) | bits;
    f[at]
}
