//! What makes a function of others, by the kind of what is made.

ghost use Rattle.std.specs.Prelude.{◌≡◌, ⊤};

use std::alloc::AllocError;

/// What makes a function. `R` is what stands for one, as a name in a history or a register's number in a job; `V` are some
/// variables, and `P` some with functions that are put for them.
#[derive(Copy, Drop)]
pub enum Making<R, V, P> {
    /// A BDD.
    Bdd(BddMaking<R, V, P>),
    /// An ADD of values that are in range.
    Add(AddMaking<R>),
    /// An ADD whose values may be out of range.
    Exact(ExactMaking<R>),
    /// A ZDD.
    Zdd(ZddMaking<R>),
}

impl<R: Copy, V: Copy, P: Copy> Clone for Making<R, V, P> {
    ghost is_clone = { λ x y. y ≡ x };

    ghost is_infallible = { λ _. ⊤ };

    fn clone(&self) -> Result<Making<R, V, P>, AllocError> {
        Ok(*self)
    }
}

/// What makes a BDD.
#[derive(Copy, Drop)]
pub enum BddMaking<R, V, P> {
    /// The function that holds everywhere.
    One,
    /// The function that holds nowhere.
    Zero,
    /// The projection of a variable.
    Var(u32),
    /// The complement of a function.
    Not(R),
    /// The conjunction of two functions.
    And(R, R),
    /// The disjunction of two functions.
    Or(R, R),
    /// Where one of two functions holds and the other does not.
    Xor(R, R),
    /// The second function where the first holds, elsewhere the third.
    Ite(R, R, R),
    /// The function where the variable has the value.
    Cofactor(R, u32, bool),
    /// Where the function holds for some values of the variables.
    Exists(R, V),
    /// Where the function holds for all values of the variables.
    Forall(R, V),
    /// Where the conjunction of two functions holds for some values of the variables.
    AndExists(R, R, V),
    /// The first function with the second put for the variable.
    Compose(R, u32, R),
    /// The function with each function of a pair put for the variable of the pair, all at once.
    VectorCompose(R, P),
    /// A function that agrees with the first function where the second holds.
    Restrict(R, R),
    /// The product of the variables on which the function depends.
    Support(R),
    /// Where the function is at least the number.
    AtLeast(R, i64),
    /// Where the function is not 0.
    Pattern(R),
    /// Where some combination of a cover fits: element 2v is the variable v, 2v + 1 its complement (Minato 1993).
    CoverOf(R),
}

impl<R: Copy, V: Copy, P: Copy> Clone for BddMaking<R, V, P> {
    ghost is_clone = { λ x y. y ≡ x };

    ghost is_infallible = { λ _. ⊤ };

    fn clone(&self) -> Result<BddMaking<R, V, P>, AllocError> {
        Ok(*self)
    }
}

/// What makes an ADD whose values are in range.
#[derive(Copy, Drop)]
pub enum AddMaking<R> {
    /// The constant, from -2^46 to 2^46 - 1.
    Constant(i64),
    /// 1 where the function holds, 0 elsewhere.
    FromBdd(R),
    /// The lesser of two functions, place by place.
    Min(R, R),
    /// The greater of two functions, place by place.
    Max(R, R),
    /// The first function where it is at least the second, elsewhere 0.
    Threshold(R, R),
    /// The second function where the first, a BDD, holds, elsewhere the third.
    AddIte(R, R, R),
}

impl<R: Copy> Clone for AddMaking<R> {
    ghost is_clone = { λ x y. y ≡ x };

    ghost is_infallible = { λ _. ⊤ };

    fn clone(&self) -> Result<AddMaking<R>, AllocError> {
        Ok(*self)
    }
}

/// What makes an ADD whose values may be out of range, from -2^46 to 2^46 - 1.
#[derive(Copy, Drop)]
pub enum ExactMaking<R> {
    /// The sum of two functions, place by place.
    Plus(R, R),
    /// The first function less the second, place by place.
    Minus(R, R),
    /// The product of two functions, place by place.
    Times(R, R),
    /// The sum of the function's two cofactors by the variable.
    SumOver(R, u32),
}

impl<R: Copy> Clone for ExactMaking<R> {
    ghost is_clone = { λ x y. y ≡ x };

    ghost is_infallible = { λ _. ⊤ };

    fn clone(&self) -> Result<ExactMaking<R>, AllocError> {
        Ok(*self)
    }
}

/// What makes a ZDD, a family of combinations of elements.
#[derive(Copy, Drop)]
pub enum ZddMaking<R> {
    /// The family without combinations.
    Empty,
    /// The family of the empty combination alone.
    Base,
    /// The family of one combination, of the element alone.
    Single(u32),
    /// The combinations of either family.
    Union(R, R),
    /// The combinations of both families.
    Meet(R, R),
    /// The combinations of the first family that are none of the second.
    Diff(R, R),
    /// The combinations with the element, which is taken out of them.
    Subset1(R, u32),
    /// The combinations without the element.
    Subset0(R, u32),
    /// The combinations, the element taken out where it was, and put in where it was not.
    Change(R, u32),
    /// All unions of a combination of the first family and one of the second.
    Product(R, R),
    /// The combinations that meet no combination of the second family and, joined with each of them, give one of the first; none where the second is empty.
    Quotient(R, R),
    /// An irredundant cover that reaches where the first function holds, and stays within where the second does (Morreale 1970, Minato 1993).
    Isop(R, R),
}

impl<R: Copy> Clone for ZddMaking<R> {
    ghost is_clone = { λ x y. y ≡ x };

    ghost is_infallible = { λ _. ⊤ };

    fn clone(&self) -> Result<ZddMaking<R>, AllocError> {
        Ok(*self)
    }
}
