//! The numbers of the operations whose answers are kept. What may be kept under each says the table of cases in specs/Memo.antt.

/// The conjunction of two truth functions.
pub const AND: u8 = 1;
/// A choice of two truth functions.
pub const ITE: u8 = 2;
/// A cofactor, by the literal of its variable.
pub const COFACTOR: u8 = 3;
/// Whether one truth function implies another.
pub const LEQ: u8 = 4;
/// The quantification over the variables of a product.
pub const EXISTS: u8 = 5;
/// The quantification of a conjunction.
pub const AND_EXISTS: u8 = 6;
/// The product of the variables on which a truth function depends.
pub const SUPPORT: u8 = 7;
/// A truth function put for a variable of another.
pub const COMPOSE: u8 = 8;
/// A truth function within another.
pub const RESTRICT: u8 = 9;
/// The function of an irredundant cover between two bounds.
pub const BETWEEN: u8 = 10;
/// The sum of two functions of numbers.
pub const PLUS: u8 = 20;
/// Their difference.
pub const MINUS: u8 = 21;
/// Their product.
pub const TIMES: u8 = 22;
/// The lesser of their values.
pub const MIN: u8 = 23;
/// The greater of their values.
pub const MAX: u8 = 24;
/// The first where it is at least the second, else 0.
pub const THRESHOLD: u8 = 25;
/// A choice of two functions of numbers.
pub const ADD_ITE: u8 = 26;
/// A truth function as one of numbers.
pub const FROM_BDD: u8 = 27;
/// Where a function of numbers is not 0.
pub const PATTERN: u8 = 28;
/// The sum of both cofactors of a function of numbers.
pub const SUM_OVER: u8 = 29;
/// The union of two families.
pub const UNION: u8 = 40;
/// Their intersection.
pub const MEET: u8 = 41;
/// Their difference.
pub const DIFF: u8 = 42;
/// The unions of a combination of each.
pub const PRODUCT: u8 = 43;
/// What gives, with each combination of the second, one of the first.
pub const QUOTIENT: u8 = 44;
/// The function of a cover, by the projection of the last variable.
pub const COVER_OF: u8 = 45;
/// An irredundant cover between two bounds.
pub const ISOP: u8 = 46;
