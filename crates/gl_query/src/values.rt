//! The numbers of an answer.
ghost use Rattle.std.specs.Prelude.{◌≡◌, ◌≤◌, [], ◌∷◌, length, map};
ghost use Rattle.gl_query.specs.Values.{code as code_of, one as one_of, raws as raws_of, truth as truth_of};

use arrayvec::ArrayVec;
use fx_arith::{Fx, Mat4};

/// What a query answers: up to 16 numbers. A GLfixed is answered as its raw number, a truth value as 0 or 1.
pub type Values = ArrayVec<i64, 16>;

/// These numbers, at most 16.
pub(crate) fn numbers(list: &[i64]) -> Values
    requires { length list.now ≤ 16 }
    ensures { result.items ≡ list.now }
{
    let mut values = Values::new();
    match values.try_extend_from_slice(list) {
        Ok(()) => values,
        Err(_) => unreachable!(),
    }
}

/// One number.
pub(crate) fn one(number: i32) -> Values
    ensures { result.items ≡ one_of number }
{
    numbers(&[i64::from(number)])
}

/// A code, or another number without a sign.
pub(crate) fn code(number: u32) -> Values
    ensures { result.items ≡ code_of number }
{
    numbers(&[i64::from(number)])
}

/// Four numbers with a sign.
pub(crate) fn four(a: i32, b: i32, c: i32, d: i32) -> Values
    ensures { result.items ≡ a ∷ b ∷ c ∷ d ∷ [] }
{
    numbers(&[i64::from(a), i64::from(b), i64::from(c), i64::from(d)])
}

/// The raw numbers of two, three or four GLfixed.
pub(crate) fn raws2(list: [Fx; 2]) -> Values
    ensures { result.items ≡ raws_of list }
{
    let [a, b] = list;
    numbers(&[i64::from(a.0), i64::from(b.0)])
}

pub(crate) fn raws3(list: [Fx; 3]) -> Values
    ensures { result.items ≡ raws_of list }
{
    let [a, b, c] = list;
    numbers(&[i64::from(a.0), i64::from(b.0), i64::from(c.0)])
}

pub(crate) fn raws4(list: [Fx; 4]) -> Values
    ensures { result.items ≡ raws_of list }
{
    let [a, b, c, d] = list;
    four(a.0, b.0, c.0, d.0)
}

/// How many matrices a stack has.
pub(crate) fn depth(number: u8) -> Values
    ensures { result.items ≡ code_of number }
{
    code(u32::from(number))
}

/// The raw numbers of a matrix, column by column.
pub(crate) fn matrix(m: &Mat4) -> Values
    ensures { result.items ≡ raws_of m.now.0 }
{
    raws(&m.0)
}

/// The raw numbers of GLfixed numbers, at most 16.
fn raws(list: &[Fx]) -> Values
    requires { length list.now ≤ 16 }
    ensures { result.items ≡ raws_of list.now }
{
    let mut values = Values::new();
    'numbers: for number in list {
        values.push(i64::from(number.0));
    }
    values
}

/// A truth value, as the one number that IsEnabled answers.
pub fn truth(flag: bool) -> Values
    ensures { result.items ≡ one_of (truth_of flag) }
{
    one(i32::from(flag))
}

/// Four truth values.
pub(crate) fn truths(flags: [bool; 4]) -> Values
    ensures { result.items ≡ map truth_of flags }
{
    let [a, b, c, d] = flags;
    four(i32::from(a), i32::from(b), i32::from(c), i32::from(d))
}
