//! Rule L: the largest remainders are rounded up.

ghost use Rattle.std.specs.Prelude.{◌≡◌, ◌≤◌, length, MatchOption};
ghost use Rattle.sharing.specs.Marks.{FirstLargest, FromNil, Marked, RemaindersOf, Topped};
ghost use Rattle.sharing.specs.Rules.{left_over, parts_l};
ghost use Rattle.sharing.specs.LawL.{law_l};

use crate::division::Division;
use crate::rule::SharingRule;
use faults::Fault;

/// Every part is rounded down, and the members with the largest remainders get one kuruş more each until the
/// amount is reached, the lower member first among equals. Over n members that takes 2n divisions and at most n²
/// comparisons.
#[derive(Clone, Copy)]
pub struct RuleL;

/// Writes the remainder of each member.
fn write_remainders(division: &Division, out: &mut [i64])
    // a weight for each part, as admission asks: a struct over both would only be taken apart again
    requires within { length division.now.weights.now ≡ length out.old }
    ensures places { RemaindersOf division.now.amount division.now.weights.now out.new }
{
    // by place: what a `zip` with `out.iter_mut()` writes is not known to the proof
    for (k, part) in out.iter_mut().enumerate() {
        *part = division.member(k).rest;
    }
}

/// What rounding every part down leaves over: how many times the remainders make up the total.
fn left_over(division: &Division, remainders: &[i64]) -> usize
    requires within { length division.now.weights.now ≡ length remainders.now }
    requires places { RemaindersOf division.now.amount division.now.weights.now remainders.now }
    ensures value { result ≡ left_over division.now.amount division.now.weights.now }
    ensures bound { result ≤ length remainders.now }
{
    let total = division.total;
    if total == 0 {
        return 0;
    }
    let mut whole = 0;
    let mut rest = 0;
    for r in remainders {
        rest += r.unsigned_abs();
        if rest >= total {
            rest -= total;
            whole += 1;
        }
    }
    whole
}

/// The lowest place of the largest number, if there is a number.
fn first_largest(numbers: &[i64]) -> Option<usize>
    ensures finds { MatchOption result (length numbers.now ≡ 0) (FirstLargest numbers.now) }
{
    let mut largest = *numbers.first()?;
    let mut place = 0;
    // one pass: `max` and then `position` took two, up to twice the comparisons
    for (k, number) in numbers.iter().enumerate() {
        if *number > largest {
            largest = *number;
            place = k;
        }
    }
    Some(place)
}

/// Marks with -1 the `spare` members that come first, each the first of the largest remainders that are left.
/// The marks stand among the remainders, since without a heap there is no other room for one mark a member.
fn mark_first(out: &mut [i64], spare: usize)
    requires within { spare ≤ length out.old }
    requires low_bound { FromNil out.old }
    ensures places { Marked out.old spare out.new }
{
    for _ in 0..spare {
        if let Some(first) = first_largest(out) {
            out[first] = -1;
        }
    }
}

/// Writes the part of each member: rounded down, and one more where the member is marked.
fn write_parts(division: &Division, out: &mut [i64])
    requires within { length division.now.weights.now ≡ length out.old }
    ensures places { Topped division.now.amount division.now.weights.now out.old out.new }
{
    // by place, as in `write_remainders`
    for (k, part) in out.iter_mut().enumerate() {
        *part = division.member(k).whole + i64::from(*part < 0);
    }
}

impl SharingRule for RuleL {
    const LETTER: u8 = b'L';

    ghost LETTER = { 76 };

    ghost parts = { parts_l };

    ghost fair = { law_l };

    fn share(&self, amount: i64, weights: &[u64], out: &mut [i64]) -> Result<(), Fault> {
        let division = Division::admitted(amount, weights, out.len())?;
        write_remainders(&division, out);
        let spare = left_over(&division, out);
        mark_first(out, spare);
        write_parts(&division, out);
        Ok(())
    }
}
