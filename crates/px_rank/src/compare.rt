// Distances of comparisons.
ghost use Rattle.std.specs.Prelude.{◌≡◌, ◌<◌, ◌≤◌, ◌^◌, ◌↔◌, ℕ, IsTrue, not, unsigned_abs};
ghost use Rattle.px_rank.specs.Distance.{bits_of, distance_of, gap_of, holds, number_by, opposite, opposite_test, passes, shortfall};

use px_program::{Compare, Test};

// The number that the comparison reads the pattern as.
fn number_by(compare: Compare, a: u64) -> i128
    requires { a < 2 ^ bits_of compare.wide }
    ensures is { result ≡ number_by compare a }
    ensures small { unsigned_abs result < 2 ^ 64 }
{
    match (compare.signed, compare.wide) {
        (false, _) => i128::from(a),
        (true, true) => i128::from(a.cast_signed()),
        (true, false) => i128::from((a as u32).cast_signed()),
    }
}

// Whether the test holds of the numbers.
fn passes(test: Test, x: i128, y: i128) -> bool
    ensures { result ≡ passes test x y }
{
    match test {
        Test::Eq => x == y,
        Test::Ne => x != y,
        Test::Gt => x > y,
        Test::Ge => x >= y,
        Test::Lt => x < y,
        Test::Le => x <= y,
    }
}

// How far numbers that fail the test are from passing it.
fn shortfall(test: Test, x: i128, y: i128) -> u128
    requires left { unsigned_abs x < 2 ^ 64 }
    requires right { unsigned_abs y < 2 ^ 64 }
    ensures { result ≡ shortfall test x y }
{
    match test {
        Test::Eq => (x - y).unsigned_abs(),
        Test::Ne => 1,
        Test::Gt => (y - x + 1).unsigned_abs(),
        Test::Ge => (y - x).unsigned_abs(),
        Test::Lt => (x - y + 1).unsigned_abs(),
        Test::Le => (x - y).unsigned_abs(),
    }
}

/// Whether the comparison holds of two patterns, which lie in its width.
pub fn holds(compare: Compare, a: u64, b: u64) -> bool
    requires left { a < 2 ^ bits_of compare.wide }
    requires right { b < 2 ^ bits_of compare.wide }
    ensures { result ≡ holds compare a b }
{
    passes(compare.test, number_by(compare, a), number_by(compare, b))
}

fn opposite_test(test: Test) -> Test
    ensures { result ≡ opposite_test test }
{
    match test {
        Test::Eq => Test::Ne,
        Test::Ne => Test::Eq,
        Test::Gt => Test::Le,
        Test::Ge => Test::Lt,
        Test::Lt => Test::Ge,
        Test::Le => Test::Gt,
    }
}

/// The comparison that holds of exactly the patterns of which this one doesn't.
pub fn opposite(compare: Compare) -> Compare
    ensures is { result ≡ opposite compare }
    ensures flips { (a : ℕ) (b : ℕ) → holds result a b ≡ not (holds compare a b) }
{
    Compare {
        test: opposite_test(compare.test),
        ..compare
    }
}

/// How far two patterns are from meeting the comparison: 0 where it holds, and at most 2^64 - 1.
/// The patterns lie in the width of the comparison. It takes no memory.
#[tactic(auto, unfolding(crate::specs::Distance::distance_of))]
pub fn distance(compare: Compare, a: u64, b: u64) -> u64
    requires left { a < 2 ^ bits_of compare.wide }
    requires right { b < 2 ^ bits_of compare.wide }
    ensures is { result ≡ distance_of compare a b }
    ensures zero { (result ≡ 0) ↔ IsTrue (holds compare a b) }
{
    let x = number_by(compare, a);
    let y = number_by(compare, b);
    if passes(compare.test, x, y) {
        return 0;
    }
    shortfall(compare.test, x, y).min(u128::from(u64::MAX)) as u64
}

/// How far the other side is of a branch that jumps where the comparison holds: at least 1.
/// The patterns lie in the width of the comparison.
#[tactic(auto, unfolding(crate::specs::Distance::gap_of))]
pub fn gap(compare: Compare, a: u64, b: u64) -> u64
    requires left { a < 2 ^ bits_of compare.wide }
    requires right { b < 2 ^ bits_of compare.wide }
    ensures is { result ≡ gap_of compare a b }
    ensures some { 0 < result }
{
    if holds(compare, a, b) {
        distance(opposite(compare), a, b)
    } else {
        distance(compare, a, b)
    }
}
