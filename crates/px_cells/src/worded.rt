// The trait of scalars, and calls of it with a fixed number of operands.
ghost use Rattle.std.specs.Prelude.{◌≡◌, ◌*◌, ◌<◌, ◌≤◌, ◌^◌, ◌∷◌, [], ℕ, List, Some, IfOk, OnOk, length};
ghost use Rattle.std.specs.List.{AllByRecursion};
ghost use Rattle.std.specs.Mem.{type_size};
ghost use Rattle.px_words.specs.Operator.{AreOperands, IsOperator, bits_of, widths_of};
ghost use Rattle.px_cells.specs.Algebra.{Algebra, Laws};
ghost use Rattle.px_cells.specs.Elements.{selected, stored};
ghost use Rattle.px_cells.specs.Operands.{IsConstant};
ghost use Rattle.px_cells.specs.Slots.{IsSlotOf};

use crate::{Slot, Widths};
use px_words::Op;
use std::alloc::{AllocError, Global};

/// A scalar of the machine: a word, perhaps with more beside it that stands in a pool.
///
/// What an operator gives is a definition of the implementation's own, for the pool, the operator and the operands.
/// By the laws its word is the operator's value of the operands' words, it stands in the new pool at its width,
/// and so does all that stood in the old one.
pub trait Worded: Copy {
    /// Where the parts beside the words stand.
    type Pool;

    /// What operators give, and the word of a scalar.
    ghost algebra: { Algebra Self.Pool Self };

    /// What is true of a pool.
    ghost sound: { Self.Pool → Type 0 };

    /// The scalar stands in the pool at a width in bits.
    ghost stands: { Self.Pool → ℕ → Self → Type 0 };

    /// What an operator gives of operands that stand in the pool at its widths.
    /// After want of memory the pool may have gained something.
    fn apply(
        alloc: Global,
        pool: &mut Self::Pool,
        op: Op,
        operands: &[Self],
    ) -> Result<Self, AllocError>
        requires operator { IsOperator op }
        requires pool { sound pool.old }
        requires operands { AreOperands (stands pool.old) (widths_of op) operands.now }
        ensures { IfOk result (λ x. algebra.applied pool.old op operands.now ≡ record { scalar = x; pool = pool.new }) };

    /// The scalar of a constant, which has no operands.
    /// After want of memory the pool may have gained something.
    fn constant(alloc: Global, pool: &mut Self::Pool, op: Op) -> Result<Self, AllocError>
        requires operator { IsConstant op }
        requires pool { sound pool.old }
        ensures { IfOk result (λ x. algebra.applied pool.old op [] ≡ record { scalar = x; pool = pool.new }) };

    /// The element at an index among the slots of a cell, all numbers, and 0 past the last: for each element in order
    /// a test whether the index is its number, and a choice. So it is the right one for all words of the index.
    /// After want of memory the pool may have gained something.
    fn select(
        alloc: Global,
        pool: &mut Self::Pool,
        widths: Widths,
        index: Self,
        elements: &[Slot<Self>],
    ) -> Result<Self, AllocError>
        requires pool { sound pool.old }
        requires index { stands pool.old (bits_of widths.index) index }
        requires elements { AllByRecursion (IsSlotOf (stands pool.old) (Some widths.element)) elements.now }
        requires short { length elements.now ≤ 2 ^ 32 }
        ensures { IfOk result (λ x. selected algebra widths index elements.now pool.old ≡ record { scalar = x; pool = pool.new }) };

    /// Writes the element at an index among the slots of a cell, all numbers, and none past the last: each element, in order,
    /// becomes a choice by a test whether the index is its number. So each is the right one for all words of the index.
    /// After want of memory the pool may have gained something, and some elements may be written.
    fn store(
        alloc: Global,
        pool: &mut Self::Pool,
        widths: Widths,
        index: Self,
        value: Self,
        elements: &mut [Slot<Self>],
    ) -> Result<(), AllocError>
        requires pool { sound pool.old }
        requires index { stands pool.old (bits_of widths.index) index }
        requires value { stands pool.old (bits_of widths.element) value }
        requires elements { AllByRecursion (IsSlotOf (stands pool.old) (Some widths.element)) elements.old }
        requires short { length elements.old ≤ 2 ^ 32 }
        ensures { OnOk result (stored algebra widths index value elements.old pool.old ≡ record { slots = elements.new; pool = pool.new }) };

    /// The word of a scalar under the words of the run.
    fn word(&self) -> u64
        ensures { result ≡ algebra.word self.now };

    ghost laws: { Laws sound stands algebra };

    // Three scalars are no longer than memory.
    ghost small: { 3 * type_size Self.row < 2 ^ 63 };
}

/// The scalar of a constant's pattern, which lies in its width.
pub fn constant<W: Worded>(
    alloc: Global,
    pool: &mut W::Pool,
    wide: bool,
    pattern: u64,
) -> Result<W, AllocError>
    requires operator { IsConstant (Op.Const wide pattern) }
    requires pool { W.sound pool.old }
    ensures { IfOk result (λ x. W.algebra.applied pool.old (Op.Const wide pattern) [] ≡ record { scalar = x; pool = pool.new }) }
{
    W::constant(alloc, pool, Op::Const { wide, pattern })
}

/// What an operator of one operand gives.
pub fn apply_one<W: Worded>(
    alloc: Global,
    pool: &mut W::Pool,
    op: Op,
    operand: W,
) -> Result<W, AllocError>
    requires operator { IsOperator op }
    requires pool { W.sound pool.old }
    requires operands { AreOperands (W.stands pool.old) (widths_of op) (operand ∷ []) }
    ensures { IfOk result (λ x. W.algebra.applied pool.old op (operand ∷ []) ≡ record { scalar = x; pool = pool.new }) }
{
    W::apply(alloc, pool, op, &[operand])
}

/// What an operator of two operands gives.
pub fn apply_two<W: Worded>(
    alloc: Global,
    pool: &mut W::Pool,
    op: Op,
    first: W,
    second: W,
) -> Result<W, AllocError>
    requires operator { IsOperator op }
    requires pool { W.sound pool.old }
    requires operands { AreOperands (W.stands pool.old) (widths_of op) (first ∷ second ∷ []) }
    ensures { IfOk result (λ x. W.algebra.applied pool.old op (first ∷ second ∷ []) ≡ record { scalar = x; pool = pool.new }) }
{
    W::apply(alloc, pool, op, &[first, second])
}

/// What an operator of three operands gives.
pub fn apply_three<W: Worded>(
    alloc: Global,
    pool: &mut W::Pool,
    op: Op,
    first: W,
    second: W,
    third: W,
) -> Result<W, AllocError>
    requires operator { IsOperator op }
    requires pool { W.sound pool.old }
    requires operands { AreOperands (W.stands pool.old) (widths_of op) (first ∷ second ∷ third ∷ []) }
    ensures { IfOk result (λ x. W.algebra.applied pool.old op (first ∷ second ∷ third ∷ []) ≡ record { scalar = x; pool = pool.new }) }
{
    W::apply(alloc, pool, op, &[first, second, third])
}
