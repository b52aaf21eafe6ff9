// Plain words.
ghost use Rattle.std.specs.Prelude.{◌≡◌, map, set, slice_get, slice_index};
ghost use Rattle.px_cells.specs.Elements.{word_in};
ghost use Rattle.px_cells.specs.Plain.{plain_word};

use crate::{Slot, Widths, Worded};
use px_words::{Op, eval};
use std::alloc::{AllocError, Global};

/// A word alone, at most 64 bits wide.
#[derive(Clone, Copy, PartialEq, Eq)]
pub struct Plain {
    /// The word's pattern.
    pub word: u64,
}

/// The pool of plain words, in which nothing stands.
#[derive(Clone, Copy, PartialEq, Eq)]
pub struct NoPool;

impl Worded for Plain {
    ghost use Rattle.px_cells.specs.Plain.{IsPlainPool, LiesIn, plain_algebra, plain_laws};
    ghost use Rattle.std.proofs.Common.{lit<};

    type Pool = NoPool;

    ghost algebra = { plain_algebra };

    ghost sound = { IsPlainPool };

    ghost stands = { LiesIn };

    ghost laws = { plain_laws };

    ghost small = { lit< tt };

    fn apply(
        _alloc: Global,
        _pool: &mut NoPool,
        op: Op,
        operands: &[Plain],
    ) -> Result<Plain, AllocError> {
        let word = eval(
            op,
            word_at(operands, 0),
            word_at(operands, 1),
            word_at(operands, 2),
        );
        Ok(Plain { word })
    }

    #[tactic(auto, unfolding(px_words::specs::Word::word))]
    fn constant(_alloc: Global, _pool: &mut NoPool, op: Op) -> Result<Plain, AllocError> {
        match op {
            Op::Const { pattern, .. } => Ok(Plain { word: pattern }),
            _ => unreachable!(),
        }
    }

    fn select(
        _alloc: Global,
        _pool: &mut NoPool,
        _widths: Widths,
        index: Plain,
        elements: &[Slot<Plain>],
    ) -> Result<Plain, AllocError> {
        let word = number_at(elements, index.word);
        Ok(Plain { word })
    }

    fn store(
        _alloc: Global,
        _pool: &mut NoPool,
        _widths: Widths,
        index: Plain,
        value: Plain,
        elements: &mut [Slot<Plain>],
    ) -> Result<(), AllocError> {
        put_at(elements, index.word, value);
        Ok(())
    }

    fn word(&self) -> u64 {
        self.word
    }
}

// The word of an operand, or 0 past the last.
fn word_at(operands: &[Plain], index: usize) -> u64
    ensures { result ≡ slice_index (map plain_word operands.now) index }
{
    operands.get(index).map_or(0, |operand| operand.word)
}

// The word of the number at an index, or 0 past the last.
fn number_at(elements: &[Slot<Plain>], index: u64) -> u64
    ensures { result ≡ word_in plain_word 0 (slice_get elements.now index) }
{
    match elements.get(index as usize) {
        Some(Slot::Number(element)) => element.word,
        _ => 0,
    }
}

// Puts a number at an index, or nowhere past the last.
fn put_at(elements: &mut [Slot<Plain>], index: u64, value: Plain)
    ensures { elements.new ≡ set elements.old index (Slot.Number value) }
{
    let index = index as usize;
    if index < elements.len() {
        elements[index] = Slot::Number(value);
    }
}
