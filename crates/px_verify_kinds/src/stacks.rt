// Stacks that share what lies below.
ghost use Rattle.std.specs.Prelude.{◌≡◌, ◌++◌, ◌∷◌, [], ℕ, List, Some, None, length, reverse, IfOk, MatchOption};
ghost use Rattle.px_program.specs.Formed.{AreTypes};
ghost use Rattle.px_verify_kinds.specs.Kinds.{merge};
ghost use Rattle.px_verify_kinds.specs.Stacks.{Extends, IsMerged, IsStack, IsStackIn, kinds_in, kinds_of};
ghost use Rattle.px_verify_kinds.specs.declared.stacks.Cell.{Cell};

use crate::Kind;
use crate::kind::{is_same, merge_kind};
use px_program::Program;
use sqlite_items::Items;
use std::alloc::{AllocError, Global};
use std::marker::Model;

/// A stack, by the number of its top cell: 0 is the empty stack.
#[derive(Clone, Copy, PartialEq, Eq)]
pub struct Stack {
    top: u32,
}

impl Stack {
    /// The stack that holds nothing.
    pub fn empty() -> Stack
        ensures there { (cells : List Cell) → IsStack cells result }
        ensures kinds { (cells : List Cell) → kinds_of cells result ≡ [] }
    {
        Stack { top: 0 }
    }
}

/// A kind, the number of the cell below it, and how high its stack is.
#[derive(Clone, Copy)]
pub struct Cell {
    kind: Kind,
    below: u32,
    height: u32,
}

/// Stacks that share what lies below, seen as their cells, the newest first.
#[derive(Drop)]
pub struct Stacks {
    cells: Vec<Cell>,
}

impl Model for Stacks {
    ghost use Rattle.std.specs.Prelude.{List, reverse};
    ghost use Rattle.px_verify_kinds.specs.Stacks.{AreStacks};
    ghost use Rattle.px_verify_kinds.specs.declared.stacks.Cell.{Cell};

    ghost Value = { List Cell };

    ghost view = { λ s. reverse s.cells.items };

    ghost invariant = { λ s. AreStacks s.cells.items };
}

// What two stacks become above what they share: kinds, the top first, and whether one differs from the first stack's.
#[derive(Drop)]
struct Merged {
    kinds: Vec<Kind>,
    rest: Stack,
    changes: bool,
}

impl Stacks {
    /// No stack but the empty one.
    pub fn new(alloc: Global) -> Stacks
        ensures { result ≡ [] }
    {
        Stacks {
            cells: Vec::new(alloc),
        }
    }

    /// How many values a stack holds.
    pub fn height(&self, stack: Stack) -> u32
        requires { IsStack self.now stack }
        ensures { result ≡ length (kinds_of self.now stack) }
    {
        if stack.top == 0 {
            return 0;
        }
        self.cells[stack.top as usize - 1].height
    }

    /// The kind on top of a stack, and the stack below it. None where it is empty.
    pub fn pop(&self, stack: Stack) -> Option<(Kind, Stack)>
        requires { IsStack self.now stack }
        ensures kinds { MatchOption result (kinds_of self.now stack ≡ []) (λ top. kinds_of self.now stack ≡ top.0 ∷ kinds_of self.now top.1) }
        ensures there { MatchOption result (stack.top ≡ 0) (λ top. IsStack self.now top.1) }
    {
        if stack.top == 0 {
            return None;
        }
        let cell = self.cells[stack.top as usize - 1];
        Some((cell.kind, Stack { top: cell.below }))
    }

    /// A stack with one value more. Where there would be 2^32 cells, it answers want of memory.
    pub fn push(&mut self, below: Stack, kind: Kind) -> Result<Stack, AllocError>
        requires { IsStack self.old below }
        ensures pushed { IfOk result (λ stack. kinds_of self.new stack ≡ kind ∷ kinds_of self.old below) }
        ensures there { IfOk result (IsStack self.new) }
        ensures kept { Extends self.old self.new }
    {
        let count = self.cells.len();
        if count >= u32::MAX as usize {
            return Err(AllocError);
        }
        let height = self.height(below) + 1;
        self.cells.push(Cell {
            kind,
            below: below.top,
            height,
        })?;
        Ok(Stack {
            top: count as u32 + 1,
        })
    }

    // A stack with these values more, the first of which is its top.
    fn push_all(&mut self, below: Stack, kinds: Vec<Kind>) -> Result<Stack, AllocError>
        requires { IsStack self.old below }
        ensures pushed { IfOk result (λ stack. kinds_of self.new stack ≡ kinds.items ++ kinds_of self.old below) }
        ensures there { IfOk result (IsStack self.new) }
        ensures kept { Extends self.old self.new }
    {
        let mut at = below;
        let mut left = kinds;
        while let Some(kind) = left.pop() {
            at = self.push(at, kind)?;
        }
        Ok(at)
    }

    // What two stacks become, down to where they are one.
    fn merged(
        &self,
        alloc: Global,
        program: &Program,
        standing: Stack,
        given: Stack,
    ) -> Result<Option<Merged>, AllocError>
        requires types { AreTypes program.now.types }
        requires standing { IsStack self.now standing }
        requires given { IsStack self.now given }
        ensures { IfOk result (λ o. MatchOption o (merge program.now.types (kinds_of self.now standing) (kinds_of self.now given) ≡ None) (λ m. IsMerged program.now.types self.now standing given m.kinds.items m.rest m.changes)) }
    {
        let (mut at, mut other) = (standing, given);
        let mut kinds = Vec::new(alloc);
        let mut changes = false;
        while at.top != other.top {
            let (Some(top), Some(given_top)) = (self.pop(at), self.pop(other)) else {
                return Ok(None);
            };
            let Some(kind) = merge_kind(program, top.0, given_top.0) else {
                return Ok(None);
            };
            let stays = is_same(kind, top.0);
            changes = changes | !stays;
            kinds.push(kind)?;
            at = top.1;
            other = given_top.1;
        }
        Ok(Some(Merged {
            kinds,
            rest: at,
            changes,
        }))
    }

    /// What a stack becomes where another one comes to it: None where they don't merge, and the stack itself where nothing changes.
    /// It looks at no value below the place from which on they are one stack.
    pub fn merge(
        &mut self,
        alloc: Global,
        program: &Program,
        standing: Stack,
        given: Stack,
    ) -> Result<Option<Stack>, AllocError>
        requires types { AreTypes program.now.types }
        requires standing { IsStack self.old standing }
        requires given { IsStack self.old given }
        ensures merged { IfOk result (λ stack. kinds_in self.new stack ≡ merge program.now.types (kinds_of self.old standing) (kinds_of self.old given)) }
        ensures there { IfOk result (IsStackIn self.new) }
        ensures kept { Extends self.old self.new }
        ensures same { IfOk result (λ stack. kinds_in self.new stack ≡ Some (kinds_of self.old standing) → stack ≡ Some standing) }
    {
        if self.height(standing) != self.height(given) {
            return Ok(None);
        }
        let Some(merged) = self.merged(alloc, program, standing, given)? else {
            return Ok(None);
        };
        if !merged.changes {
            return Ok(Some(standing));
        }
        Ok(Some(self.push_all(merged.rest, merged.kinds)?))
    }

    /// The kinds of a stack, its bottom first.
    pub fn kinds(&self, alloc: Global, stack: Stack) -> Result<Items<Kind>, AllocError>
        requires { IsStack self.now stack }
        ensures { IfOk result (λ kinds. kinds ≡ reverse (kinds_of self.now stack)) }
    {
        let mut kinds = Vec::new(alloc);
        let mut at = stack;
        while let Some((kind, below)) = self.pop(at) {
            kinds.push(kind)?;
            at = below;
        }
        kinds.reverse();
        Ok(Items::from_vec(kinds))
    }
}
