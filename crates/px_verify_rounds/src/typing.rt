// The typing of a method as it is kept.
ghost use Rattle.std.specs.Prelude.{◌≡◌, ◌∷◌, [], None, IfOk, MatchOption, Some, reverse, slice_get};
ghost use Rattle.std.specs.Option.{option_map};
ghost use Rattle.px_program.specs.Formed.{AreTypes};
ghost use Rattle.px_verify_kinds.specs.Stacks.{Extends, IsStack, IsStackIn, kinds_in, kinds_of};
ghost use Rattle.px_verify_kinds.specs.declared.kind.Kind.TheVariants.{Ref};
ghost use Rattle.px_verify_rounds.specs.Rounds.{Gave};
ghost use Rattle.px_verify_rounds.specs.Table.{clashes, outcome_at, stack_at};
ghost use Rattle.px_verify_rounds.specs.Typings.{GivesAs, IsValid, table_of};

use px_program::{Instr, Method, Program};
use px_verify_flow::{Stop, VerifyKind, flow};
use px_verify_kinds::{Kind, Stack, Stacks};
use sqlite_items::Items;
use std::alloc::{AllocError, Global};

/// For each offset of a method's code the stack that the instruction there finds, where it was given one.
#[derive(Drop)]
pub struct Typing {
    pub(crate) stacks: Stacks,
    pub(crate) entries: Vec<Option<Stack>>,
}

/// What an instruction gives to those that it leads to.
#[derive(Clone, Copy)]
pub enum Given {
    /// It was given no stack itself.
    Nothing,
    /// It has a fault.
    Fault(VerifyKind),
    /// A stack.
    Stack(Stack),
}

impl Typing {
    /// The stack at an offset, where there is one.
    fn entry(&self, at: u32) -> Option<Stack>
        requires { IsValid self.now }
        ensures kinds { kinds_in self.now.stacks result ≡ stack_at (table_of self.now) at }
        ensures there { IsStackIn self.now.stacks result }
    {
        match self.entries.get(at as usize) {
            Some(entry) => *entry,
            None => None,
        }
    }

    /// Gives a stack to an offset, and says whether that changed what stands there.
    pub(crate) fn give(
        &mut self,
        alloc: Global,
        program: &Program,
        given: Stack,
        at: u32,
    ) -> Result<bool, AllocError>
        requires types { AreTypes program.now.types }
        requires given { IsStack self.old.stacks given }
        requires valid { IsValid self.old }
        ensures gave { IfOk result (Gave program.now.types (kinds_of self.old.stacks given) at (table_of self.old) (table_of self.new)) }
        ensures kept { Extends self.old.stacks self.new.stacks }
        ensures valid { IsValid self.new }
    {
        match self.entries.get(at as usize) {
            None => Ok(false),
            Some(None) => {
                self.entries[at as usize] = Some(given);
                Ok(true)
            }
            Some(Some(standing)) => {
                let standing = *standing;
                self.meet(alloc, program, standing, given, at)
            }
        }
    }

    // Merges a stack with the one that stands at an offset.
    fn meet(
        &mut self,
        alloc: Global,
        program: &Program,
        standing: Stack,
        given: Stack,
        at: u32,
    ) -> Result<bool, AllocError>
        requires types { AreTypes program.now.types }
        requires standing { slice_get self.old.entries.items at ≡ Some (Some standing) }
        requires given { IsStack self.old.stacks given }
        requires valid { IsValid self.old }
        ensures gave { IfOk result (Gave program.now.types (kinds_of self.old.stacks given) at (table_of self.old) (table_of self.new)) }
        ensures kept { Extends self.old.stacks self.new.stacks }
        ensures valid { IsValid self.new }
    {
        match self.stacks.merge(alloc, program, standing, given)? {
            None => Ok(false),
            Some(merged) => {
                if merged == standing {
                    Ok(false)
                } else {
                    self.entries[at as usize] = Some(merged);
                    Ok(true)
                }
            }
        }
    }

    /// The stack of a caught object.
    pub fn caught(&mut self, class: u32) -> Result<Stack, AllocError>
        requires { IsValid self.old }
        ensures kinds { IfOk result (λ caught. kinds_of self.new.stacks caught ≡ Ref class ∷ []) }
        ensures there { IfOk result (IsStack self.new.stacks) }
        ensures same { table_of self.new ≡ table_of self.old }
        ensures kept { Extends self.old.stacks self.new.stacks }
        ensures valid { IsValid self.new }
    {
        self.stacks.push(Stack::empty(), Kind::Ref(class))
    }

    /// What an instruction makes of the stack that it finds, where it finds one.
    pub fn outcome(
        &mut self,
        program: &Program,
        method: &Method,
        instr: &Instr,
    ) -> Result<Given, AllocError>
        requires types { AreTypes program.now.types }
        requires valid { IsValid self.old }
        ensures gives { IfOk result (λ given. GivesAs self.new.stacks given (outcome_at program.now method.now (table_of self.old) instr.now)) }
        ensures same { table_of self.new ≡ table_of self.old }
        ensures kept { Extends self.old.stacks self.new.stacks }
        ensures valid { IsValid self.new }
    {
        match self.entry(instr.offset) {
            None => Ok(Given::Nothing),
            Some(stack) => match flow(program, method, instr, &mut self.stacks, stack) {
                Ok(given) => Ok(Given::Stack(given)),
                Err(Stop::Fault(kind)) => Ok(Given::Fault(kind)),
                Err(Stop::Memory) => Err(AllocError),
            },
        }
    }

    /// Whether a stack doesn't merge with the one that stands at an offset.
    pub fn clashes(
        &mut self,
        alloc: Global,
        program: &Program,
        at: u32,
        given: Stack,
    ) -> Result<bool, AllocError>
        requires types { AreTypes program.now.types }
        requires given { IsStack self.old.stacks given }
        requires valid { IsValid self.old }
        ensures clash { IfOk result (λ b. b ≡ clashes program.now.types (table_of self.old) at (kinds_of self.old.stacks given)) }
        ensures same { table_of self.new ≡ table_of self.old }
        ensures kept { Extends self.old.stacks self.new.stacks }
        ensures valid { IsValid self.new }
    {
        match self.entry(at) {
            None => Ok(false),
            Some(standing) => {
                let merged = self.stacks.merge(alloc, program, standing, given)?;
                Ok(merged.is_none())
            }
        }
    }

    /// The kinds of the stack at an offset, its bottom first, where there is one.
    pub fn kinds_at(&self, alloc: Global, at: u32) -> Result<Option<Items<Kind>>, AllocError>
        requires { IsValid self.now }
        ensures { IfOk result (λ kinds. kinds ≡ option_map reverse (stack_at (table_of self.now) at)) }
    {
        match self.entry(at) {
            None => Ok(None),
            Some(stack) => {
                let kinds = self.stacks.kinds(alloc, stack)?;
                Ok(Some(kinds))
            }
        }
    }
}
