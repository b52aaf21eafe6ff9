// The types of a program, and steps along their bases.
ghost use Rattle.std.specs.Prelude.{◌≡◌, ℕ, ◌<◌, Some, length, slice_get, IfOk, OnOk, OnSome, MatchOption};
ghost use Rattle.std.specs.Option.{option_copied};
ghost use Rattle.px_program.specs.Bases.{AreSteps, AreStepsSoFar, IsSettled, IsStep, leap_of, no_step, step_of, step_on};
ghost use Rattle.px_program.specs.Lines.{HasEnd, base_of};

use crate::TypeInfo;
use sqlite_items::Items;
use std::alloc::{AllocError, Global};
use std::marker::Model;

/// How many bases a type has, and one of them to leap to. A type without a base leaps to itself.
#[derive(Clone, Copy)]
pub struct Step {
    pub depth: u32,
    pub jump: u32,
}

/// The types of a program, which contracts see as their list. Beside each the table keeps its step, by which `Program` finds its bases in time by the logarithm
/// of how many it has.
#[derive(Drop)]
pub struct TypeTable {
    types: Items<TypeInfo>,
    steps: Vec<Step>,
}

impl Model for TypeTable {
    ghost use Rattle.std.specs.Prelude.{List};
    ghost use Rattle.px_program.specs.Bases.{AreSteps};
    ghost use Rattle.px_program.specs.declared.program.TypeInfo.{TypeInfo};

    ghost Value = { List TypeInfo };

    ghost view = { λ t. t.types };

    ghost invariant = { λ t. AreSteps t.types t.steps.items };
}

impl TypeTable {
    /// The table of these types. A table of 2^32 types, and a type with that many bases, are want of memory.
    pub fn new(alloc: Global, types: Items<TypeInfo>) -> Result<TypeTable, AllocError>
        requires ends { (type : ℕ) → HasEnd (base_of types) type }
        ensures { IfOk result (λ table. table ≡ types) }
    {
        let steps = steps_of(alloc, types.as_slice())?;
        Ok(TypeTable { types, steps })
    }

    /// The types.
    pub fn as_slice(&self) -> &[TypeInfo]
        ensures { result.now ≡ self.now }
    {
        self.types.as_slice()
    }

    /// How many types there are.
    pub fn len(&self) -> usize
        ensures { result ≡ length self.now }
    {
        self.types.len()
    }

    /// The type of a number, if there is one.
    pub fn get(&self, number: usize) -> Option<&TypeInfo>
        ensures value { option_copied result ≡ slice_get self.now number }
        ensures within { OnSome result (number < length self.now) }
    {
        self.types.get(number)
    }

    /// The step of a type; a number past the list has no base.
    pub(crate) fn step(&self, number: u32) -> Step
        ensures { IsStep self.now number result }
    {
        step_of(self.steps.as_slice(), number)
    }
}

// The step that is kept for a type.
fn step_of(steps: &[Step], number: u32) -> Step
    ensures { result ≡ step_of steps.now number }
{
    match steps.get(number as usize) {
        Some(step) => *step,
        None => Step {
            depth: 0,
            jump: number,
        },
    }
}

// How far a type leaps.
fn leap_of(steps: &[Step], number: u32) -> u32
    ensures { result ≡ leap_of steps.now number }
{
    let step = step_of(steps, number);
    step.depth.saturating_sub(step_of(steps, step.jump).depth)
}

// The step of a type with this base. Where its base and the next one leap equally far, it leaps over both, so that a base is found by few leaps: E. W. Myers,
// An applicative random-access stack, Information Processing Letters 17, 1983.
fn step_on(steps: &[Step], base: u32) -> Result<Step, AllocError>
    ensures { IfOk result (λ step. step ≡ step_on steps.now base) }
{
    let step = step_of(steps, base);
    let depth = step.depth.checked_add(1).ok_or(AllocError)?;
    let jump = if leap_of(steps, base) == leap_of(steps, step.jump) {
        step_of(steps, step.jump).jump
    } else {
        base
    };
    Ok(Step { depth, jump })
}

// A step for each type, as if none had a base.
fn no_steps(alloc: Global, count: u32) -> Result<Vec<Step>, AllocError>
    ensures count { IfOk result (λ steps. length steps.items ≡ count) }
    ensures none { IfOk result (λ steps. (type : ℕ) → step_of steps.items type ≡ no_step type) }
{
    let mut steps = Vec::new(alloc);
    for number in 0..count {
        steps.push(Step {
            depth: 0,
            jump: number,
        })?;
    }
    Ok(steps)
}

// The base of a type whose step isn't known yet. None where it is known, or there is no base.
fn base_ahead(types: &[TypeInfo], steps: &[Step], number: u32) -> Option<u32>
    requires { AreStepsSoFar types.now steps.now }
    ensures { MatchOption result (IsStep types.now number (step_of steps.now number)) (λ base. base_of types.now number ≡ Some base) }
{
    if step_of(steps, number).depth > 0 {
        return None;
    }
    types.get(number as usize)?.base
}

// Makes the step of a type known, and those of its bases.
fn settle(
    alloc: Global,
    types: &[TypeInfo],
    steps: &mut Vec<Step>,
    number: u32,
) -> Result<(), AllocError>
    requires ends { (type : ℕ) → HasEnd (base_of types.now) type }
    requires size { length steps.old.items ≡ length types.now }
    requires so_far { AreStepsSoFar types.now steps.old.items }
    ensures { OnOk result (IsSettled types.now steps.old.items steps.new.items number) }
{
    let mut way = Vec::new(alloc);
    let mut at = number;
    while let Some(base) = base_ahead(types, steps, at) {
        way.push(at)?;
        at = base;
    }
    while let Some(above) = way.pop() {
        let step = step_on(steps, at)?;
        steps[above as usize] = step;
        at = above;
    }
    Ok(())
}

// The steps of these types. Each walk ends at the first step that is known, so all walks together are as long as the list.
fn steps_of(alloc: Global, types: &[TypeInfo]) -> Result<Vec<Step>, AllocError>
    requires ends { (type : ℕ) → HasEnd (base_of types.now) type }
    ensures { IfOk result (λ steps. AreSteps types.now steps.items) }
{
    let Ok(count) = u32::try_from(types.len()) else {
        return Err(AllocError);
    };
    let mut steps = no_steps(alloc, count)?;
    for number in 0..count {
        settle(alloc, types, &mut steps, number)?;
    }
    Ok(steps)
}
