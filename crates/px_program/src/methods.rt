// The methods of a program, and which of them are alike.
ghost use Rattle.std.specs.Prelude.{◌≡◌, ◌<◌, ◌≤◌, ◌⊎◌, ◌++◌, ◌∷◌, [], true, Some, length, slice_get, IfOk, OnErr, OnOk, OnSome};
ghost use Rattle.std.specs.Option.{option_copied};
ghost use Rattle.px_program.specs.Alike.{AreAlike, renamed};
ghost use Rattle.px_program.specs.declared.program.Method.{Method};

use crate::{Method, Name};
use std::alloc::{AllocError, Global};
use std::marker::Model;

/// The methods of a program, which contracts see as their list. Beside each the table keeps the number of the first one that shares all that it has but its
/// name, so that what is known of the one is known of the other.
#[derive(Drop)]
pub struct MethodTable {
    methods: Vec<Method>,
    firsts: Vec<u32>,
}

impl Model for MethodTable {
    ghost use Rattle.std.specs.Prelude.{List};
    ghost use Rattle.px_program.specs.Alike.{AreFirsts};
    ghost use Rattle.px_program.specs.declared.program.Method.{Method};

    ghost Value = { List Method };

    ghost view = { λ t. t.methods.items };

    ghost invariant = { λ t. AreFirsts t.methods.items t.firsts.items };
}

impl MethodTable {
    /// No methods.
    pub fn new(alloc: Global) -> MethodTable
        ensures { result ≡ [] }
    {
        MethodTable {
            methods: Vec::new(alloc),
            firsts: Vec::new(alloc),
        }
    }

    /// The methods.
    pub fn as_slice(&self) -> &[Method]
        ensures { result.now ≡ self.now }
    {
        self.methods.as_slice()
    }

    /// How many methods there are.
    pub fn len(&self) -> usize
        ensures { result ≡ length self.now }
    {
        self.methods.len()
    }

    /// The method of a number, if there is one.
    pub fn get(&self, number: usize) -> Option<&Method>
        ensures value { option_copied result ≡ slice_get self.now number }
        ensures within { OnSome result (number < length self.now) }
    {
        self.methods.get(number)
    }

    /// The first method that is like the one of this number, by its own number: no other comes between as the first of both.
    pub fn first_like(&self, number: u32) -> u32
        requires { number < length self.now }
        ensures earlier { result ≤ number }
        ensures alike { (one other : Method) → slice_get self.now result ≡ Some one → slice_get self.now number ≡ Some other → AreAlike one other }
    {
        self.firsts[number as usize]
    }

    /// Adds a method that is like none before it. A table of 2^32 methods takes no more: that is want of memory.
    pub fn push(&mut self, method: Method) -> Result<(), AllocError>
        ensures { OnOk result (self.new ≡ self.old ++ method ∷ []) }
    {
        let Ok(first) = u32::try_from(self.methods.len()) else {
            return Err(AllocError);
        };
        push_both(&mut self.methods, &mut self.firsts, method, first)
    }

    /// Adds a method that shares all with the one of this number but its name, and where that is static, its owner.
    pub fn push_like(&mut self, number: u32, name: Name, owner: u32) -> Result<(), AllocError>
        requires there { number < length self.old }
        requires owner { (method : Method) → slice_get self.old number ≡ Some method → (method.is_static ≡ true) ⊎ (method.owner ≡ owner) }
        ensures { (method : Method) → slice_get self.old number ≡ Some method → OnOk result (self.new ≡ self.old ++ renamed method name owner ∷ []) }
    {
        let first = self.firsts[number as usize];
        let like = shared(&self.methods[number as usize], name, owner)?;
        push_both(&mut self.methods, &mut self.firsts, like, first)
    }
}

// A method under another name, and of another owner, that shares all else.
fn shared(method: &Method, name: Name, owner: u32) -> Result<Method, AllocError>
    ensures { IfOk result (λ like. like ≡ renamed method.now name owner) }
{
    Ok(Method {
        name,
        owner,
        is_static: method.is_static,
        params: method.params.share()?,
        ret: method.ret,
        locals: method.locals.share()?,
        max_stack: method.max_stack,
        code: method.code.share()?,
        clauses: method.clauses.share()?,
    })
}

// Adds to both lists, or to neither.
fn push_both(
    methods: &mut Vec<Method>,
    firsts: &mut Vec<u32>,
    method: Method,
    first: u32,
) -> Result<(), AllocError>
    ensures methods { OnOk result (methods.new.items ≡ methods.old.items ++ method ∷ []) }
    ensures firsts { OnOk result (firsts.new.items ≡ firsts.old.items ++ first ∷ []) }
    ensures kept { OnErr result ((methods.new.items ≡ methods.old.items) × (firsts.new.items ≡ firsts.old.items)) }
{
    firsts.push(first)?;
    if methods.push(method).is_err() {
        firsts.pop();
        return Err(AllocError);
    }
    Ok(())
}
