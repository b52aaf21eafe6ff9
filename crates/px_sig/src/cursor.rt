// Reads the parts of a signature from left to right: Partition II, 23.2.
ghost use Rattle.std.specs.Prelude.{◌≡◌, ◌==◌, ◌||◌, ◌+◌, ◌≤◌, ◌<◌, ◌^◌, ℕ, length, IfOk};
ghost use Rattle.px_sig.specs.Grammar.{byte_at, byte_where, front_at, generic_at, is_named, number_at, numbers_at, shape_at, token_at, token_of, type_at, type_behind, form_at};
ghost use Rattle.px_sig.specs.Parts.{Leads, Passes, Reads, behind, end_at, kinds, shown};

use crate::fault::SigFault;
use crate::form::{Form, Owes, form_of};
use px_blobs::compressed;

// A blob, and the place up to which it is read.
#[derive(Drop)]
pub(crate) struct Cursor<'b> {
    pub blob: &'b [u8],
    pub at: u32,
    ghost inside: { at ≤ length blob.now },
    ghost short: { length blob.now < 2 ^ 31 },
}

// What stands before the return type of a method.
#[derive(Clone, Copy)]
pub(crate) struct Front {
    pub has_this: bool,
    pub plain: bool,
    pub count: u32,
}

// What a method's signature is of: a method itself, or what a function pointer points to.
#[derive(Clone, Copy)]
pub(crate) enum Callee {
    Method,
    Pointer,
}

// The token that a coded index stands for.
#[tactic(auto, unfolding(crate::specs::Grammar::token_of))]
fn token_of(index: u32) -> Option<u32>
    ensures { result ≡ token_of index }
{
    let row = index / 4;
    if row >= 0x100_0000 {
        return None;
    }
    match index % 4 {
        0 => Some(0x0200_0000 + row),
        1 => Some(0x0100_0000 + row),
        2 => Some(0x1B00_0000 + row),
        _ => None,
    }
}

// Whether a signature may begin with the byte.
fn is_kind(callee: Callee, byte: u8) -> bool
    ensures { result ≡ kinds callee byte }
{
    let convention = byte & 0x0F;
    byte & 0x80 == 0
        && match callee {
            Callee::Method => convention == 0 || convention == 5,
            Callee::Pointer => convention < 6 || convention == 9,
        }
}

impl<'b> Cursor<'b> {
    /// A cursor at the first byte of the blob.
    pub fn new(blob: &'b [u8]) -> Cursor<'b>
        requires { length blob.now < 2 ^ 31 }
        ensures blob { result.blob.now ≡ blob.now }
        ensures start { result.at ≡ 0 }
    {
        Cursor { blob, at: 0 }
    }

    // A byte.
    #[tactic(auto, unfolding(crate::specs::Grammar::byte_at))]
    fn byte(&mut self) -> Result<u8, SigFault>
        ensures reads { Reads result self.new.at (byte_at self.old.blob.now self.old.at) }
        ensures blob { self.new.blob.now ≡ self.old.blob.now }
        ensures later { IfOk result (λ _. self.old.at < self.new.at) }
    {
        match self.blob.get(self.at as usize) {
            Some(byte) => {
                self.at += 1;
                Ok(*byte)
            }
            None => Err(SigFault::Bad { at: self.at }),
        }
    }

    /// The byte with which a signature begins.
    #[tactic(auto, unfolding(crate::specs::Grammar::byte_where))]
    pub fn expect(&mut self, wanted: u8) -> Result<u8, SigFault>
        ensures reads { Reads result self.new.at (byte_where (λ byte. byte == wanted) self.old.blob.now self.old.at) }
        ensures blob { self.new.blob.now ≡ self.old.blob.now }
    {
        let at = self.at;
        let byte = self.byte()?;
        if byte == wanted {
            Ok(byte)
        } else {
            Err(SigFault::Bad { at })
        }
    }

    /// A number.
    #[tactic(auto, unfolding(crate::specs::Grammar::number_at))]
    pub fn number(&mut self) -> Result<u32, SigFault>
        ensures reads { Reads result self.new.at (number_at self.old.blob.now self.old.at) }
        ensures blob { self.new.blob.now ≡ self.old.blob.now }
        ensures later { IfOk result (λ _. self.old.at < self.new.at) }
    {
        match compressed(self.blob, self.at) {
            Some((number, used)) => {
                self.at += used;
                Ok(number)
            }
            None => Err(SigFault::Bad { at: self.at }),
        }
    }

    /// A token.
    #[tactic(auto, unfolding(crate::specs::Grammar::token_at))]
    pub fn token(&mut self) -> Result<u32, SigFault>
        ensures reads { Reads result self.new.at (token_at self.old.blob.now self.old.at) }
        ensures blob { self.new.blob.now ≡ self.old.blob.now }
        ensures later { IfOk result (λ _. self.old.at < self.new.at) }
    {
        let at = self.at;
        let index = self.number()?;
        token_of(index).ok_or(SigFault::Bad { at })
    }

    /// The form of a type, by its first byte.
    #[tactic(auto, unfolding(crate::specs::Grammar::form_at))]
    pub fn form(&mut self) -> Result<Form, SigFault>
        ensures reads { Reads result self.new.at (form_at self.old.blob.now self.old.at) }
        ensures blob { self.new.blob.now ≡ self.old.blob.now }
        ensures later { IfOk result (λ _. self.old.at < self.new.at) }
    {
        let at = self.at;
        let code = self.byte()?;
        form_of(code).ok_or(SigFault::Bad { at })
    }

    // The kind of a method.
    #[tactic(auto, unfolding(crate::specs::Grammar::byte_where))]
    fn kind(&mut self, callee: Callee) -> Result<u8, SigFault>
        ensures reads { Reads result self.new.at (byte_where (kinds callee) self.old.blob.now self.old.at) }
        ensures blob { self.new.blob.now ≡ self.old.blob.now }
        ensures later { IfOk result (λ _. self.old.at < self.new.at) }
    {
        let at = self.at;
        let byte = self.byte()?;
        if is_kind(callee, byte) {
            Ok(byte)
        } else {
            Err(SigFault::Bad { at })
        }
    }

    // Whether a generic type is a class or a value type.
    #[tactic(auto, unfolding(crate::specs::Grammar::byte_where))]
    fn named(&mut self) -> Result<u8, SigFault>
        ensures reads { Reads result self.new.at (byte_where is_named self.old.blob.now self.old.at) }
        ensures blob { self.new.blob.now ≡ self.old.blob.now }
        ensures later { IfOk result (λ _. self.old.at < self.new.at) }
    {
        let at = self.at;
        let byte = self.byte()?;
        if byte == 0x11 || byte == 0x12 {
            Ok(byte)
        } else {
            Err(SigFault::Bad { at })
        }
    }

    // Passes over the count of type parameters, where there are any.
    #[tactic(auto, unfolding(crate::specs::Grammar::generic_at))]
    fn generic(&mut self, kind: u8) -> Result<(), SigFault>
        ensures passes { Passes result self.new.at (generic_at kind self.old.blob.now self.old.at) }
        ensures blob { self.new.blob.now ≡ self.old.blob.now }
        ensures later { IfOk result (λ _. self.old.at ≤ self.new.at) }
    {
        if kind & 0x10 != 0 {
            self.number()?;
        }
        Ok(())
    }

    /// What stands before the return type of a method.
    #[tactic(auto, unfolding(crate::specs::Grammar::front_at))]
    pub fn front(&mut self, callee: Callee) -> Result<Front, SigFault>
        ensures reads { Reads (shown result) self.new.at (front_at (kinds callee) self.old.blob.now self.old.at) }
        ensures blob { self.new.blob.now ≡ self.old.blob.now }
        ensures later { IfOk result (λ _. self.old.at < self.new.at) }
    {
        let kind = self.kind(callee)?;
        self.generic(kind)?;
        Ok(Front {
            has_this: kind & 0x20 != 0,
            plain: kind == 0x00 || kind == 0x20,
            count: self.number()?,
        })
    }

    // Passes over a count and so many numbers.
    #[tactic(auto, unfolding(crate::specs::Grammar::numbers_at))]
    fn numbers(&mut self) -> Result<(), SigFault>
        ensures passes { Passes result self.new.at (behind (numbers_at self.old.blob.now self.old.at)) }
        ensures blob { self.new.blob.now ≡ self.old.blob.now }
        ensures later { IfOk result (λ _. self.old.at < self.new.at) }
    {
        let count = self.number()?;
        for _ in 0..count {
            self.number()?;
        }
        Ok(())
    }

    /// Passes over the shape of an array.
    #[tactic(auto, unfolding(crate::specs::Grammar::shape_at))]
    pub fn shape(&mut self) -> Result<(), SigFault>
        ensures passes { Passes result self.new.at (shape_at self.old.blob.now self.old.at) }
        ensures blob { self.new.blob.now ≡ self.old.blob.now }
        ensures later { IfOk result (λ _. self.old.at < self.new.at) }
    {
        self.number()?;
        self.numbers()?;
        self.numbers()
    }

    /// What is owed behind the first byte of a type.
    #[tactic(auto, unfolding(crate::specs::Grammar::type_behind, crate::specs::Grammar::method_at, crate::specs::Parts::behind_owed))]
    pub fn owes(&mut self, form: &Form) -> Result<Owes, SigFault>
        ensures leads { Leads self.old.blob.now result self.new.at (type_behind (type_at self.old.blob.now) self.old.blob.now form.now self.old.at) }
        ensures blob { self.new.blob.now ≡ self.old.blob.now }
        ensures later { IfOk result (λ _. self.old.at ≤ self.new.at) }
    {
        match form {
            Form::Alone(_) => Ok(Owes::types(0)),
            Form::Class | Form::Value => {
                self.token()?;
                Ok(Owes::types(0))
            }
            Form::Variable => {
                self.number()?;
                Ok(Owes::types(0))
            }
            Form::Modifier => {
                self.token()?;
                Ok(Owes::types(1))
            }
            Form::Pinned | Form::Array | Form::Outer => Ok(Owes::types(1)),
            Form::General => Ok(Owes {
                types: 1,
                shape: true,
            }),
            Form::Instance => {
                self.named()?;
                self.token()?;
                let count = self.number()?;
                Ok(Owes::types(u64::from(count)))
            }
            Form::Function => {
                let front = self.front(Callee::Pointer)?;
                Ok(Owes::types(u64::from(front.count) + 1))
            }
        }
    }

    /// That nothing is left.
    pub fn end(&self) -> Result<(), SigFault>
        ensures { Passes result self.now.at (end_at self.now.blob.now self.now.at) }
    {
        if self.at as usize == self.blob.len() {
            Ok(())
        } else {
            Err(SigFault::Bad { at: self.at })
        }
    }
}
