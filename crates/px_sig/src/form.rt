// The forms of types.
ghost use Rattle.std.specs.Prelude.{◌≡◌, false};
ghost use Rattle.px_sig.specs.Grammar.{form_of};

use crate::sig::{Integer, SigLeaf};

/// What follows the code that a type begins with.
#[derive(Clone, Copy)]
pub enum Form {
    /// Nothing: the code alone is the type.
    Alone(SigLeaf),
    /// The token of the class.
    Class,
    /// A token, as of a value type.
    Value,
    /// A number, as of a type variable.
    Variable,
    /// The token of a modifier, and the type that it stands before.
    Modifier,
    /// The type that it stands before.
    Pinned,
    /// The type of the elements.
    Array,
    /// One type, as of a pointer.
    Outer,
    /// The type of the elements, and the shape of the array.
    General,
    /// A class or value type, and a counted list of types.
    Instance,
    /// The signature of a method.
    Function,
}

/// What a form leaves to be passed over: so many types, and behind them perhaps the shape of an array.
#[derive(Clone, Copy)]
pub struct Owes {
    pub types: u64,
    pub shape: bool,
}

impl Owes {
    /// So many types and nothing else.
    pub fn types(count: u64) -> Owes
        ensures { result ≡ record { types = count; shape = false } }
    {
        Owes {
            types: count,
            shape: false,
        }
    }
}

/// The form of the types that begin with the code.
#[tactic(auto, unfolding(crate::specs::Grammar::form_of))]
pub fn form_of(code: u8) -> Option<Form>
    ensures { result ≡ form_of code }
{
    match code {
        0x01 => Some(Form::Alone(SigLeaf::Void)),
        0x02 => Some(Form::Alone(SigLeaf::Int(Integer::Bool))),
        0x03 => Some(Form::Alone(SigLeaf::Int(Integer::Char))),
        0x04 => Some(Form::Alone(SigLeaf::Int(Integer::I1))),
        0x05 => Some(Form::Alone(SigLeaf::Int(Integer::U1))),
        0x06 => Some(Form::Alone(SigLeaf::Int(Integer::I2))),
        0x07 => Some(Form::Alone(SigLeaf::Int(Integer::U2))),
        0x08 => Some(Form::Alone(SigLeaf::Int(Integer::I4))),
        0x09 => Some(Form::Alone(SigLeaf::Int(Integer::U4))),
        0x0A => Some(Form::Alone(SigLeaf::Int(Integer::I8))),
        0x0B => Some(Form::Alone(SigLeaf::Int(Integer::U8))),
        0x0C | 0x0D | 0x16 => Some(Form::Alone(SigLeaf::Other)),
        0x0E => Some(Form::Alone(SigLeaf::Str)),
        0x0F | 0x10 | 0x41 => Some(Form::Outer),
        0x11 => Some(Form::Value),
        0x12 => Some(Form::Class),
        0x13 | 0x1E => Some(Form::Variable),
        0x14 => Some(Form::General),
        0x15 => Some(Form::Instance),
        0x18 => Some(Form::Alone(SigLeaf::Int(Integer::N))),
        0x19 => Some(Form::Alone(SigLeaf::Int(Integer::UN))),
        0x1B => Some(Form::Function),
        0x1C => Some(Form::Alone(SigLeaf::Object)),
        0x1D => Some(Form::Array),
        0x1F | 0x20 => Some(Form::Modifier),
        0x45 => Some(Form::Pinned),
        _ => None,
    }
}
