// What tokens name.
use px_link_types::Key;
use px_program::{Check, Text};
use sqlite_items::Items;

/// What the token of an instruction names, before types and methods have numbers.
#[derive(Drop)]
pub enum Operand {
    /// The text of `ldstr`: Partition II, 24.2.4.
    Text(Text),
    /// The place of elements, or the type of objects or arrays.
    Type(Key),
    /// A field of the assembly by its row.
    Field(u32),
    /// A method of the assembly by its row.
    Method(u32),
    /// A constructor of a type of the library, by the number of its class, with its parameters.
    Constructor { class: u32, params: Items<Key> },
    /// One of the two calls of `Microsoft.Pex.Framework` that are known.
    Check(Check),
}
