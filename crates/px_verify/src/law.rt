// Laws of typings.
ghost use Rattle.px_verify.specs.Laws.{FaultIsOne, NotBoth, TableIsOne, TypingIsSound};

/// A method has one typing.
pub fn table_is_one()
    ensures { TableIsOne }
{}

/// A program is typed or refused, and refused for one fault.
pub fn verdict_is_one()
    ensures apart { NotBoth }
    ensures first { FaultIsOne }
{}

/// An instruction of a typed method finds a stack that it may find, and what it gives fits where it leads to.
pub fn typing_is_sound()
    ensures { TypingIsSound }
{}
