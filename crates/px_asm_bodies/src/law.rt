// Laws about bodies that were read.
ghost use Rattle.px_asm_bodies.specs.Laws.{ReadIsEncodable};

/// Each instruction of a body that was read from bytes can be written.
pub fn read_code_is_encodable()
    ensures law { ReadIsEncodable }
{}
