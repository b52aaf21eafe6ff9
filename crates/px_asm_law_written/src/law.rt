// The law, as the contract of a call that does nothing.
ghost use Rattle.px_asm_law_written.specs.Laws.{WrittenDescribes};

/// What is written of a program describes it.
pub fn written_describes()
    ensures law { WrittenDescribes }
{}
