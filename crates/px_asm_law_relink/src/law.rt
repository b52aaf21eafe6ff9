// The laws, each the contract of a call that does nothing.
ghost use Rattle.px_asm_law_relink.specs.Laws.{DescribedIsLinked, LinkedIsWritable};

/// An assembly that describes a program which was linked and runs whole is linked to that program.
#[tactic(auto, using(crate::proofs::LinksAgain::described_is_linked))]
pub fn described_is_linked()
    ensures law { DescribedIsLinked }
{}

/// A program that was linked and runs whole can be written.
#[tactic(auto, using(crate::proofs::Writing::linked_is_writable))]
pub fn linked_is_writable()
    ensures law { LinkedIsWritable }
{}
