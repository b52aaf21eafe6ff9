// The laws, each the contract of a call that does nothing.
ghost use Rattle.px_link.specs.One.{ReadsOne, ReadsOrBlames};

/// The method of a name in a file stands for one program.
pub fn reads_one()
    ensures law { ReadsOne }
{}

/// A method that stands for a program is refused for want of memory alone.
pub fn reads_or_blames()
    ensures law { ReadsOrBlames }
{}
