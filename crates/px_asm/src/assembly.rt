// Assemblies.
ghost use Rattle.std.specs.Prelude.{IfOk};
ghost use Rattle.px_asm_law_relink.specs.Linked.{IsAssemblyOf, IsLinked, RunsWhole, entry_name};

use crate::tables::tables_of;
use px_asm_image::{write_image, write_metadata};
use px_program::Program;
use std::alloc::{AllocError, Global};

// An image has room for less.
const SIZE_LIMIT: usize = 1 << 30;

/// An assembly from which a program is linked again, by the name of its entry. The program was linked from an assembly, and none of its instructions is
/// Outside. A program of 2^23 types, fields or methods, or whose assembly would have 2^24 rows in a table or 2^30 bytes, is answered as want of memory.
/// Each signature is written anew, and each array type whole: an assembly that shares long signatures grows.
pub fn write_assembly(alloc: Global, program: &Program) -> Result<Vec<u8>, AllocError>
    requires linked { IsLinked program.now }
    requires runs { RunsWhole program.now }
    ensures { IfOk result (λ file. IsAssemblyOf program.now (entry_name program.now) file.items) }
{
    let written = tables_of(alloc, program)?;
    if !written.content.fits() {
        return Err(AllocError);
    }
    let metadata = write_metadata(alloc, &written.content)?;
    if metadata.len().saturating_add(written.bodies.len()) >= SIZE_LIMIT {
        return Err(AllocError);
    }
    write_image(alloc, &metadata, &written.bodies)
}
