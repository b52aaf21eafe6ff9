// Methods of assemblies, linked, written and linked again.
ghost use Rattle.std.specs.Prelude.{◌≡◌, ◌<◌, ◌^◌, ℕ, List, All, Ok, length, IfOk};
ghost use Rattle.px_pe.specs.Image.{image_of};
ghost use Rattle.px_tables.specs.Metadata.{IsSound, metadata_of};
ghost use Rattle.px_asm_law_relink.specs.Linked.{IsLinked};
ghost use Rattle.px_asm.specs.Linking.{metadata_in};
ghost use Rattle.px_link.specs.Link.{Reads};
ghost use Rattle.px_program.specs.Formed.{IsWellFormed};

use px_asm::{runs_whole, write_assembly};
use px_code::{BodyFault, BodyKind};
use px_link::{LinkFault, link};
use px_meta::{Meta, resolve};
use px_pe::{Image, read_pe};
use px_program::Program;
use px_program_text::{Out, text_of};
use px_tables::{Tables, read_tables};
use std::alloc::{AllocError, Global};

/// Why a file gives no program.
#[derive(Drop)]
pub enum NoProgram {
    /// The file is no image, or its metadata isn't read.
    Unread,
    Unlinked(LinkFault),
}

// The program of a name by the metadata of an image.
fn linked_by(alloc: Global, meta: &Meta, image: &Image, name: &str) -> Result<Program, NoProgram>
    ensures reads { IfOk result (Reads meta.now image.now name.now) }
    ensures well_formed { IfOk result IsWellFormed }
{
    match link(alloc, meta, image, name) {
        Ok(program) => Ok(program),
        Err(fault) => Err(NoProgram::Unlinked(fault)),
    }
}

// The program of a name in an image with these tables.
fn linked_in(alloc: Global, tables: Tables, image: &Image, name: &str) -> Result<Program, NoProgram>
    requires { IsSound tables }
    ensures { (file : List ℕ) → All (λ byte. byte < 256) file → image_of file ≡ Ok image.now → metadata_of (metadata_in image.now) ≡ Ok tables.entry → IfOk result IsLinked }
{
    match resolve(alloc, tables) {
        Ok(meta) => linked_by(alloc, &meta, image, name),
        Err(_) => Err(NoProgram::Unread),
    }
}

// The program of a name in an image.
fn linked_of(alloc: Global, image: &Image, name: &str) -> Result<Program, NoProgram>
    ensures { (file : List ℕ) → All (λ byte. byte < 256) file → image_of file ≡ Ok image.now → IfOk result IsLinked }
{
    let span = image.metadata();
    let metadata = &image.bytes()[span.start as usize..][..span.len as usize];
    match read_tables(metadata) {
        Ok(tables) => linked_in(alloc, tables, image, name),
        Err(_) => Err(NoProgram::Unread),
    }
}

/// The program of a name in a file.
pub fn linked(alloc: Global, file: &[u8], name: &str) -> Result<Program, NoProgram>
    requires { length file.now < 2 ^ 31 }
    ensures { IfOk result IsLinked }
{
    match read_pe(file) {
        Ok(image) => linked_of(alloc, &image, name),
        Err(_) => Err(NoProgram::Unread),
    }
}

fn kind_word(kind: BodyKind) -> &'static str {
    match kind {
        BodyKind::BadHeader => "BadHeader",
        BodyKind::Cut => "Cut",
        BodyKind::BadOpcode => "BadOpcode",
        BodyKind::BadTarget => "BadTarget",
        BodyKind::BadClause => "BadClause",
    }
}

/// The line of a body that isn't read.
pub fn put_body_fault(out: &mut Out, fault: BodyFault, method: u32) {
    match fault {
        BodyFault::Memory => out.text("fault Memory\n"),
        BodyFault::Bad { kind, at } => {
            out.text("fault");
            out.word(kind_word(kind));
            out.counted("at", at);
            out.counted("of method", method);
            out.text("\n");
        }
    }
}

// The line of a parameter that can't be given.
fn put_bad_parameter(out: &mut Out, number: u32) {
    out.text("fault");
    out.counted("BadParameter", number);
    out.text("\n");
}

// The line of a method that isn't linked.
fn put_link_fault(out: &mut Out, fault: &LinkFault) {
    match fault {
        LinkFault::Memory => out.text("fault Memory\n"),
        LinkFault::NoMethod => out.text("fault NoMethod\n"),
        LinkFault::Ambiguous => out.text("fault Ambiguous\n"),
        LinkFault::NoBody => out.text("fault NoBody\n"),
        LinkFault::BadParameter(number) => put_bad_parameter(out, *number),
        LinkFault::NoMaker => out.text("fault NoMaker\n"),
        LinkFault::BadBody { fault, method } => put_body_fault(out, *fault, *method),
    }
}

/// The line of what gives no program.
pub fn put_fault(out: &mut Out, fault: &NoProgram) {
    match fault {
        NoProgram::Unread => out.text("no assembly\n"),
        NoProgram::Unlinked(fault) => put_link_fault(out, fault),
    }
}

/// The file of a linked program, where all its instructions are run.
pub fn file_of(alloc: Global, program: &Program) -> Result<Option<Vec<u8>>, AllocError>
    requires { IsLinked program.now }
{
    if runs_whole(program) {
        Ok(Some(write_assembly(alloc, program)?))
    } else {
        Ok(None)
    }
}

// What a linked program is beside another, by its text and by its file.
fn compared(
    alloc: Global,
    program: &Program,
    text: &str,
    file: &[u8],
) -> Result<&'static str, AllocError>
    requires { IsLinked program.now }
{
    if text_of(alloc, program)?.as_str() != text {
        return Ok("another program");
    }
    match file_of(alloc, program)? {
        Some(again) if again.as_slice() == file => Ok("the same"),
        Some(_) => Ok("other bytes"),
        None => Ok("not written"),
    }
}

/// What the program of a file is beside that of which the file was written, whose text is given.
pub fn again(
    alloc: Global,
    file: &[u8],
    name: &str,
    text: &str,
) -> Result<&'static str, AllocError> {
    if file.len() >= 1 << 31 {
        return Ok("too long");
    }
    match linked(alloc, file, name) {
        Ok(program) => compared(alloc, &program, text, file),
        Err(_) => Ok("not linked"),
    }
}
