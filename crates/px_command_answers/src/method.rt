// What the bytes of an assembly give, with a method by its name.
ghost use Rattle.std.specs.Prelude.{◌≡◌, ◌≢◌, ◌<◌, ◌≤◌, ◌^◌, ℕ, List, Ok, length};
ghost use Rattle.px_code.specs.declared.body.BodyFault.TheVariants as body_faults;
ghost use Rattle.px_program.specs.Arguments.{AreGiven, arguments_of};
ghost use Rattle.px_program.specs.Formed.{IsWellFormed};
ghost use Rattle.px_link.specs.Link.{Blames, Reads};
ghost use Rattle.px_pe.specs.Image.{image_of};
ghost use Rattle.px_pe.specs.Image as pe;
ghost use Rattle.px_tables.specs.Metadata.{View, metadata_of};
ghost use Rattle.px_command_answers.specs.Answers.{ExplainsMethod, ExplainsNamed, IsAssembly, metadata_in};

use crate::answer::{Answer, Refusal, told};
use px_code::BodyFault;
use px_link::{LinkFault, link};
use px_meta::{Meta, MetaFault, resolve};
use px_pe::{Image, read_pe};
use px_program::Program;
use px_tables::{Tables, read_tables};
use std::alloc::Global;

// The answer to the fault of a method's body.
fn bad_body(fault: BodyFault, method: u32) -> Answer
    requires { fault ≢ BodyFault.Memory }
    ensures { (v : View) (image : pe.View) (name : List ℕ) (text : List ℕ) → Blames v image name (LinkFault.BadBody fault method) → ExplainsNamed v image name text result }
{
    match fault {
        BodyFault::Memory => unreachable!(),
        BodyFault::Bad { kind, at } => Answer::Refused(Refusal::Body(kind, at, method)),
    }
}

// The answer to a method that isn't linked.
fn unlinked(fault: LinkFault) -> Answer
    requires { (method : ℕ) → fault ≢ LinkFault.BadBody BodyFault.Memory method }
    ensures { (v : View) (image : pe.View) (name : List ℕ) (text : List ℕ) → Blames v image name fault → ExplainsNamed v image name text result }
{
    match fault {
        LinkFault::Memory => Answer::Memory,
        LinkFault::NoMethod => Answer::Refused(Refusal::NoMethod),
        LinkFault::Ambiguous => Answer::Refused(Refusal::Ambiguous),
        LinkFault::NoBody => Answer::Refused(Refusal::NoBody),
        LinkFault::BadParameter(number) => Answer::Refused(Refusal::BadParameter(number)),
        LinkFault::NoMaker => Answer::Refused(Refusal::NoMaker),
        LinkFault::BadBody { fault, method } => bad_body(fault, method),
    }
}

// What a linked program gives over the domain of the text.
fn of_program(alloc: Global, program: Program, text: &str) -> Answer
    requires formed { IsWellFormed program }
    requires text { length text.now < 2 ^ 32 }
    requires given { AreGiven program.types (arguments_of program) }
    ensures { (v : View) (image : pe.View) (name : List ℕ) → Reads v image name program → ExplainsNamed v image name text.now result }
{
    told(alloc, program, text)
}

// What resolved metadata gives.
fn of_meta(alloc: Global, meta: &Meta, image: &Image, name: &str, text: &str) -> Answer
    requires { length text.now < 2 ^ 32 }
    ensures { ExplainsNamed meta.now image.now name.now text.now result }
{
    match link(alloc, meta, image, name) {
        Ok(program) => of_program(alloc, program, text),
        Err(fault) => unlinked(fault),
    }
}

// What the tables of the metadata give.
fn of_tables(alloc: Global, tables: Tables, image: &Image, name: &str, text: &str) -> Answer
    requires { length text.now < 2 ^ 32 }
    ensures { (bytes : List ℕ) → image_of bytes ≡ Ok image.now → metadata_of (metadata_in image.now) ≡ Ok tables.entry → ExplainsMethod bytes name.now text.now result }
{
    match resolve(alloc, tables) {
        Ok(meta) => of_meta(alloc, &meta, image, name, text),
        Err(MetaFault::Memory) => Answer::Memory,
        Err(MetaFault::Bad { kind, token }) => Answer::Refused(Refusal::Meta(kind, token)),
    }
}

// What an image gives.
fn of_image(alloc: Global, image: &Image, name: &str, text: &str) -> Answer
    requires { length text.now < 2 ^ 32 }
    ensures { (bytes : List ℕ) → image_of bytes ≡ Ok image.now → ExplainsMethod bytes name.now text.now result }
{
    let span = image.metadata();
    let metadata = &image.bytes()[span.start as usize..][..span.len as usize];
    match read_tables(metadata) {
        Ok(tables) => of_tables(alloc, tables, image, name, text),
        Err(fault) => Answer::Refused(Refusal::Tables(fault)),
    }
}

/// What the bytes of an assembly give, with the method of a name: the first refusal in the order of the image, the tables of its
/// metadata, their rows, the method, its body, its typing, the text of the domain, the form of the method and the size of the domain, or a report.
pub fn answer_of_method(alloc: Global, bytes: &[u8], name: &str, text: &str) -> Answer
    requires bytes { length bytes.now < 2 ^ 31 }
    requires text { length text.now < 2 ^ 32 }
    ensures { ExplainsMethod bytes.now name.now text.now result }
{
    match read_pe(bytes) {
        Ok(image) => of_image(alloc, &image, name, text),
        Err(fault) => Answer::Refused(Refusal::Pe(fault)),
    }
}
