// Bodies that are read and written.
ghost use Rattle.std.specs.Prelude.{◌≡◌, ◌<◌, ◌^◌, length};

use crate::bytes::put_bytes;
use crate::linking::put_body_fault;
use px_asm_bodies::write_body;
use px_code::{BodyFault, read_body};
use px_program_text::Out;
use std::alloc::Global;

// The body that is read, as it is written.
fn rewritten(alloc: Global, bytes: &[u8]) -> Result<Vec<u8>, BodyFault>
    requires { length bytes.now < 2 ^ 31 }
{
    let body = read_body(alloc, bytes)?;
    Ok(write_body(alloc, &body)?)
}

/// Adds the bytes of a body as they are written.
pub fn put_rewritten(out: &mut Out, alloc: Global, bytes: &[u8])
    requires { length bytes.now < 2 ^ 31 }
{
    match rewritten(alloc, bytes) {
        Ok(written) => put_bytes(out, "written", &written),
        Err(fault) => put_body_fault(out, fault, 0),
    }
}
