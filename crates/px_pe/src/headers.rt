// The headers of an image: Partition II, 25.2.
ghost use Rattle.std.specs.Prelude.{◌≡◌, ◌+◌, ◌*◌, ◌<◌, ◌≤◌, ◌^◌, length, IfOk};
ghost use Rattle.px_pe.specs.Image.{cli_address, count_offset, directory_offset, form_at, headers_at, pe_offset};

use crate::fault::{PeFault, PeKind};
use crate::read::{read_bytes, read_u16, read_u32};
use byteorder::{ByteOrder, LittleEndian};

// The forms of the optional header, of 32 and of 64 bits.
#[derive(Clone, Copy)]
enum Form {
    Pe32,
    Pe32Plus,
}

impl Form {
    // Where the number of directories stands in the optional header.
    fn count_offset(self) -> u32
        ensures { result ≡ count_offset self }
    {
        match self {
            Form::Pe32 => 92,
            Form::Pe32Plus => 108,
        }
    }

    // Where directory 14 stands in the optional header.
    fn directory_offset(self) -> u32
        ensures { result ≡ directory_offset self }
    {
        match self {
            Form::Pe32 => 208,
            Form::Pe32Plus => 224,
        }
    }
}

/// What the headers say: how many section headers stand at `table`, and the address of the CLI header, which stands at `directory`.
#[derive(Clone, Copy)]
pub struct Headers {
    pub count: u16,
    pub table: u32,
    pub directory: u32,
    pub address: u32,
}

/// The offset of the mark before the COFF header.
#[tactic(auto, unfolding(crate::specs::Image::pe_offset))]
pub fn pe_offset(file: &[u8]) -> Result<u32, PeFault>
    ensures exact { result ≡ pe_offset file.now }
    ensures inside { IfOk result (λ pe. pe + 4 ≤ length file.now) }
{
    if file.len() < 64 || !file.starts_with(b"MZ") {
        return Err(PeKind::NotPe.at(0));
    }
    let pe = read_u32(file, 0x3C)?;
    if read_bytes(file, pe, 4)? == b"PE\0\0".as_slice() {
        Ok(pe)
    } else {
        Err(PeKind::NotPe.at(pe))
    }
}

// The form of the optional header.
#[tactic(auto, unfolding(crate::specs::Image::form_at))]
fn form_at(file: &[u8], optional: u32) -> Result<Form, PeFault>
    ensures { result ≡ form_at file.now optional }
{
    match read_u16(file, optional)? {
        0x10B => Ok(Form::Pe32),
        0x20B => Ok(Form::Pe32Plus),
        _ => Err(PeKind::NotPe.at(optional)),
    }
}

// The address of the CLI header, by the number of directories and directory 14.
#[tactic(auto, unfolding(crate::specs::Image::cli_address))]
fn cli_address(file: &[u8], count_at: u32, directory_at: u32) -> Result<u32, PeFault>
    ensures { result ≡ cli_address file.now count_at directory_at }
{
    if read_u32(file, count_at)? < 15 {
        return Err(PeKind::NoCliHeader.at(count_at));
    }
    match LittleEndian::read_u32(read_bytes(file, directory_at, 8)?) {
        0 => Err(PeKind::NoCliHeader.at(directory_at)),
        address => Ok(address),
    }
}

/// The headers behind the mark at an offset.
#[tactic(auto, unfolding(crate::specs::Image::headers_at))]
pub fn headers_at(file: &[u8], pe: u32) -> Result<Headers, PeFault>
    requires { pe < 2 ^ 31 }
    ensures exact { result ≡ headers_at file.now pe }
    ensures fits { IfOk result (λ headers. headers.table + 40 * headers.count < 2 ^ 32) }
{
    let optional = pe + 24;
    let count = read_u16(file, pe + 6)?;
    let size = read_u16(file, pe + 20)?;
    let form = form_at(file, optional)?;
    let directory = optional + form.directory_offset();
    let address = cli_address(file, optional + form.count_offset(), directory)?;
    Ok(Headers {
        count,
        table: optional + u32::from(size),
        directory,
        address,
    })
}
