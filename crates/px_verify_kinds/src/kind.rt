// Kinds of values on a stack.
ghost use Rattle.std.specs.Prelude.{◌≡◌, ◌↔◌, IsTrue};
ghost use Rattle.px_program.specs.Formed.{AreTypes};
ghost use Rattle.px_verify_kinds.specs.Kinds.{common, fits_kind, kind_of, merge_kind};

use px_program::{Place, Program};

/// What a stack holds at a place: Partition III, 1.5, without floats.
#[derive(Clone, Copy, PartialEq, Eq)]
pub enum Kind {
    /// A number of 32 bits.
    I,
    /// A number of 64 bits.
    L,
    /// A native number.
    N,
    /// A reference to the type of this number, or null.
    Ref(u32),
    /// Null.
    Null,
}

/// What a load of a place leaves on the stack: Partition III, 1.1.1.
pub fn kind_of(place: Place) -> Kind
    ensures { result ≡ kind_of place }
{
    match place {
        Place::Bool | Place::Char | Place::I1 | Place::U1 => Kind::I,
        Place::I2 | Place::U2 | Place::I4 | Place::U4 => Kind::I,
        Place::I8 | Place::U8 => Kind::L,
        Place::N | Place::UN => Kind::N,
        Place::Ref(class) => Kind::Ref(class),
    }
}

/// Whether a kind fits where another is asked for: numbers by equal kinds alone, null wherever a reference does, and references as `Program::fits` says.
pub fn fits_kind(program: &Program, kind: Kind, wanted: Kind) -> bool
    requires types { AreTypes program.now.types }
    ensures { result ≡ fits_kind program.now.types kind wanted }
{
    match (kind, wanted) {
        (Kind::Ref(class), Kind::Ref(other)) => program.fits(class, other),
        (Kind::Null, Kind::Ref(_)) => true,
        _ => kind == wanted,
    }
}

// The nearest common base of two types; that of arrays of different elements is `Object`.
fn common(program: &Program, class: u32, other: u32) -> u32
    requires types { AreTypes program.now.types }
    ensures { result ≡ common program.now.types class other }
{
    match program.common_base(class, other) {
        Some(base) => base,
        None => 0,
    }
}

/// What a kind that stands becomes where another one comes to it: Partition III, 1.8.1.3. None where they don't merge.
pub fn merge_kind(program: &Program, standing: Kind, given: Kind) -> Option<Kind>
    requires types { AreTypes program.now.types }
    ensures { result ≡ merge_kind program.now.types standing given }
{
    match (standing, given) {
        (Kind::Ref(class), Kind::Ref(other)) => Some(Kind::Ref(common(program, class, other))),
        (Kind::Null, Kind::Ref(class)) => Some(Kind::Ref(class)),
        (Kind::Ref(class), Kind::Null) => Some(Kind::Ref(class)),
        _ => {
            if standing == given {
                Some(standing)
            } else {
                None
            }
        }
    }
}

// Whether two kinds are one.
pub(crate) fn is_same(kind: Kind, other: Kind) -> bool
    ensures { IsTrue result ↔ (kind ≡ other) }
{
    kind == other
}
