// The form of programs that are explored.
ghost use Rattle.std.specs.Prelude.{◌≡◌, Some};
ghost use Rattle.std.specs.List.{list_all};
ghost use Rattle.px_command_answers.specs.Answers.{is_explored, is_explored_method, is_int32, returns_int32};

use px_program::{Method, Place, Program};

fn is_int32(place: Place) -> bool
    ensures { result ≡ is_int32 place }
{
    matches!(place, Place::I4)
}

fn returns_int32(ret: Option<Place>) -> bool
    ensures { result ≡ returns_int32 ret }
{
    match ret {
        Some(place) => is_int32(place),
        None => false,
    }
}

fn are_int32s(places: &[Place]) -> bool
    ensures { result ≡ list_all is_int32 places.now }
{
    places.iter().all(|place| is_int32(*place))
}

// Whether a method is static, takes at most four int32 and returns one.
fn is_explored_method(method: &Method) -> bool
    ensures { result ≡ is_explored_method (Some method.now) }
{
    method.is_static
        && are_int32s(method.params.as_slice())
        && method.params.len() <= 4
        && returns_int32(method.ret)
}

/// Whether the entry of a program is of the form that is explored so far.
pub fn is_explored(program: &Program) -> bool
    ensures { result ≡ is_explored program.now }
{
    match program.methods.get(program.entry as usize) {
        Some(method) => is_explored_method(method),
        None => false,
    }
}
