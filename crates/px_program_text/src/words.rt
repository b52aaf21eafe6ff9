// What places hold, as text.
use crate::out::Out;
use px_program::{ElementForm, IntegerType, Place};

/// The word of a place that holds an integer.
pub fn integer_word(place: Place) -> &'static str {
    match place {
        Place::Bool => "bool",
        Place::Char => "char",
        Place::I1 => "i1",
        Place::U1 => "u1",
        Place::I2 => "i2",
        Place::U2 => "u2",
        Place::I4 => "i4",
        Place::U4 => "u4",
        Place::I8 => "i8",
        Place::U8 => "u8",
        Place::N => "n",
        Place::UN => "un",
        Place::Ref(_) => "a reference",
    }
}

/// A place: the word of an integer, or the number of the type that a reference leads to.
pub fn put_place(out: &mut Out, place: Place) {
    match place {
        Place::Ref(class) => out.class(class),
        _ => out.word(integer_word(place)),
    }
}

/// A place behind a word, where there is one.
pub fn put_some_place(out: &mut Out, word: &str, place: Option<Place>) {
    if let Some(place) = place {
        out.word(word);
        put_place(out, place);
    }
}

/// Places one after another.
pub fn put_places_on(out: &mut Out, places: &[Place]) {
    for place in places {
        put_place(out, *place);
    }
}

/// Places after a word, where there are any.
pub fn put_places(out: &mut Out, word: &str, places: &[Place]) {
    if !places.is_empty() {
        out.word(word);
    }
    put_places_on(out, places);
}

/// The word of an integer type.
pub fn type_word(integer: IntegerType) -> &'static str {
    match integer {
        IntegerType::I1 => "i1",
        IntegerType::U1 => "u1",
        IntegerType::I2 => "i2",
        IntegerType::U2 => "u2",
        IntegerType::I4 => "i4",
        IntegerType::U4 => "u4",
        IntegerType::I8 => "i8",
        IntegerType::U8 => "u8",
        IntegerType::N => "n",
        IntegerType::UN => "un",
    }
}

/// What an instruction says of an array's elements.
pub fn put_form(out: &mut Out, form: ElementForm) {
    match form {
        ElementForm::Integer(integer) => out.word(type_word(integer)),
        ElementForm::Reference => out.word("ref"),
        ElementForm::Typed(place) => put_some_place(out, "typed", Some(place)),
    }
}
