//! How are members of an object written?

use serde::Serializer;

/// The name of a member, which has a word or a number.
#[derive(Clone, Copy)]
pub enum Key {
    Word(&'static str),
    Number(&'static str),
}

/// Members of an object.
#[derive(Clone, Copy)]
pub struct Row<'a> {
    /// Which members they are: the word of the first.
    pub kind: &'static str,
    /// The names of the others, in their order.
    pub keys: &'static [Key],
    /// What those have that are words, and those that are numbers. Behind the last there is nothing.
    pub words: [&'a str; 2],
    pub numbers: [u64; 5],
}

/// The members of a kind. Each is a variable by its own name, or a name and what it has; of a number with `#` in front.
macro_rules! row_of {
    (@words) => { [""; 2] };
    (@words $a:expr,) => { [$a, ""] };
    (@words $a:expr, $b:expr,) => { [$a, $b] };
    (@numbers) => { [0; 5] };
    (@numbers $a:expr,) => { [$a as u64, 0, 0, 0, 0] };
    (@numbers $a:expr, $b:expr,) => { [$a as u64, $b as u64, 0, 0, 0] };
    (@numbers $a:expr, $b:expr, $c:expr,) => { [$a as u64, $b as u64, $c as u64, 0, 0] };
    (@numbers $a:expr, $b:expr, $c:expr, $d:expr,) => {
        [$a as u64, $b as u64, $c as u64, $d as u64, 0]
    };
    (@numbers $a:expr, $b:expr, $c:expr, $d:expr, $e:expr,) => {
        [$a as u64, $b as u64, $c as u64, $d as u64, $e as u64]
    };
    (@value $name:ident) => { $name };
    (@value $name:ident $value:expr) => { $value };
    (@row $kind:expr, [$($key:expr,)*] [$($word:expr,)*] [$($number:expr,)*]) => {
        $crate::members::Row {
            kind: $kind,
            keys: &[$($key,)*],
            words: row_of!(@words $($word,)*),
            numbers: row_of!(@numbers $($number,)*),
        }
    };
    (@row $kind:expr, [$($key:expr,)*] [$($word:expr,)*] [$($number:expr,)*], # $name:ident $(: $value:expr)? $(, $($rest:tt)*)?) => {
        row_of!(
            @row $kind,
            [$($key,)* $crate::members::Key::Number(stringify!($name)),]
            [$($word,)*]
            [$($number,)* row_of!(@value $name $($value)?),]
            $(, $($rest)*)?
        )
    };
    (@row $kind:expr, [$($key:expr,)*] [$($word:expr,)*] [$($number:expr,)*], $name:ident $(: $value:expr)? $(, $($rest:tt)*)?) => {
        row_of!(
            @row $kind,
            [$($key,)* $crate::members::Key::Word(stringify!($name)),]
            [$($word,)* row_of!(@value $name $($value)?),]
            [$($number,)*]
            $(, $($rest)*)?
        )
    };
    ($kind:expr $(, $($members:tt)*)?) => { row_of!(@row $kind, [] [] [] $(, $($members)*)?) };
}

pub(crate) use row_of;

/// Writes a member that has a word.
pub fn write_word<S: Serializer>(name: &str, word: &str, out: &mut S) -> Result<(), S::Error> {
    out.key(name)?;
    out.str(word)
}

/// Writes a member that has a number.
pub fn write_number<S: Serializer>(name: &str, number: u64, out: &mut S) -> Result<(), S::Error> {
    out.key(name)?;
    out.u64(number)
}

/// Writes members into an object that is begun, of which the first has this name.
pub fn write_row<S: Serializer>(first: &str, row: &Row, out: &mut S) -> Result<(), S::Error> {
    write_word(first, row.kind, out)?;
    let (mut words, mut numbers) = (row.words.iter(), row.numbers.iter());
    for key in row.keys {
        match *key {
            Key::Word(name) => write_word(name, words.next().copied().unwrap_or(""), out)?,
            Key::Number(name) => write_number(name, numbers.next().copied().unwrap_or(0), out)?,
        }
    }
    Ok(())
}
