//! Tables of names. Each kind writes its names with their words once, in their order, and from that come the rows of all names, and
//! the row of each.

// Gives names places and bits in their order, and hands them on. A set has room for sixteen names.
macro_rules! numbered {
    ($write:ident $given:tt $kind:ident [$($names:tt)*]) => {
        numbered!(@ $write $given $kind [] [$($names)*] [
            0 1, 1 2, 2 4, 3 8, 4 16, 5 32, 6 64, 7 128,
            8 256, 9 512, 10 1024, 11 2048, 12 4096, 13 8192, 14 16384, 15 32768,
        ])
    };
    (@ $write:ident $given:tt $kind:ident [$($done:tt)*] [] $left:tt) => {
        $write!($given $kind [$($done)*])
    };
    (
        @ $write:ident $given:tt $kind:ident [$($done:tt)*]
        [$name:ident $word:literal, $($names:tt)*]
        [$place:literal $bit:literal, $($left:tt)*]
    ) => {
        numbered!(@ $write $given $kind [$($done)* $name $word $place $bit,] [$($names)*] [$($left)*])
    };
}

// All rows, as an array.
macro_rules! rows {
    (() $kind:ident [$($name:ident $word:literal $place:literal $bit:literal,)*]) => {
        [$(Row { name: $kind::$name, word: $word, place: $place, bit: $bit }),*]
    };
}

// The row of one name.
macro_rules! row_of {
    (($of:expr) $kind:ident [$($name:ident $word:literal $place:literal $bit:literal,)*]) => {
        match $of {
            $($kind::$name => Row { name: $kind::$name, word: $word, place: $place, bit: $bit },)*
        }
    };
}

pub(crate) use numbered;
pub(crate) use row_of;
pub(crate) use rows;
