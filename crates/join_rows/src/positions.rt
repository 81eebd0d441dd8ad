//! Where a read of the rows of a join file begins, with the keys in bytes.
ghost use Rattle.std.specs.Prelude.{◌≡◌};
ghost use Rattle.join_rows.specs.Reading.{first_place, after_first, place_in, rest_in, left_list};

/// What a position has of a secondary file.
#[derive(Clone, Copy)]
pub enum MatchPlace<'a> {
    /// No record was joined.
    Missing,

    Record {
        /// The bytes of the value under JDUPSEQ, as the file's path has them.
        sequence: &'a [u8],
        rrn: u32,
    },
}

/// A place between or on the rows of a join file. It borrows its keys, and takes no memory.
#[derive(Clone, Copy)]
pub enum RowPosition<'a> {
    /// Before all rows.
    Start,

    /// Past all rows.
    End,

    /// On the row that was read last, as it was then.
    On {
        /// The primary's key and relative record number.
        key: &'a [u8],
        rrn: u32,
        /// A place for each secondary file, in the order of JFILE.
        matches: &'a [MatchPlace<'a>],
    },

    /// Before each row whose key begins with this partial key or is greater.
    Before(&'a [u8]),

    /// Past each row whose key begins with this partial key or is less.
    Past(&'a [u8]),
}

/// What is left of a position below a row so far.
#[derive(Clone, Copy)]
pub(crate) enum Left<'a> {
    /// Nothing: the row so far isn't that of the position.
    Nothing,

    /// A place for each further file.
    Places(&'a [MatchPlace<'a>]),
}

/// The place of the next file.
pub(crate) fn place<'a>(left: Left<'a>) -> Option<MatchPlace<'a>>
    ensures { result ≡ place_in (left_list left.entry) }
{
    match left {
        Left::Nothing => None,
        Left::Places(places) => first(places),
    }
}

/// What is left below it.
pub(crate) fn rest<'a>(left: Left<'a>) -> Left<'a>
    ensures { left_list result ≡ rest_in (left_list left.entry) }
{
    match left {
        Left::Nothing => Left::Nothing,
        Left::Places(places) => after(places),
    }
}

fn first<'a>(places: &'a [MatchPlace<'a>]) -> Option<MatchPlace<'a>>
    ensures { result ≡ first_place places.now }
{
    let [place, ..] = places else {
        return None;
    };
    Some(*place)
}

fn after<'a>(places: &'a [MatchPlace<'a>]) -> Left<'a>
    ensures { left_list result ≡ after_first places.now }
{
    let [_first, rest @ ..] = places else {
        return Left::Nothing;
    };
    Left::Places(rest)
}
