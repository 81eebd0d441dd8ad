//! Texts, images and sources: each a list of bytes, and a type of its own. `byte_lists.rt` has what they share.
use crate::byte_lists::ByteList;

/// The use of a [`Text`].
#[derive(Clone, Copy)]
pub struct OfText;

/// The use of an [`Image`].
#[derive(Clone, Copy)]
pub struct OfImage;

/// The use of a [`SourceText`].
#[derive(Clone, Copy)]
pub struct OfSource;

/// The bytes of a character value in code page 037, without the blanks that fill its field.
pub type Text = ByteList<OfText>;

/// The bytes of one record, field after field.
pub type Image = ByteList<OfImage>;

/// The lines of a data description in ASCII, each ended by a line feed.
pub type SourceText = ByteList<OfSource>;
