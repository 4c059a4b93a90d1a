//! What is shown: a part of one of both texts, straight out of it.

/// A part of a text: from which byte on it stands there, counted from 0, and its bytes.
#[derive(Clone, Copy)]
pub struct Excerpt<'t> {
    pub start: usize,
    pub bytes: &'t [u8],
}

/// A part of the maker's text, or one of the site's.
#[derive(Clone, Copy)]
pub enum Shown<'m, 's> {
    Maker(Excerpt<'m>),
    Site(Excerpt<'s>),
}
