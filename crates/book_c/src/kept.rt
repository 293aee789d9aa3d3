//! What a handle keeps.
use book_desk::desk::Desk;
use book_desk::flushes::Flushes;
use book_desk::names::Names;
use book_desk::reader::Reader;

/// Each handle keeps one of these from its making on.
#[derive(Drop)]
pub enum Kept {
    /// Nothing: no handle of C is so.
    Nothing,
    Reader(Reader),
    Desk(Desk),
    Flushes(Flushes),
    Names(Names),
}
