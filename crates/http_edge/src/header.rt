/// A field of a head: its name as it was written, and its value without the blanks around it
/// (RFC 9112, section 5).
#[derive(Debug, Drop)]
pub struct Header {
    pub name: Vec<u8>,
    pub value: Vec<u8>,
}
