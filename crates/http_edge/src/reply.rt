/// What the head of a response says: its status, and the value of its first `Retry-After` without
/// the blanks around it (RFC 9110, section 10.2.3).
#[derive(Debug, Drop)]
pub struct Reply<'b> {
    pub status: u16,
    pub retry_after: Option<&'b [u8]>,
}
