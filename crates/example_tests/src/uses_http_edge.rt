use byte_ends::{Script, Tape};
use http::{Method, StatusCode};
use http_edge::{Written, read_message, write_response};
use std::test::Fail;

#[test]
fn reads_a_request_and_answers_it(rt: HostRuntime) -> Result<(), Fail> {
    let mut source = Script::new(b"GET /report HTTP/1.1\r\n\r\n", &[]);
    let request = read_message(rt.alloc(), &mut source)?;
    assert!(rt; request.method == Method::GET);
    assert!(rt; request.target.as_slice() == b"/report".as_slice());
    let mut sink = Tape::new(rt.alloc(), &[]);
    let written = write_response(&mut sink, StatusCode::OK, "text/plain", None, b"end\n");
    assert!(rt; written == Written::All);
    assert!(rt; sink.taken().starts_with(b"HTTP/1.1 200 OK\r\n"));
    Ok(())
}
