use gateway_options::{RehearseOptions, ServeOptions};
use gateway_rehearse::rehearse;
use gateway_serve::serve_bound;
use std::net::TcpListener;
use std::test::Fail;

#[test]
fn rehearses_one_sender(rt: HostRuntime) -> Result<(), Fail> {
    let alloc = rt.alloc();
    let (senders, batches) = (1, 2);
    let serve = |listener: &TcpListener, options: &ServeOptions<'_>| {
        serve_bound(&rt, alloc, listener, options)
    };
    let text = rehearse(&rt, alloc, &RehearseOptions { senders, batches }, serve)?;
    let line = b"series req-0 monotonic owner s0 frontier 30 accepted 2,3,0 acknowledged 2,3,0";
    assert!(rt; text.as_slice().starts_with(line));
    Ok(())
}
