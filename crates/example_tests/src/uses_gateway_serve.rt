use gateway_options::ServeOptions;
use gateway_serve::serve_all;
use std::test::Fail;

#[test]
fn serves_no_connection(rt: HostRuntime) -> Result<(), Fail> {
    let options = ServeOptions {
        backend: "127.0.0.1:9318",
        listen: "127.0.0.1:0",
        connections: 0,
        receivers: 2,
        flushers: 1,
        flush_series: 1000,
        round: 32_000,
    };
    let text = serve_all(&rt, rt.alloc(), &options)?;
    assert!(rt; text.as_slice() == b"end\nadmitted 0 acknowledged 0\n".as_slice());
    Ok(())
}
