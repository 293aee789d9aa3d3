use gateway_options::{Options, options};
use std::test::Fail;

#[test]
fn reads_a_command_line(rt: HostRuntime) -> Result<(), Fail> {
    let words = [
        "gateway",
        "serve",
        "--backend",
        "127.0.0.1:9318",
        "--connections",
        "1000",
    ];
    let Ok(Options::Serve(options)) = options(rt.alloc(), words.as_slice()) else {
        panic!(rt; "the line does not serve");
    };
    assert!(rt; (options.connections, options.receivers) == (1000, 2));
    assert!(rt; options.listen == "127.0.0.1:4318");
    Ok(())
}
