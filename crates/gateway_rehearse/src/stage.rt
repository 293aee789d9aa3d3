//! What the threads of a rehearsal share.
ghost use Rattle.std.specs.Prelude.{◌≡◌};

use gateway_options::RehearseOptions;
use std::net::{SocketAddr, TcpListener};
use std::sync::atomic::{AtomicBool, Ordering};

/// Where the gateway listens and the back end does, who posts, and what has become of it.
#[derive(Drop)]
pub struct Stage {
    /// Where the gateway listens.
    pub gateway: SocketAddr,
    /// What the back end accepts its connections by.
    pub back_end: TcpListener,
    /// Who posts how much.
    pub options: RehearseOptions,
    ended: AtomicBool,
    starved: AtomicBool,
}

impl Stage {
    /// A stage on which nothing has ended.
    pub fn new(gateway: SocketAddr, back_end: TcpListener, options: RehearseOptions) -> Stage
        ensures gateway { result.gateway ≡ gateway }
        ensures back_end { result.back_end ≡ back_end }
        ensures options { result.options ≡ options }
    {
        Stage {
            gateway,
            back_end,
            options,
            ended: AtomicBool::new(false),
            starved: AtomicBool::new(false),
        }
    }

    /// Notes that the gateway has ended: nobody takes a connection any more.
    pub fn end(&self) {
        self.ended.store(true, Ordering::SeqCst);
    }

    /// Whether the gateway has ended.
    pub fn has_ended(&self) -> bool {
        self.ended.load(Ordering::SeqCst)
    }

    /// Notes that an allocation failed.
    pub fn starve(&self) {
        self.starved.store(true, Ordering::SeqCst);
    }

    /// Whether an allocation failed.
    pub fn is_starved(&self) -> bool {
        self.starved.load(Ordering::SeqCst)
    }
}
