//! The back end: what connects to it, and how a request goes to it and its answer comes back.
ghost use Rattle.std.specs.Prelude.{◌≡◌, ◌<◌, ◌^◌, Option, length};
ghost use Rattle.http_edge.specs.Texts.{post_text};
ghost use Rattle.gateway_serve.specs.Called.{IsCalled};

use crate::piece_source::PieceSource;
use crate::uninterrupted::Uninterrupted;
use back_answers::Answer;
use byte_ends::{Sink, Source, ToWriter};
use gate_workers::{Uplink, exchange};
use std::net::{Net, TcpStream};

/// What connects to the back end.
pub trait Connect {
    /// The side of a connection that is read.
    type Reader: Source + Drop;

    /// The side that is written.
    type Writer: Sink + Drop;

    /// What a call makes of it, with the connection that it gives.
    ghost connects: { Self → Option (Self.Reader × Self.Writer) → Self → Type 0 };

    /// Both sides of a new connection, or none where none could be made.
    fn connect(&mut self) -> Option<(Self::Reader, Self::Writer)>
        ensures { connects self.old result self.new };
}

/// Connects to an address by the system.
#[derive(Drop)]
pub struct TcpConnector<'a, R> {
    net: &'a R,
    address: &'a str,
}

impl<'a, R: Net<Stream = TcpStream>> TcpConnector<'a, R> {
    pub fn new(net: &'a R, address: &'a str) -> Self {
        TcpConnector { net, address }
    }
}

impl<R: Net<Stream = TcpStream>> Connect for TcpConnector<'_, R> {
    type Reader = PieceSource<Uninterrupted<TcpStream>>;

    type Writer = ToWriter<Uninterrupted<TcpStream>>;

    /// What a back end has is not known.
    ghost connects = { λ before connection after. Unit {0} };

    fn connect(
        &mut self,
    ) -> Option<
        (
            PieceSource<Uninterrupted<TcpStream>>,
            ToWriter<Uninterrupted<TcpStream>>,
        ),
    > {
        let stream = TcpStream::connect(self.net, self.address).ok()?;
        let other = stream.try_clone().ok()?;
        let reader = PieceSource::new(Uninterrupted::new(stream));
        let writer = ToWriter::new(Uninterrupted::new(other));
        Some((reader, writer))
    }
}

/// The back end that a connector reaches. Each request goes on a connection of its own.
#[derive(Drop)]
pub struct Backend<'a, D> {
    connector: D,
    host: &'a str,
    ghost short: { length host.now < 2 ^ 32 },
}

impl<'a, D: Connect> Backend<'a, D> {
    /// The back end that is reached so; its requests name this `Host`.
    pub fn new(connector: D, host: &'a str) -> Self
        requires { length host.now < 2 ^ 32 }
        ensures connector { result.connector ≡ connector }
        ensures host { result.host.now ≡ host.now }
    {
        Backend { connector, host }
    }
}

impl<D: Connect> Uplink for Backend<'_, D> {
    type Pass = ();

    /// One connection is made, and at most one request is written to it.
    ghost sends = { λ before bytes answer after. (line : Option (D.Reader × D.Writer))
        × D.connects before.connector line after.connector
        × IsCalled D.Reader.remaining D.Reader.given D.Reader.failures D.Reader.one_more
        D.Writer.contents D.Writer.failures D.Writer.one_more line
        (post_text before.host.now bytes) answer × (after.host.now ≡ before.host.now) };

    /// Unknown where there is no connection, and where it breaks. An answer is waited for as long
    /// as it takes: a flush that was given back meanwhile might be counted twice.
    fn send(&mut self, _pass: (), bytes: &[u8]) -> Answer {
        let Some((reader, writer)) = self.connector.connect() else {
            return Answer::Unknown;
        };
        let mut reader = reader;
        let mut writer = writer;
        exchange(&mut reader, &mut writer, self.host, bytes)
    }
}
