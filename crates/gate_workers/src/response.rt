//! The response to a request: a value that is written once.
ghost use Rattle.std.specs.Prelude.{◌≡◌, ◌<◌, ◌^◌, codes, length, option_map, IfOk};
ghost use Rattle.http_edge.specs.Sent.{Sent, Failed};
ghost use Rattle.gate_workers.specs.Refusals.{allowed_name};
ghost use Rattle.gate_workers.specs.Responses as spec;
ghost use Rattle.gate_workers.specs.Responses.{IsThatOrNoMemory};
ghost use Rattle.gate_workers.specs.inner.Bodies.{kind_of, text_of};

use crate::flush::Turn;
use crate::order::OrderFault;
use crate::refusal::{Allowed, Refusal};
use byte_ends::Sink;
use delta_book::totals::SeriesTotals;
use http::StatusCode;
use http_edge::{Written, write_response};
use out_texts::{no_memory_text, report_text, status_text, turn_text};
use std::alloc::{AllocError, Global};
use std::marker::Model;

/// The body of a response: a text that was made, or one that takes no memory.
#[derive(Drop)]
pub enum Body {
    Json(Vec<u8>),
    Plain(Vec<u8>),
    /// An object without members.
    Empty,
    /// There was nothing to flush.
    Idle,
    /// Out of memory, as bytes that are there already.
    NoMemory,
}

impl Body {
    /// The media type.
    fn kind(&self) -> &'static str
        ensures name { result.now ≡ kind_of self.now }
        ensures short { length result.now < 2 ^ 32 }
    {
        match self {
            Body::Plain(_) => "text/plain",
            _ => "application/json",
        }
    }

    fn text(&self) -> &[u8]
        ensures text { result.now ≡ text_of self.now }
        ensures short { length result.now < 2 ^ 63 }
    {
        match self {
            Body::Json(text) => text.as_slice(),
            Body::Plain(text) => text.as_slice(),
            Body::Empty => b"{}",
            Body::Idle => b"{\"act\":\"nothing\"}",
            Body::NoMemory => no_memory_text(),
        }
    }
}

/// A response: its status, its body, and the allowed method where the request had another one.
/// Contracts see what is written of it.
#[derive(Drop)]
pub struct Response {
    status: StatusCode,
    allow: Option<Allowed>,
    body: Body,
}

impl Model for Response {
    ghost use Rattle.std.specs.Prelude.{option_map};
    ghost use Rattle.gate_workers.specs.Refusals.{allowed_name};
    ghost use Rattle.gate_workers.specs.Responses.{Response};
    ghost use Rattle.gate_workers.specs.inner.Bodies.{kind_of, text_of};

    ghost Value = { Response };

    ghost view = { λ r. record {
      status = r.status;
      kind = kind_of r.body;
      allow = option_map allowed_name r.allow;
      body = text_of r.body;
    } };
}

/// The text of a refusal.
fn refusal_text(alloc: Global, why: Refusal) -> Result<Vec<u8>, AllocError>
    ensures { IfOk result (λ text. text.items ≡ (spec.refusal_response why).body) }
{
    let message = why.message(alloc)?;
    status_text(alloc, message.as_str())
}

impl Response {
    /// 200, with this body.
    fn ok(body: Body) -> Response
        ensures status { result.status ≡ 200 }
        ensures kind { result.kind ≡ kind_of body }
        ensures allow { result.allow ≡ None }
        ensures body { result.body ≡ text_of body }
    {
        Response {
            status: StatusCode::OK,
            allow: None,
            body,
        }
    }

    /// 200, with this JSON.
    pub fn json(text: Vec<u8>) -> Response
        ensures { result ≡ spec.json_response text.items }
    {
        Response::ok(Body::Json(text))
    }

    /// 200, with an object without members.
    pub fn empty() -> Response
        ensures { result ≡ spec.json_response (codes "{}") }
    {
        Response::ok(Body::Empty)
    }

    /// Out of memory. Takes no memory.
    pub fn no_memory() -> Response
        ensures { result ≡ spec.refusal_response Refusal.NoMemory }
    {
        Response {
            status: StatusCode::SERVICE_UNAVAILABLE,
            allow: None,
            body: Body::NoMemory,
        }
    }

    /// A refusal, or out of memory where there is none for its text.
    pub fn refusal(alloc: Global, why: Refusal) -> Response
        ensures { IsThatOrNoMemory (spec.refusal_response why) result }
    {
        match refusal_text(alloc, why) {
            Ok(text) => Response {
                status: why.status(),
                allow: why.allowed(),
                body: Body::Json(text),
            },
            Err(_) => Response::no_memory(),
        }
    }

    /// The report of these rows, or out of memory where there is none for its text.
    pub fn report(alloc: Global, rows: &[SeriesTotals]) -> Response
        ensures { IsThatOrNoMemory (spec.report_response (Some rows.now)) result }
    {
        match report_text(alloc, rows) {
            Ok(text) => Response::ok(Body::Plain(text)),
            Err(_) => Response::no_memory(),
        }
    }

    /// The result of a flush turn, or out of memory where there is none for its text.
    pub fn turn(alloc: Global, turn: Turn) -> Response
        ensures { IsThatOrNoMemory (spec.turn_response turn) result }
    {
        match turn {
            Turn::Idle => Response::ok(Body::Idle),
            Turn::Full => Response::refusal(alloc, Refusal::Full),
            Turn::NoMemory => Response::no_memory(),
            Turn::Done {
                flush,
                points,
                answer,
                act,
            } => match turn_text(alloc, flush, points, act, answer.asked_wait()) {
                Ok(text) => Response::json(text),
                Err(_) => Response::no_memory(),
            },
        }
    }

    /// The answer to an order.
    pub fn order(alloc: Global, answer: Result<Turn, OrderFault>) -> Response
        ensures { IsThatOrNoMemory (spec.order_response answer) result }
    {
        match answer {
            Ok(turn) => Response::turn(alloc, turn),
            Err(fault) => Response::refusal(alloc, Refusal::from(fault)),
        }
    }

    pub fn status(&self) -> u16
        ensures { result ≡ self.now.status }
    {
        self.status.as_u16()
    }

    /// Writes it, and returns how much of it the sink took. Takes no memory.
    pub fn write<W: Sink>(&self, writer: &mut W) -> Written
        ensures sent { Sent (W.contents writer.old) (W.contents writer.new) (spec.bytes_of self.now)
            result }
        ensures failed { Failed W.one_more (W.failures writer.old) (W.failures writer.new) result }
    {
        let kind = self.body.kind();
        let text = self.body.text();
        match self.allow {
            None => write_response(writer, self.status, kind, None, text),
            Some(allowed) => {
                write_response(writer, self.status, kind, Some(allowed.name()), text)
            }
        }
    }
}
