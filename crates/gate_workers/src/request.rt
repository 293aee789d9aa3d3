//! The routes: what a request asks for.
ghost use Rattle.std.specs.Prelude.{◌≡◌, ◌≢◌, codes, IfOk, None, MatchOption};
ghost use Rattle.http_edge.specs.Request.{message_in};
ghost use Rattle.gate_workers.specs.Requested as spec;
ghost use Rattle.gate_workers.specs.inner.Shown.{shown};
ghost use Rattle.metric_events.specs.Senders.{name_fault};
ghost use Rattle.otlp_read.specs.Reading.{text_reading};
ghost use Rattle.std.specs.Str.{bytes_eq};

use crate::content::{before, is_plain_json};
use crate::refusal::{Allowed, Refusal};
use http::Method;
use http_edge::{Request, find_in};
use metric_events::batch::Batch;
use metric_events::sender_name::{NameFault, SenderName};
use otlp_read::{IdentityCache, ReadFault, read_request_with};
use out_texts::success_text;
use std::alloc::{AllocError, Global};

/// What a request asks for.
#[derive(Drop)]
pub enum Ask {
    /// To admit this batch, which may have no point. The text is the body of the response.
    Metrics { body: Batch, text: Vec<u8> },
    /// To quarantine this sender.
    Quarantine(SenderName),
    /// To release this sender.
    Lift(SenderName),
    /// A flush turn.
    FlushNow,
    /// The report of the store.
    Report,
    /// Nothing: it is refused before any call of the store.
    Refused(Refusal),
}

/// The sender's name in these bytes, where they are one.
fn name_of(alloc: Global, bytes: &[u8]) -> Result<Option<SenderName>, AllocError>
    ensures { IfOk result (λ o. MatchOption o (name_fault bytes.now ≢ None)
        (λ name. (name ≡ bytes.now) × (name_fault bytes.now ≡ None))) }
{
    match SenderName::new(alloc, bytes) {
        Ok(name) => Ok(Some(name)),
        Err(NameFault::NoMemory) => Err(AllocError),
        Err(_) => Ok(None),
    }
}

/// What a sender asks for with this body.
fn read_body(
    alloc: Global,
    body: &[u8],
    sender: SenderName,
    cache: &mut IdentityCache,
) -> Result<Ask, AllocError>
    ensures { IfOk result (λ ask. shown ask ≡ spec.read_as sender (text_reading body.now)) }
{
    match read_request_with(alloc, body, cache) {
        Err(ReadFault::NoMemory) => Err(AllocError),
        Err(ReadFault::NotJson) => Ok(Ask::Refused(Refusal::NotJson)),
        Err(ReadFault::WrongShape(_)) => Ok(Ask::Refused(Refusal::WrongShape)),
        Ok(reading) => {
            let text = success_text(alloc, reading.foreign)?;
            let points = reading.points;
            Ok(Ask::Metrics {
                body: Batch { sender, points },
                text,
            })
        }
    }
}

fn metrics_of(
    alloc: Global,
    request: &Request,
    sender: SenderName,
    cache: &mut IdentityCache,
) -> Result<Ask, AllocError>
    ensures { IfOk result (λ ask. shown ask ≡ spec.metrics_of (message_in request.now) sender) }
{
    if !is_plain_json(&request.headers) {
        return Ok(Ask::Refused(Refusal::BadContent));
    }
    read_body(alloc, &request.body, sender, cache)
}

fn metrics_named(
    alloc: Global,
    request: &Request,
    name: &[u8],
    cache: &mut IdentityCache,
) -> Result<Ask, AllocError>
    ensures { IfOk result (λ ask.
        shown ask ≡ spec.with_name (spec.metrics_of (message_in request.now)) name.now) }
{
    match name_of(alloc, name)? {
        None => Ok(Ask::Refused(Refusal::BadSender)),
        Some(sender) => metrics_of(alloc, request, sender, cache),
    }
}

fn metrics(alloc: Global, request: &Request, cache: &mut IdentityCache) -> Result<Ask, AllocError>
    ensures { IfOk result (λ ask. shown ask ≡ spec.metrics (message_in request.now)) }
{
    match request.find(b"x-sender") {
        None => metrics_named(alloc, request, b"-", cache),
        Some((name, behind)) => match find_in(behind, b"x-sender") {
            None => metrics_named(alloc, request, name, cache),
            Some(_) => Ok(Ask::Refused(Refusal::BadSender)),
        },
    }
}

fn quarantine(alloc: Global, name: &[u8]) -> Result<Ask, AllocError>
    ensures { IfOk result (λ ask. shown ask ≡ spec.with_name spec.Quarantine name.now) }
{
    match name_of(alloc, name)? {
        None => Ok(Ask::Refused(Refusal::BadSender)),
        Some(sender) => Ok(Ask::Quarantine(sender)),
    }
}

fn lift(alloc: Global, name: &[u8]) -> Result<Ask, AllocError>
    ensures { IfOk result (λ ask. shown ask ≡ spec.with_name spec.Lift name.now) }
{
    match name_of(alloc, name)? {
        None => Ok(Ask::Refused(Refusal::BadSender)),
        Some(sender) => Ok(Ask::Lift(sender)),
    }
}

fn is_post(request: &Request) -> bool
    ensures { result ≡ bytes_eq request.now.method (codes "POST") }
{
    request.method == Method::POST
}

fn is_get(request: &Request) -> bool
    ensures { result ≡ bytes_eq request.now.method (codes "GET") }
{
    request.method == Method::GET
}

/// The routes: each path, or how it begins, with its method and what it asks for.
#[tactic(auto, unfolding(crate::specs::Requested::asked_at))]
fn route(
    alloc: Global,
    path: &[u8],
    request: &Request,
    cache: &mut IdentityCache,
) -> Result<Ask, AllocError>
    ensures { IfOk result (λ ask. shown ask ≡ spec.asked_at path.now (message_in request.now)) }
{
    if path == b"/v1/metrics".as_slice() {
        if is_post(request) {
            return metrics(alloc, request, cache);
        }
        return Ok(Ask::Refused(Refusal::WrongMethod(Allowed::Post)));
    }
    if path == b"/flush".as_slice() {
        if is_post(request) {
            return Ok(Ask::FlushNow);
        }
        return Ok(Ask::Refused(Refusal::WrongMethod(Allowed::Post)));
    }
    if path == b"/report".as_slice() {
        if is_get(request) {
            return Ok(Ask::Report);
        }
        return Ok(Ask::Refused(Refusal::WrongMethod(Allowed::Get)));
    }
    if let Some(name) = path.strip_prefix(b"/quarantine/") {
        if is_post(request) {
            return quarantine(alloc, name);
        }
        return Ok(Ask::Refused(Refusal::WrongMethod(Allowed::Post)));
    }
    if let Some(name) = path.strip_prefix(b"/lift/") {
        if is_post(request) {
            return lift(alloc, name);
        }
        return Ok(Ask::Refused(Refusal::WrongMethod(Allowed::Post)));
    }
    Ok(Ask::Refused(Refusal::NoSuchPath))
}

/// What a request asks for. Its body is read with a cache of the bodies before.
pub fn ask_of(
    alloc: Global,
    request: &Request,
    cache: &mut IdentityCache,
) -> Result<Ask, AllocError>
    ensures { IfOk result (λ ask. shown ask ≡ spec.asked (message_in request.now)) }
{
    route(alloc, before(b'?', &request.target), request, cache)
}
