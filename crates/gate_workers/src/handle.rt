//! Handles a request: calls the store and builds the response.
ghost use Rattle.std.specs.Prelude.{◌≡◌, None};
ghost use Rattle.delta_book.specs.Calls as book;
ghost use Rattle.gate_workers.specs.Calls as call;
ghost use Rattle.gate_workers.specs.Conversations.{IsHandled, IsPosted, IsOneCall};
ghost use Rattle.gate_workers.specs.Conversations.{SaysQuarantine, SaysLift, SaysOrder, SaysReport};
ghost use Rattle.gate_workers.specs.inner.Shown.{shown};

use crate::refusal::Refusal;
use crate::request::Ask;
use crate::response::Response;
use crate::store::{Keeper, Store};
use metric_events::batch::Batch;
use metric_events::sender_name::SenderName;
use std::alloc::Global;

/// A handled request: its response, and its batch, where it has one, which is open until the
/// response is written.
#[derive(Drop)]
pub struct Handled {
    pub response: Response,
    pub batch: Option<u64>,
}

fn without_batch(response: Response) -> Handled
    ensures response { result.response ≡ response }
    ensures batch { result.batch ≡ None }
{
    Handled {
        response,
        batch: None,
    }
}

/// Admits a batch. A batch without points needs no call of the store.
fn post<K: Store>(alloc: Global, keeper: &mut K, body: Batch, text: Vec<u8>) -> Handled
    ensures { IsPosted K.gives body.sender body.points text.items keeper.old keeper.new
        result.response result.batch }
{
    if body.points.as_slice().is_empty() {
        return without_batch(Response::json(text));
    }
    match keeper.admit(body) {
        Err((fault, _)) => without_batch(Response::refusal(alloc, Refusal::from(fault))),
        Ok(batch) => Handled {
            response: Response::json(text),
            batch: Some(batch),
        },
    }
}

fn quarantine<K: Store>(alloc: Global, keeper: &mut K, sender: SenderName) -> Response
    ensures { IsOneCall K.gives (λ r. call.on_book (book.quarantine sender r)) SaysQuarantine
        keeper.old keeper.new result }
{
    match keeper.quarantine(sender) {
        Ok(()) => Response::empty(),
        Err(fault) => Response::refusal(alloc, Refusal::from(fault)),
    }
}

fn lift<K: Store>(alloc: Global, keeper: &mut K, sender: SenderName) -> Response
    ensures { IsOneCall K.gives (λ r. call.on_book (book.lift sender r)) SaysLift
        keeper.old keeper.new result }
{
    match keeper.lift(&sender) {
        Ok(()) => Response::empty(),
        Err(_) => Response::refusal(alloc, Refusal::NotQuarantined),
    }
}

fn flush<K: Keeper>(alloc: Global, keeper: &mut K) -> Response
    ensures { IsOneCall K.gives call.order SaysOrder keeper.old keeper.new result }
{
    let answer = keeper.order();
    Response::order(alloc, answer)
}

fn report<K: Store>(alloc: Global, keeper: &mut K) -> Response
    ensures { IsOneCall K.gives (λ rows. call.on_book (book.totals rows)) SaysReport
        keeper.old keeper.new result }
{
    match keeper.totals() {
        Err(_) => Response::no_memory(),
        Ok(rows) => Response::report(alloc, rows.as_slice()),
    }
}

/// Handles a request.
pub fn handle<K: Keeper>(alloc: Global, keeper: &mut K, ask: Ask) -> Handled
    ensures { IsHandled K.gives (shown ask) keeper.old keeper.new result.response result.batch }
{
    match ask {
        Ask::Metrics { body, text } => post(alloc, keeper, body, text),
        Ask::Quarantine(sender) => without_batch(quarantine(alloc, keeper, sender)),
        Ask::Lift(sender) => without_batch(lift(alloc, keeper, sender)),
        Ask::FlushNow => without_batch(flush(alloc, keeper)),
        Ask::Report => without_batch(report(alloc, keeper)),
        Ask::Refused(why) => without_batch(Response::refusal(alloc, why)),
    }
}
