//! Why a request is refused.
ghost use Rattle.std.specs.Prelude.{◌≡◌, ◌<◌, ◌^◌, IfOk, string_bytes, option_map, length};
ghost use Rattle.gate_workers.specs.Refusals.{allowed_name, refusal_status, refusal_message};
ghost use Rattle.gate_workers.specs.Refusals.{refusal_allow, of_admit, of_quarantine, of_order};

use crate::order::OrderFault;
use delta_book::faults::{AdmitFault, QuarantineFault};
use http::StatusCode;
use std::alloc::{AllocError, Global};

/// The one method of a path.
#[derive(Clone, Copy, Debug, PartialEq, Eq)]
pub enum Allowed {
    Post,
    Get,
}

/// Why a request is refused.
#[derive(Clone, Copy, Debug, PartialEq, Eq)]
pub enum Refusal {
    Malformed,
    BodyTooLong,
    NoSuchPath,
    WrongMethod(Allowed),
    BadSender,
    BadContent,
    NotJson,
    WrongShape,
    Quarantined,
    OtherWriter(usize),
    OutOfOrder(usize, u64),
    Full,
    TooManySeries,
    TooLarge,
    Already,
    NotQuarantined,
    NoFlusher,
    NoMemory,
}

impl Allowed {
    /// The method's name in a request.
    pub fn name(self) -> &'static str
        ensures name { result.now ≡ allowed_name self }
        ensures short { length result.now < 2 ^ 32 }
    {
        match self {
            Allowed::Post => "POST",
            Allowed::Get => "GET",
        }
    }
}

impl Refusal {
    /// The status of the response.
    pub fn status(self) -> StatusCode
        ensures { result ≡ refusal_status self }
    {
        match self {
            Refusal::NoSuchPath => StatusCode::NOT_FOUND,
            Refusal::WrongMethod(_) => StatusCode::METHOD_NOT_ALLOWED,
            Refusal::BadContent => StatusCode::UNSUPPORTED_MEDIA_TYPE,
            Refusal::BodyTooLong => StatusCode::PAYLOAD_TOO_LARGE,
            Refusal::Quarantined => StatusCode::FORBIDDEN,
            Refusal::Full
            | Refusal::TooManySeries
            | Refusal::TooLarge
            | Refusal::NoFlusher
            | Refusal::NoMemory => StatusCode::SERVICE_UNAVAILABLE,
            Refusal::Malformed
            | Refusal::BadSender
            | Refusal::NotJson
            | Refusal::WrongShape
            | Refusal::OtherWriter(_)
            | Refusal::OutOfOrder(_, _)
            | Refusal::Already
            | Refusal::NotQuarantined => StatusCode::BAD_REQUEST,
        }
    }

    /// The method that the response allows, where it names one.
    pub fn allowed(self) -> Option<Allowed>
        ensures { option_map allowed_name result ≡ refusal_allow self }
    {
        match self {
            Refusal::WrongMethod(allowed) => Some(allowed),
            _ => None,
        }
    }

    /// The message in the response. Points are named by their index in the batch, from 0.
    pub fn message(self, alloc: Global) -> Result<String, AllocError>
        ensures { IfOk result (λ text. string_bytes text ≡ refusal_message self) }
    {
        match self {
            Refusal::Malformed => String::from_str(alloc, "malformed request"),
            Refusal::BodyTooLong => String::from_str(alloc, "body too long"),
            Refusal::NoSuchPath => String::from_str(alloc, "no such path"),
            Refusal::WrongMethod(_) => String::from_str(alloc, "wrong method"),
            Refusal::BadSender => String::from_str(alloc, "bad sender"),
            Refusal::BadContent => String::from_str(alloc, "only uncompressed application/json"),
            Refusal::NotJson => String::from_str(alloc, "not JSON"),
            Refusal::WrongShape => String::from_str(alloc, "wrong shape"),
            Refusal::Quarantined => String::from_str(alloc, "quarantined"),
            Refusal::OtherWriter(i) => format!(in alloc; "other writer: point {i}"),
            Refusal::OutOfOrder(i, f) => format!(in alloc; "out of order: point {i}, frontier {f}"),
            Refusal::Full => String::from_str(alloc, "full"),
            Refusal::TooManySeries => String::from_str(alloc, "too many series"),
            Refusal::TooLarge => String::from_str(alloc, "too large"),
            Refusal::Already => String::from_str(alloc, "already quarantined"),
            Refusal::NotQuarantined => String::from_str(alloc, "not quarantined"),
            Refusal::NoFlusher => String::from_str(alloc, "no flusher"),
            Refusal::NoMemory => String::from_str(alloc, "no memory"),
        }
    }
}

impl From<AdmitFault> for Refusal {
    ghost from_gives = { λ fault why. why ≡ of_admit fault };

    fn from(fault: AdmitFault) -> Refusal {
        match fault {
            AdmitFault::Quarantined => Refusal::Quarantined,
            AdmitFault::Full => Refusal::Full,
            AdmitFault::OtherWriter(i) => Refusal::OtherWriter(i),
            AdmitFault::OutOfOrder(i, f) => Refusal::OutOfOrder(i, f),
            AdmitFault::TooManySeries => Refusal::TooManySeries,
            AdmitFault::TooLarge => Refusal::TooLarge,
            AdmitFault::NoMemory => Refusal::NoMemory,
        }
    }
}

impl From<QuarantineFault> for Refusal {
    ghost from_gives = { λ fault why. why ≡ of_quarantine fault };

    fn from(fault: QuarantineFault) -> Refusal {
        match fault {
            QuarantineFault::Already => Refusal::Already,
            QuarantineFault::Full => Refusal::Full,
            QuarantineFault::NoMemory => Refusal::NoMemory,
        }
    }
}

impl From<OrderFault> for Refusal {
    ghost from_gives = { λ fault why. why ≡ of_order fault };

    fn from(fault: OrderFault) -> Refusal {
        match fault {
            OrderFault::Gone => Refusal::NoFlusher,
            OrderFault::NoMemory => Refusal::NoMemory,
        }
    }
}
