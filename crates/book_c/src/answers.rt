//! What a call answers.
ghost use Rattle.std.specs.Prelude.{◌≡◌, ◌≢◌};
ghost use Rattle.book_c.specs.Answers as spec;

use crate::statuses::{
    ALREADY, BAD_SENDER, FULL, NO_MEMORY, NO_SUCH, NOT_ENDED, NOT_JSON, NOT_PROTOBUF, NOTHING,
    OTHER_WRITER, OUT_OF_ORDER, QUARANTINED, TOO_LARGE, TOO_MANY_SERIES, WRONG_SHAPE,
};
use book_desk::by_number::PutFault;
use book_desk::desk::{DeskFault, EndFault, TakeAllFault};
use book_desk::flushes::TextFault;
use book_desk::reader::{BytesFault, PostFault};
use delta_book::faults::{AdmitFault, QuarantineFault, TakeFault};

/// A status, and what it tells of.
#[repr(C)]
#[derive(Clone, Copy)]
pub struct Answer {
    pub status: u32,
    pub number: u64,
    pub at: u64,
    pub frontier: u64,
}

impl Answer {
    /// A status alone.
    pub fn plain(status: u32) -> Answer
        ensures { result ≡ spec.plain status }
    {
        Answer {
            status,
            number: 0,
            at: 0,
            frontier: 0,
        }
    }

    /// A status that tells of a point.
    fn of_point(status: u32, position: usize, frontier: u64) -> Answer
        ensures { result ≡ record {
          status = status;
          number = 0;
          at = position;
          frontier = frontier;
        } }
    {
        Answer {
            status,
            number: 0,
            at: position as u64,
            frontier,
        }
    }
}

/// What a post is answered that a book refuses.
fn refused(fault: AdmitFault) -> Answer
    ensures value { result ≡ spec.admit_answer (DeskFault.Refused fault) }
    ensures some { result.status ≢ 0 }
{
    match fault {
        AdmitFault::Quarantined => Answer::plain(QUARANTINED),
        AdmitFault::Full => Answer::plain(FULL),
        AdmitFault::OtherWriter(i) => Answer::of_point(OTHER_WRITER, i, 0),
        AdmitFault::OutOfOrder(i, frontier) => Answer::of_point(OUT_OF_ORDER, i, frontier),
        AdmitFault::TooManySeries => Answer::plain(TOO_MANY_SERIES),
        AdmitFault::TooLarge => Answer::plain(TOO_LARGE),
        AdmitFault::NoMemory => Answer::plain(NO_MEMORY),
    }
}

/// What a post is answered that is not admitted.
pub fn admit_answer(fault: DeskFault) -> Answer
    ensures value { result ≡ spec.admit_answer fault }
    ensures some { result.status ≢ 0 }
{
    match fault {
        DeskFault::Nothing => Answer::plain(NOTHING),
        DeskFault::Refused(fault) => refused(fault),
    }
}

pub fn post_status(fault: PostFault) -> u32
    ensures value { result ≡ spec.post_status fault }
    ensures some { result ≢ 0 }
{
    match fault {
        PostFault::BadSender => BAD_SENDER,
        PostFault::NotJson => NOT_JSON,
        PostFault::WrongShape => WRONG_SHAPE,
        PostFault::NoMemory => NO_MEMORY,
    }
}

pub fn bytes_status(fault: BytesFault) -> u32
    ensures value { result ≡ spec.bytes_status fault }
    ensures some { result ≢ 0 }
{
    match fault {
        BytesFault::BadSender => BAD_SENDER,
        BytesFault::Malformed(_) => NOT_PROTOBUF,
        BytesFault::NoMemory => NO_MEMORY,
    }
}

pub fn put_status(fault: PutFault) -> u32
    ensures value { result ≡ spec.put_status fault }
    ensures some { result ≢ 0 }
{
    match fault {
        PutFault::BadSender => BAD_SENDER,
        PutFault::NoSuch => NO_SUCH,
        PutFault::NoMemory => NO_MEMORY,
    }
}

pub fn take_status(fault: TakeAllFault) -> u32
    ensures value { result ≡ spec.take_status fault }
    ensures some { result ≢ 0 }
{
    match fault {
        TakeAllFault::NotEnded => NOT_ENDED,
        TakeAllFault::Nothing => NOTHING,
        TakeAllFault::Refused(TakeFault::Full) => FULL,
        TakeAllFault::Refused(TakeFault::NoMemory) => NO_MEMORY,
    }
}

pub fn end_status(fault: EndFault) -> u32
    ensures value { result ≡ spec.end_status fault }
    ensures some { result ≢ 0 }
{
    match fault {
        EndFault::Nothing => NOTHING,
        EndFault::NotLive => NO_SUCH,
    }
}

pub fn text_status(fault: TextFault) -> u32
    ensures value { result ≡ spec.text_status fault }
    ensures some { result ≢ 0 }
{
    match fault {
        TextFault::NoSuch => NO_SUCH,
        TextFault::NoMemory => NO_MEMORY,
    }
}

pub fn hold_status(fault: QuarantineFault) -> u32
    ensures value { result ≡ spec.hold_status fault }
    ensures some { result ≢ 0 }
{
    match fault {
        QuarantineFault::Already => ALREADY,
        QuarantineFault::Full => FULL,
        QuarantineFault::NoMemory => NO_MEMORY,
    }
}
