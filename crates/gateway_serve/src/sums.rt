//! The sums of all audits, and the line that tells them, behind the report.
ghost use Rattle.std.specs.Prelude.{◌≡◌, ◌++◌, ◌+◌, ◌-◌, ◌^◌, decimal, min, OnOk};
ghost use Rattle.gateway_serve.specs.Ended.{acknowledged_text, admitted_text, last_line};

use shared_book::audit::Audit;
use std::alloc::AllocError;

/// What the audits of all rounds have found, added up. A sum stops at the most that it holds.
#[derive(Clone, Copy, Debug, PartialEq, Eq)]
pub struct Sums {
    /// The points of all batches that were admitted, undone ones too.
    pub admitted: u128,
    /// The points that the back end has taken.
    pub acknowledged: u128,
}

impl Sums {
    /// Those of one round.
    pub fn of(audit: Audit) -> Sums
        ensures admitted { result.admitted ≡ audit.admitted }
        ensures acknowledged { result.acknowledged ≡ audit.acknowledged }
    {
        Sums {
            admitted: audit.admitted,
            acknowledged: audit.acknowledged,
        }
    }

    /// With those of one more round.
    pub fn and(self, audit: Audit) -> Sums
        ensures admitted { result.admitted ≡ min (self.admitted + audit.admitted) (2 ^ 128 - 1) }
        ensures acknowledged { result.acknowledged ≡ min (self.acknowledged + audit.acknowledged)
            (2 ^ 128 - 1) }
    {
        Sums {
            admitted: self.admitted.saturating_add(audit.admitted),
            acknowledged: self.acknowledged.saturating_add(audit.acknowledged),
        }
    }
}

fn put_total(out: &mut Vec<u8>, number: u128) -> Result<(), AllocError>
    ensures { OnOk result (out.new.items ≡ out.old.items ++ decimal number) }
{
    let mut buffer = itoa::Buffer::new();
    out.extend_from_slice(buffer.format(number).as_bytes())
}

#[tactic(auto, unfolding(crate::specs::Ended::admitted_text))]
fn put_admitted(out: &mut Vec<u8>, points: u128) -> Result<(), AllocError>
    ensures { OnOk result (out.new.items ≡ out.old.items ++ admitted_text points) }
{
    out.extend_from_slice(b"admitted ")?;
    put_total(out, points)
}

#[tactic(auto, unfolding(crate::specs::Ended::acknowledged_text))]
fn put_acknowledged(out: &mut Vec<u8>, points: u128) -> Result<(), AllocError>
    ensures { OnOk result (out.new.items ≡ out.old.items ++ acknowledged_text points) }
{
    out.extend_from_slice(b" acknowledged ")?;
    put_total(out, points)
}

/// Puts what the audits have found, as `admitted P acknowledged A` and the line's end.
#[tactic(auto, unfolding(crate::specs::Ended::last_line))]
pub fn put_last_line(out: &mut Vec<u8>, sums: Sums) -> Result<(), AllocError>
    ensures { OnOk result (out.new.items ≡ out.old.items ++ last_line sums) }
{
    put_admitted(out, sums.admitted)?;
    put_acknowledged(out, sums.acknowledged)?;
    out.extend_from_slice(b"\n")
}
