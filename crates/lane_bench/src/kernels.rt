//! The vector operations by name.
ghost use Rattle.std.specs.Prelude.{◌≡◌, length};
ghost use Rattle.bucket_lanes.specs.ByPlace.{IsClear};

use bucket_lanes::{add_into, clear, fits, is_zero, move_into, sub_from, total};

/// A vector operation of `bucket_lanes`, or the copy of a row.
#[derive(Clone, Copy)]
pub enum Kernel {
    Copy,
    Fits,
    AddInto,
    SubFrom,
    MoveInto,
    Total,
    IsZero,
    Clear,
}

impl Kernel {
    /// The operation with this name.
    pub fn of_name(name: &str) -> Option<Kernel> {
        match name {
            "copy" => Some(Kernel::Copy),
            "fits" => Some(Kernel::Fits),
            "add_into" => Some(Kernel::AddInto),
            "sub_from" => Some(Kernel::SubFrom),
            "move_into" => Some(Kernel::MoveInto),
            "total" => Some(Kernel::Total),
            "is_zero" => Some(Kernel::IsZero),
            "clear" => Some(Kernel::Clear),
            _ => None,
        }
    }
}

/// Runs an operation once on rows of 0, and returns whether its result is right for such rows.
fn step(kernel: Kernel, dst: &mut [u64], src: &mut [u64]) -> bool
    requires same { length dst.old ≡ length src.old }
    requires dst { IsClear dst.old }
    requires src { IsClear src.old }
    ensures dst { IsClear dst.new }
    ensures src { IsClear src.new }
{
    match kernel {
        Kernel::Copy => {
            dst.copy_from_slice(src);
            true
        }
        Kernel::Fits => fits(dst, src, u64::MAX),
        Kernel::AddInto => {
            add_into(dst, src);
            true
        }
        Kernel::SubFrom => {
            sub_from(dst, src);
            true
        }
        Kernel::MoveInto => {
            move_into(dst, src);
            true
        }
        Kernel::Total => total(dst) == 0,
        Kernel::IsZero => is_zero(dst),
        Kernel::Clear => {
            clear(dst);
            true
        }
    }
}

/// Runs an operation `times` times on two rows of 0, each time both ways round, and counts the
/// right results.
pub fn run(kernel: Kernel, dst: &mut [u64], src: &mut [u64], times: u64) -> u64
    requires same { length dst.old ≡ length src.old }
    requires dst { IsClear dst.old }
    requires src { IsClear src.old }
{
    let mut count = 0u64;
    for _ in 0..times {
        count = count.wrapping_add(u64::from(step(kernel, dst, src)));
        count = count.wrapping_add(u64::from(step(kernel, src, dst)));
    }
    count
}
