//! The sums of the report.

ghost use Rattle.std.specs.Prelude.{◌≡◌, ◌≤◌, ◌<◌, ◌^◌, ℕ, drop, length, sum, sum_by, count_by, nat_lt};
ghost use Rattle.xv_base.specs.Units.{units};

use xv_base::UnitId;
use xv_dest::DestHalf;
use xv_device::UnitDevice;
use xv_source::SourceHalf;

/// How many versions were made of the units from one on.
pub(crate) fn issued_from<S: UnitDevice>(source: &SourceHalf<S>, first: u32, count: u32) -> u32
    requires within { first ≤ count }
    requires units { count ≡ units source.now.shape }
    requires each { count ≡ length source.now.issued }
    requires few { sum source.now.issued < 2 ^ 32 }
    ensures { result ≡ sum (drop first source.now.issued) }
{
    let mut total = 0;
    for unit in first..count {
        total += source.issued(UnitId(unit));
    }
    total
}

/// Of how many of the units from one on a version was made.
pub(crate) fn made_from<S: UnitDevice>(source: &SourceHalf<S>, first: u32, count: u32) -> u32
    requires within { first ≤ count }
    requires units { count ≡ units source.now.shape }
    requires each { count ≡ length source.now.issued }
    ensures { result ≡ count_by (λ (k : ℕ). nat_lt 0 k) (drop first source.now.issued) }
{
    let mut total = 0;
    for unit in first..count {
        total += u32::from(source.issued(UnitId(unit)) > 0);
    }
    total
}

/// How many versions were written.
pub(crate) fn written<T: UnitDevice>(dest: &DestHalf<T>, count: u32) -> u32
    requires units { count ≡ units dest.now.shape }
    requires each { count ≡ length dest.now.applied }
    requires few { sum dest.now.applied < 2 ^ 32 }
    ensures { result ≡ sum dest.now.applied }
{
    let mut total = 0;
    for unit in 0..count {
        total += dest.version(UnitId(unit));
    }
    total
}

/// How many blocks are behind on all disks.
pub(crate) fn copied<S: UnitDevice>(source: &SourceHalf<S>, disks: u8) -> u32
    requires each { disks ≡ length source.now.disks }
    requires few { sum_by (λ d. d.cursor) source.now.disks < 2 ^ 32 }
    ensures { result ≡ sum_by (λ d. d.cursor) source.now.disks }
{
    let mut total = 0;
    for disk in 0..disks {
        total += source.cursor(disk);
    }
    total
}
