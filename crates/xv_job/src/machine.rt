//! The lines of the job format, the pages and the disks.

ghost use Rattle.std.specs.Prelude.{◌≡◌, ◌≤◌, ◌<◌, ◌^◌, ◌++◌, [], ◌∷◌, length, Some, None, IfOk, IfErr, OnOk, IfSome, IfNone, if◌then◌else◌, codes};
ghost use Rattle.xv_base.specs.Units.{shape_of};
ghost use Rattle.xv_base.specs.Layout.{IsGood, layout_fault};
ghost use Rattle.xv_base.specs.declared.text.LineWhy.TheVariants.{BadWord};
ghost use Rattle.xv_text.specs.Fields.{or_else};
ghost use Rattle.xv_trace.specs.OpText.{head};
ghost use Rattle.xv_text.specs.Words.{is_spelled};
ghost use Rattle.xv_job.specs.declared.word.Word.TheVariants.{Job as JobWord, Pages, Disk};
ghost use Rattle.xv_job.specs.Draft.{format_fault, outside, size_fault, shape_fault, with_disk};
ghost use Rattle.xv_job.specs.Held.{job_held, draft_held, shape_or_none, IsConsistent, IsTaken, behind_fault, limit_of};
ghost use Rattle.xv_text.specs.Reading.{Stops};

use crate::held::Held;
use xv_base::{
    DiskShape, GROUP_FORMAT, Layout, LayoutFault, LineWhy, MOST_DISKS, MOST_UNITS, SINGLE_FORMAT,
};
use xv_text::{
    Fields, Kind, LIMIT_OF_BLOCKS, LIMIT_OF_BYTES, LIMIT_OF_DISKS, LIMIT_OF_PAGES, LIMIT_OF_SIZE,
    LIMIT_OF_UNITS, Stop, is_spelled, read_fields,
};

/// The job format that the fields say; none where they say none.
fn format_of(args: &Fields) -> Option<u8>
    ensures good { IfSome result (λ format. format_fault args.now ≡ None) }
    ensures is { IfSome result (λ format. format ≡ (if is_spelled (codes "2") (head args.now) then 2 else 1)) }
    ensures bad { IfNone result (format_fault args.now ≡ Some BadWord) }
{
    let Some((field, rest)) = args.split_first() else {
        return None;
    };
    if !rest.is_done() {
        return None;
    }
    if is_spelled(b"2", field) {
        Some(GROUP_FORMAT)
    } else if is_spelled(b"1", field) {
        Some(SINGLE_FORMAT)
    } else {
        None
    }
}

/// The limit that a layout's fault is of.
fn limit_of(fault: LayoutFault) -> LineWhy
    ensures { result ≡ limit_of fault }
{
    match fault {
        LayoutFault::NoPage => LineWhy::Limit(LIMIT_OF_PAGES),
        LayoutFault::BadSize(_) => LineWhy::Limit(LIMIT_OF_SIZE),
        LayoutFault::TooManyUnits => LineWhy::Limit(LIMIT_OF_UNITS),
        LayoutFault::TooManyBytes => LineWhy::Limit(LIMIT_OF_BYTES),
    }
}

/// The layout of these pages, without a disk.
fn pages_of(pages: u32, size: u32) -> Result<Layout, LineWhy>
    ensures is { IfOk result (λ layout. layout ≡ shape_of pages size []) }
    ensures good { IfOk result (λ layout. or_else (outside 2 1 (2 ^ 20) pages) (or_else (size_fault size) (shape_fault (shape_of pages size []))) ≡ None) }
    ensures bad { IfErr result (λ why. or_else (outside 2 1 (2 ^ 20) pages) (or_else (size_fault size) (shape_fault (shape_of pages size []))) ≡ Some why) }
{
    if pages < 1 || pages > MOST_UNITS {
        return Err(LineWhy::Limit(LIMIT_OF_PAGES));
    }
    match Layout::new(pages, size, &[]) {
        Ok(layout) => Ok(layout),
        Err(fault) => Err(limit_of(fault)),
    }
}

impl Held {
    /// Reads the job format.
    pub(crate) fn take_format(&mut self, args: &Fields) -> Result<(), Stop>
        requires consistent { IsConsistent self.old }
        ensures taken { OnOk result (IsTaken JobWord args.now self.old self.new) }
        ensures stopped { IfErr result (Stops (behind_fault (job_held self.old) JobWord args.now)) }
    {
        let Some(format) = format_of(args) else {
            return Err(Stop::Refused(LineWhy::BadWord));
        };
        self.format = format;
        Ok(())
    }

    /// Reads the pages.
    pub(crate) fn take_pages(&mut self, args: &Fields) -> Result<(), Stop>
        requires consistent { IsConsistent self.old }
        requires no_disks { self.old.disks.items ≡ [] }
        requires no_traces { self.old.traces.items ≡ [] }
        ensures taken { OnOk result (IsTaken Pages args.now self.old self.new) }
        ensures stopped { IfErr result (Stops (behind_fault (job_held self.old) Pages args.now)) }
    {
        let row = match read_fields(&[Kind::Number, Kind::Number], args) {
            Ok(row) => row,
            Err(why) => return Err(Stop::Refused(why)),
        };
        let layout = match pages_of(row.number(0), row.number(1)) {
            Ok(layout) => layout,
            Err(why) => return Err(Stop::Refused(why)),
        };
        self.layout = Some(layout);
        Ok(())
    }

    /// Reads a disk.
    pub(crate) fn take_disk(&mut self, args: &Fields) -> Result<(), Stop>
        requires consistent { IsConsistent self.old }
        requires machine { IsGood (job_held self.old).shape }
        requires no_traces { self.old.traces.items ≡ [] }
        ensures taken { OnOk result (IsTaken Disk args.now self.old self.new) }
        ensures stopped { IfErr result (Stops (behind_fault (job_held self.old) Disk args.now)) }
    {
        let row = match read_fields(&[Kind::Number, Kind::Number], args) {
            Ok(row) => row,
            Err(why) => return Err(Stop::Refused(why)),
        };
        if self.disks.len() >= usize::from(MOST_DISKS) {
            return Err(Stop::Refused(LineWhy::Limit(LIMIT_OF_DISKS)));
        }
        let blocks = row.number(0);
        let block_size = row.number(1);
        if blocks < 1 || blocks > MOST_UNITS {
            return Err(Stop::Refused(LineWhy::Limit(LIMIT_OF_BLOCKS)));
        }
        let layout = known(&self.layout);
        let disk = DiskShape { blocks, block_size };
        match self.disks.push(disk) {
            Ok(()) => {}
            Err(_) => return Err(Stop::NoMemory),
        }
        match with_disk(&layout, disk, &self.disks) {
            Ok(layout) => {
                self.layout = Some(layout);
                Ok(())
            }
            Err(why) => Err(Stop::Refused(why)),
        }
    }
}

/// The layout, which is known.
pub(crate) fn known(layout: &Option<Layout>) -> Layout
    requires { IsGood (shape_or_none layout.now) }
    ensures is { result ≡ shape_or_none layout.now }
    ensures some { layout.now ≡ Some result }
{
    match layout {
        Some(layout) => *layout,
        None => unreachable!(),
    }
}

/// The layout with this disk more, the last of all its disks.
fn with_disk(layout: &Layout, disk: DiskShape, disks: &[DiskShape]) -> Result<Layout, LineWhy>
    requires good { IsGood layout.now }
    requires more { disks.now ≡ layout.now.disks ++ disk ∷ [] }
    requires few { length disks.now ≤ 4 }
    ensures is { IfOk result (λ next. next ≡ with_disk layout.now disk.blocks disk.block_size) }
    ensures good { IfOk result (λ next. or_else (size_fault disk.block_size) (shape_fault (with_disk layout.now disk.blocks disk.block_size)) ≡ None) }
    ensures bad { IfErr result (λ why. or_else (size_fault disk.block_size) (shape_fault (with_disk layout.now disk.blocks disk.block_size)) ≡ Some why) }
{
    match Layout::new(layout.pages(), layout.page_size(), disks) {
        Ok(layout) => Ok(layout),
        Err(fault) => Err(limit_of(fault)),
    }
}
