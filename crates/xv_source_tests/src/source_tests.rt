ghost use Rattle.std.specs.Prelude.{◌≡◌, ◌<◌, [], ◌∷◌, length, IfOk};
ghost use Rattle.xv_base.specs.Units.{shape_of};
ghost use Rattle.xv_device.specs.Told.{HasRoomToCount};
ghost use Rattle.xv_source_tests.specs.Uncopied.{IsUncopied};

use std::alloc::Global;
use std::test::Fail;
use xv_base::{
    Cause, Config, DiskShape, Event, GuestId, Layout, NoMemory, Note, Side, Turn, UnitId, Waiting,
    Why,
};
use xv_device::{DevicePlan, MemDevice};
use xv_source::SourceHalf;

const CONFIG: Config = Config {
    streams: 1,
    credit: 4,
    outbox: 4,
    region: 1,
    rounds: 1,
    dirty: 0,
    cancel: None,
};

const DISK: DiskShape = DiskShape {
    blocks: 2,
    block_size: 16,
};

/// A half over a device of zeros, the read of this number failing.
fn half_over(alloc: Global, layout: &Layout, read: u32) -> Result<SourceHalf<MemDevice>, Fail>
    ensures new { IfOk result (λ half. IsUncopied layout.now half) }
    ensures none { IfOk result (λ half. half.rounds ≡ 0) }
    ensures countable { IfOk result (λ half. HasRoomToCount half.told) }
{
    let plan = DevicePlan {
        reads: vec![in alloc; read]?,
        writes: Vec::new(alloc),
        flushes: Vec::new(alloc),
    };
    let device = MemDevice::new(alloc, layout, &[], plan)?;
    match SourceHalf::new(alloc, layout, &CONFIG, 1, device) {
        Ok(half) => Ok(half),
        Err(device) => {
            drop(device);
            Err(Fail::from(NoMemory))
        }
    }
}

/// The answer of an event that is done.
fn done(a: u32, b: u32) -> Turn {
    Turn::Done(Note { a, b })
}

/// The half over a page and a disk.
fn half_with_disk(alloc: Global, read: u32) -> Result<SourceHalf<MemDevice>, Fail>
    ensures new { IfOk result (λ half. IsUncopied (shape_of 1 16 (DISK ∷ [])) half) }
    ensures countable { IfOk result (λ half. HasRoomToCount half.told) }
{
    let layout = Layout::new(1, 16, &[DISK])?;
    half_over(alloc, &layout, read)
}

/// The half over a page.
fn half_with_page(alloc: Global) -> Result<SourceHalf<MemDevice>, Fail>
    ensures new { IfOk result (λ half. IsUncopied (shape_of 1 16 []) half) }
    ensures none { IfOk result (λ half. half.rounds ≡ 0) }
    ensures countable { IfOk result (λ half. HasRoomToCount half.told) }
{
    let layout = Layout::new(1, 16, &[])?;
    half_over(alloc, &layout, 9)
}

/// What is told of a disk that is not copied: what its read waits for, the front of its queue, and the last version of its
/// first block.
fn told_before(half: &SourceHalf<MemDevice>) -> (Option<Why>, Option<Waiting>, u32)
    requires { IsUncopied (shape_of 1 16 (DISK ∷ [])) half.now }
{
    let waits = half.waits(Event::Read(0), false);
    (waits, half.front(0), half.issued(UnitId(1)))
}

/// Begins the first region, and answers where its block then is.
fn begin(half: &mut SourceHalf<MemDevice>) -> (Turn, Side)
    requires new { IsUncopied (shape_of 1 16 (DISK ∷ [])) half.old }
    ensures new { IsUncopied (shape_of 1 16 (DISK ∷ [])) half.new }
    ensures told { half.new.told ≡ half.old.told }
{
    let begun = half.begin(0);
    (begun, half.side(UnitId(1)))
}

/// Reads the block of the region, and moves on.
fn copy(half: &mut SourceHalf<MemDevice>) -> (Turn, Turn)
    requires new { IsUncopied (shape_of 1 16 (DISK ∷ [])) half.old }
    requires countable { HasRoomToCount half.old.told }
    ensures { 0 < length half.new.disks }
{
    let read = half.read(0);
    (read, half.advance(0, 7))
}

/// What is told of a block that is copied: where its disk's copy stands, its messages, and whether the guest is queued.
fn told_behind(half: &SourceHalf<MemDevice>) -> (u32, u32, bool)
    requires { 0 < length half.now.disks }
{
    let cursor = half.cursor(0);
    (cursor, half.outbox(UnitId(1)), half.queued(GuestId(0)))
}

#[test]
fn copies_a_block(rt: HostRuntime) -> Result<(), Fail> {
    let mut half = half_with_disk(rt.alloc(), 9)?;
    let before = told_before(&half);
    let begun = begin(&mut half);
    let copied = copy(&mut half);
    let behind = told_behind(&half);
    drop(half);
    assert_eq!(rt; before, (Some(Why::NotNow), None, 0));
    assert_eq!(rt;
        (begun, copied),
        ((done(1, 0), Side::Inside), (done(1, 0), done(1, 0)))
    );
    assert_eq!(rt; behind, (1, 1, false));
    Ok(())
}

/// Begins a round, and answers where its page then is.
fn round(half: &mut SourceHalf<MemDevice>) -> (Turn, Side)
    requires new { IsUncopied (shape_of 1 16 []) half.old }
    requires none { half.old.rounds ≡ 0 }
    ensures new { IsUncopied (shape_of 1 16 []) half.new }
    ensures told { half.new.told ≡ half.old.told }
{
    let begun = half.round(false);
    (begun, half.side(UnitId(0)))
}

/// Makes the message of a page, and stuns.
fn page_and_stun(half: &mut SourceHalf<MemDevice>) -> (Turn, u32, Turn)
    requires new { IsUncopied (shape_of 1 16 []) half.old }
    requires countable { HasRoomToCount half.old.told }
{
    let page = half.page(3);
    let rounds = half.rounds();
    (page, rounds, half.stun())
}

#[test]
fn sends_a_page_and_stuns(rt: HostRuntime) -> Result<(), Fail> {
    let mut half = half_with_page(rt.alloc())?;
    let begun = round(&mut half);
    let stunned = page_and_stun(&mut half);
    let told = (half.left(), half.may_switch());
    drop(half);
    assert_eq!(rt;
        (begun, stunned),
        ((done(1, 0), Side::Waiting), (done(0, 1), 1, done(0, 0)))
    );
    assert_eq!(rt; told, (4, false));
    Ok(())
}

#[test]
fn waits_for_a_round(rt: HostRuntime) -> Result<(), Fail> {
    let half = half_with_page(rt.alloc())?;
    let stun = half.waits(Event::Stun, false);
    let page = half.waits(Event::Page, false);
    drop(half);
    assert_eq!(rt; [stun, page], [Some(Why::NotNow), Some(Why::NothingThere)]);
    Ok(())
}

/// Reads a block, the read of which fails, and gives the copy up.
fn give_up(half: &mut SourceHalf<MemDevice>) -> Turn
    requires new { IsUncopied (shape_of 1 16 (DISK ∷ [])) half.old }
    requires countable { HasRoomToCount half.old.told }
{
    let read = half.read(0);
    half.abandon();
    read
}

#[test]
fn gives_up_after_a_read_that_fails(rt: HostRuntime) -> Result<(), Fail> {
    let mut half = half_with_disk(rt.alloc(), 1)?;
    let begun = begin(&mut half);
    let read = give_up(&mut half);
    let pages = half.device().layout().pages();
    let device = half.into_device();
    let disks = device.layout().disks();
    drop(device);
    assert_eq!(rt; begun.0, done(1, 0));
    assert_eq!(rt; read, Turn::Failed(Cause::SourceRead));
    assert_eq!(rt; (pages, disks), (1, 1));
    Ok(())
}
