ghost use Rattle.std.specs.Prelude.{◌≡◌, [], IfOk};

use std::alloc::Global;
use std::test::Fail;
use xv_base::Failed;
use xv_wire::{MemWire, Wire, WirePlan};

/// A wire for four pieces of 24 bytes.
fn wire(alloc: Global, piece: u32, put: u32, take: u32) -> Result<MemWire, Fail>
    ensures { IfOk result (λ wire. (wire.capacity ≡ 96) × (wire.transit ≡ []) × (wire.counted.puts ≡ 0)) }
{
    let plan = WirePlan {
        puts: vec![in alloc; put]?,
        takes: vec![in alloc; take]?,
    };
    Ok(MemWire::new(alloc, 96, piece.max(1), plan)?)
}

/// Takes all bytes of any wire.
fn drain<W: Wire>(alloc: Global, wire: &mut W) -> Result<Vec<u8>, Fail> {
    let mut seen = Vec::new(alloc);
    for _ in 0..48 {
        let mut into = [0; 30];
        let count = wire.take(&mut into)?;
        seen.extend_from_slice(&into[..count as usize])?;
    }
    Ok(seen)
}

#[test]
fn gives_bytes_in_any_pieces(rt: HostRuntime) -> Result<(), Fail> {
    let alloc = rt.alloc();
    for (piece, first) in [(1, 1), (23, 23), (24, 24), (25, 25), (700, 30)] {
        let mut wire = wire(alloc, piece, 0, 0)?;
        let _ = wire.put(b"abcdefghijklmnopqrstuvwx");
        let _ = wire.put(b"ABCDEFGHIJKLMNOPQRSTUVWX");
        let mut into = [0; 30];
        assert_eq!(rt; wire.take(&mut into), Ok(first));
        assert_eq!(rt; into[0], b'a');
        let rest = drain(alloc, &mut wire)?;
        assert_eq!(rt; rest.len() + first as usize, 48);
        assert_eq!(rt; rest.last().copied(), Some(b'X'));
    }
    Ok(())
}

#[test]
fn fails_by_its_plan(rt: HostRuntime) -> Result<(), Fail> {
    let mut wire = wire(rt.alloc(), 20, 2, 2)?;
    let mut into = [0; 48];
    assert_eq!(rt; wire.take(&mut into), Ok(0));
    assert_eq!(rt; wire.put(&[1; 24]), Ok(()));
    assert_eq!(rt; wire.put(&[9; 24]), Err(Failed));
    assert_eq!(rt; wire.put(&[2; 24]), Ok(()));
    assert_eq!(rt; wire.take(&mut into), Ok(20));
    let mut small = [0; 4];
    assert_eq!(rt; wire.take(&mut small), Ok(4));
    assert_eq!(rt; wire.take(&mut into), Err(Failed));
    assert_eq!(rt; wire.take(&mut into), Ok(20));
    assert_eq!(rt; into[0], 2);
    assert_eq!(rt; wire.take(&mut into), Ok(4));
    assert_eq!(rt; wire.take(&mut into), Ok(0));
    assert_eq!(rt; wire.capacity(), 96);
    Ok(())
}
