ghost use Rattle.std.specs.Prelude.{◌≡◌, ◌<◌, length, IfOk, vec_len};

use std::alloc::{AllocError, Global};
use std::test::Fail;
use xv_base::NoMemory;
use xv_dirty::DirtySet;

/// An empty set, of which only the range matters to what the tests call.
fn empty_set(alloc: Global, pages: u32) -> Result<DirtySet, NoMemory>
    ensures { IfOk result (λ set. length set ≡ pages) }
{
    DirtySet::empty(alloc, pages)
}

/// The empty set as a plain list of truth values.
fn empty_list(alloc: Global, pages: usize) -> Result<Vec<bool>, AllocError>
    ensures { IfOk result (λ list. vec_len list ≡ pages) }
{
    vec![in alloc; false; pages]
}

/// Puts a page into the set, or takes it out.
fn put(set: &mut DirtySet, page: u32, joins: bool)
    requires { page < length set.old }
    ensures { length set.new ≡ length set.old }
{
    if joins {
        set.insert(page);
    } else {
        set.remove(page);
    }
}

#[test]
fn finds_the_least_of_a_million_pages(rt: HostRuntime) -> Result<(), Fail> {
    let mut set = empty_set(rt.alloc(), 1_048_576)?;
    assert_eq!(rt; set.least(), None);
    set.insert(1_048_575);
    set.insert(64);
    set.insert(63);
    set.insert(4_096);
    set.insert(64);
    assert_eq!(rt; set.count(), 4);
    for want in [63, 64, 4_096, 1_048_575] {
        let least = set.least();
        assert_eq!(rt; least, Some(want));
        if let Some(page) = least {
            set.remove(page);
        }
    }
    assert_eq!(rt; set.least(), None);
    assert_eq!(rt; set.count(), 0);
    Ok(())
}

#[test]
fn agrees_with_a_plain_list_over_mixed_calls(rt: HostRuntime) -> Result<(), Fail> {
    let mut set = empty_set(rt.alloc(), 4_200)?;
    let mut plain = empty_list(rt.alloc(), 4_200)?;
    let mut random: u64 = 1;
    for step in 0..10_000 {
        random = random
            .wrapping_mul(6_364_136_223_846_793_005)
            .wrapping_add(1_442_695_040_888_963_407);
        let page = match random >> 62 {
            0 => set.least().unwrap_or(0),
            _ => (random >> 32) as u32 % 4_200,
        };
        // The second half of the calls empties the set.
        let joins = random >> 63 == 1 && step < 5_000;
        put(&mut set, page, joins);
        plain[page as usize] = joins;
        assert_eq!(rt; set.contains(page), joins);
        assert_eq!(rt;
            set.least().map(|m| m as usize),
            plain.iter().position(|m| *m)
        );
        if step % 100 == 0 {
            assert_eq!(rt; set.count() as usize, plain.iter().filter(|m| **m).count());
        }
    }
    assert_eq!(rt; set.count(), 0);
    Ok(())
}

#[test]
fn hands_all_pages_over(rt: HostRuntime) -> Result<(), Fail> {
    let mut set = DirtySet::full(rt.alloc(), 70)?;
    let mut other = DirtySet::empty(rt.alloc(), 70)?;
    set.remove(0);
    assert!(rt; other.count() == 0);
    set.take_into(&mut other);
    assert_eq!(rt; set.count(), 0);
    assert_eq!(rt; set.least(), None);
    assert_eq!(rt; other.count(), 69);
    assert_eq!(rt; other.least(), Some(1));
    assert!(rt; other.contains(69));
    Ok(())
}
