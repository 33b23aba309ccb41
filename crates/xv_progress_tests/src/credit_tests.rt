use xv_credit::{Credit, Freed};

#[test]
fn takes_credit_down_to_none_and_restores_it_to_the_whole(rt: HostRuntime) {
    let mut credit = Credit::new(2);
    assert!(rt; credit.is_whole());
    let first = credit.take();
    let second = credit.take();
    let third = credit.take();
    assert!(rt; first);
    assert!(rt; second);
    assert!(rt; !third);
    assert_eq!(rt; credit.left(), 0);
    credit.restore(1);
    assert_eq!(rt; credit.left(), 1);
    assert!(rt; !credit.is_whole());
    credit.restore(1);
    assert!(rt; credit.is_whole());
}

#[test]
fn counts_freed_messages_until_drained(rt: HostRuntime) {
    let mut freed = Freed::new();
    freed.add();
    freed.add();
    assert_eq!(rt; freed.count(), 2);
    assert_eq!(rt; freed.drain(), 2);
    assert_eq!(rt; freed.count(), 0);
}
