// Numbers inside and outside a list.
use crate::{entry_of, index_of, set_entry};

#[test]
fn numbers_outside_the_list_have_no_entry(rt: HostRuntime) {
    for (number, index) in [
        (0, None),
        (1, Some(0)),
        (3, Some(2)),
        (4, None),
        (u64::MAX, None),
    ] {
        assert_eq!(rt; index_of(number, 3), index);
    }
    let mut list = [7, 8, 9];
    set_entry(&mut list, 0, 1);
    set_entry(&mut list, 4, 1);
    set_entry(&mut list, 3, 5);
    assert_eq!(rt; list, [7, 8, 5]);
    assert_eq!(rt;
        (
            entry_of(&list, 3, 0),
            entry_of(&list, 4, 0),
            entry_of(&list, 0, 6)
        ),
        (5, 0, 6)
    );
}
