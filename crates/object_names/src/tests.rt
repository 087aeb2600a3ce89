use super::*;
use std::test::Fail;

#[test]
fn names_come_and_go(rt: HostRuntime) -> Result<(), Fail> {
    let mut names = Names::new(rt.alloc());
    names.put(2, 20)?;
    names.put(5, 50)?;
    // names that go, how many are asked for, which are given, and how many are live then
    let table: [(u32, u32, &[u32], usize); 5] = [
        (0, 3, &[1, 3, 4], 5),
        (9, 0, &[], 5),
        (3, 2, &[3, 6], 6),
        (2, 1, &[2], 6),
        (1, 3, &[1, 7, 8], 8),
    ];
    for (gone, count, want, len) in table {
        names.remove(gone);
        assert!(rt; count < 9 && names.len() < 9);
        assert_eq!(rt; names.free(count)?.as_slice(), want);
        assert_eq!(rt; names.make(count)?.as_slice(), want);
        assert_eq!(rt; names.len(), len);
    }
    Ok(())
}

#[test]
fn what_a_name_stands_for(rt: HostRuntime) -> Result<(), Fail> {
    let mut names = Names::new(rt.alloc());
    assert!(rt; names.len() == 0);
    names.make(2)?;
    names.put(2, 20)?;
    names.put(7, 70)?;
    assert!(rt; names.is_live(2));
    assert_eq!(rt; names.replace(2, 21), Some(20));
    assert!(rt; names.is_live(1));
    assert_eq!(rt; names.replace(1, 10), None);
    names.put(7, 71)?;
    assert!(rt; names.len() == 3);
    names.make(1)?;
    // a name, whether it is live, and what it stands for
    let table = [
        (0, false, None),
        (1, true, Some(10)),
        (2, true, Some(21)),
        (3, true, None),
        (4, false, None),
        (7, true, Some(71)),
    ];
    for (name, live, object) in table {
        assert_eq!(rt; names.is_live(name), live, "{name}");
        assert_eq!(rt; names.get(name).copied(), object, "{name}");
        assert_eq!(rt; names.remove(name), object, "{name}");
        assert!(rt; !names.is_live(name), "{name}");
    }
    assert_eq!(rt; names.len(), 0);
    Ok(())
}
