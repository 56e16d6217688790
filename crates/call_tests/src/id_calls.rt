//! The small types of `cht_ids`.
use cht_ids::{
    Counter, Id, LIMIT, List, Memory, Ref, Short, Unpack, cut_line, cut_word, fits_product,
    fits_sum, read_number, read_ref, write_number, write_ref,
};
use std::alloc::AllocError;
use std::test::Fail;

#[test]
fn numbers_and_references_are_texts(rt: HostRuntime) {
    assert_eq!(rt; read_number(b"+3"), Some(3));
    assert_eq!(rt; read_number(b"-9223372036854775808"), Some(i64::MIN));
    assert_eq!(rt; read_number(b"9223372036854775808"), None);
    assert_eq!(rt;
        write_number(i128::MIN).as_bytes(),
        b"-170141183460469231731687303715884105728".as_slice()
    );
    let id = Ref::Id(Id {
        owner: 12,
        number: 18446744073709551616,
    });
    assert_eq!(rt;
        write_ref(id).as_bytes(),
        b"12:18446744073709551616".as_slice()
    );
    assert_eq!(rt; read_ref(b"12:18446744073709551616"), Some(id));
    assert_eq!(rt; read_ref(b"-"), Some(Ref::Null));
    assert_eq!(rt; read_ref(b"0:01"), None);
}

#[test]
fn items_stand_in_the_order_of_their_pushes(rt: HostRuntime) -> Result<(), Fail> {
    let mut list = List::new(rt.alloc());
    assert!(rt; list.is_empty());
    assert_eq!(rt; list.push(7), Ok(()));
    list.extend(&[8, 9])?;
    assert_eq!(rt; list.len(), 3);
    assert_eq!(rt; list.get(1).copied(), Some(8));
    assert_eq!(rt; list.get(3).copied(), None);
    let list = List::from_vec(list.into_vec());
    assert_eq!(rt; list.as_slice(), [7, 8, 9].as_slice());
    Ok(())
}

#[test]
fn small_values(rt: HostRuntime) -> Result<(), Fail> {
    let mut counter = Counter::new();
    assert_eq!(rt; counter.next(), 1);
    assert_eq!(rt; counter.next(), 2);
    let mut short = Short::of(b"add ");
    short.append(b"16");
    assert_eq!(rt; short.as_bytes(), b"add 16".as_slice());
    assert!(rt; fits_sum(LIMIT - 1, 1) && !fits_sum(LIMIT, 1));
    assert!(rt; fits_product(4, 1 << 62, 1 << 62) && !fits_product(1, 1 << 64, 1 << 64));
    let memory = Unpack::from(Memory::from(AllocError));
    assert_eq!(rt; memory.to_string(rt.alloc())?.as_str(), "out of memory");
    let cut = cut_line(b"a b\n").ok_or("a line")?;
    assert_eq!(rt; cut_word(cut.0).0, b"a".as_slice());
    Ok(())
}
