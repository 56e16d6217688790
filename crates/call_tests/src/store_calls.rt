//! The stores of `chunk_store`.
use chunk_store::Store;

#[test]
fn keeps_each_value_under_its_key(rt: HostRuntime) {
    let mut store: Store<u32> = Store::new(rt.alloc());
    assert!(rt; store.is_empty());
    assert!(rt; store.reserve(2).is_ok());
    let first = store.insert_reserved(10);
    let second = store.insert_reserved(20);
    assert_eq!(rt; store.len(), 2);
    assert_eq!(rt; store.remove(second), Some(20));
    if let Some(value) = store.get_mut(first) {
        *value = 11;
    }
    assert_eq!(rt; store.get(first).copied(), Some(11));
    assert_eq!(rt; store.get(second).copied(), None);
    assert!(rt; !store.is_empty());
}
