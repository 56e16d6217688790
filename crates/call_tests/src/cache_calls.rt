use chunk_cache::Cache;
use std::alloc::Global;
use std::test::Fail;
use task_types::Shared;

// The content of a body, where the cache has it.
fn content(cache: &mut Cache<u32>, body: u128) -> Option<u32> {
    Some(*cache.find(body)?.get())
}

#[test]
fn the_least_recently_used_content_leaves(rt: HostRuntime) -> Result<(), Fail> {
    let alloc: Global = rt.alloc();
    let mut cache = Cache::new(alloc, 1)?;
    cache.put(1, Shared::new(alloc, 10)?)?;
    cache.put(2, Shared::new(alloc, 20)?)?;
    assert_eq!(rt; content(&mut cache, 1), None);
    assert_eq!(rt; content(&mut cache, 2), Some(20));
    let mut wide = Cache::new(alloc, 2)?;
    wide.put(1, Shared::new(alloc, 10)?)?;
    wide.put(2, Shared::new(alloc, 20)?)?;
    assert_eq!(rt; content(&mut wide, 1), Some(10));
    wide.put(3, Shared::new(alloc, 30)?)?;
    assert_eq!(rt; content(&mut wide, 2), None);
    assert_eq!(rt; content(&mut wide, 1), Some(10));
    wide.forget(1);
    assert_eq!(rt; content(&mut wide, 1), None);
    assert_eq!(rt; content(&mut wide, 3), Some(30));
    let mut none = Cache::new(alloc, 0)?;
    none.put(1, Shared::new(alloc, 10)?)?;
    assert_eq!(rt; content(&mut none, 1), None);
    Ok(())
}
