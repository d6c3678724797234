//! The cache of statements.

use sqlx_text::StatementCache;
use std::test::*;

#[test]
fn hands_back_the_statement_that_goes(rt: HostRuntime) -> Result<(), Fail> {
    let mut cache = StatementCache::new(rt.alloc(), 2)?;
    for (used, found, sql, number, gone) in [
        ("a", None, "a", 1, None),
        ("c", None, "b", 2, None),
        ("a", Some(1), "c", 3, Some(2)),
        ("b", None, "a", 4, Some(1)),
        ("b", None, "d", 5, Some(3)),
    ] {
        let told = (cache.get_mut(used).copied(), cache.insert(sql, number));
        assert_eq!(rt; told, (found, Ok(gone)), "at {number}");
    }
    let there = (cache.contains_key("a"), cache.contains_key("c"));
    assert_eq!(rt; there, (true, false));
    Ok(())
}

#[test]
fn forgets_statements(rt: HostRuntime) -> Result<(), Fail> {
    let mut cache = StatementCache::new(rt.alloc(), 2)?;
    for sql in ["a", "b", "c"] {
        drop(cache.insert(sql, sql));
    }
    let told = (cache.remove_lru(), cache.len());
    assert_eq!(rt; told, (Some("b"), 1));
    cache.clear();
    let told = (cache.is_empty(), cache.is_enabled(), cache.capacity());
    assert_eq!(rt; told, (true, true, 2));
    Ok(())
}

#[test]
fn a_cache_of_none_keeps_nothing(rt: HostRuntime) -> Result<(), Fail> {
    let mut cache = StatementCache::new(rt.alloc(), 0)?;
    let told = (cache.insert("a", 1), cache.is_empty(), cache.is_enabled());
    assert_eq!(rt; told, (Ok(None), true, false));
    Ok(())
}
