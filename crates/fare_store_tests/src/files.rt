use crate::checking::same;
use fare_files::{make_file, write_empty};
use std::alloc::Global;
use std::fs;

// Whether a store's file was made at the path, and how long the file there is.
fn made(rt: &HostRuntime, path: &str) -> Option<(bool, u64)> {
    let is_new = make_file(rt, path).ok()?;
    Some((is_new, fs::metadata(rt, path).ok()?.len()))
}

#[test]
fn a_store_file_is_made_once(rt: HostRuntime) {
    same(&rt, &made(&rt, "store.db"), &Some((true, 1024)));
    same(&rt, &made(&rt, "store.db"), &Some((false, 1024)));
    same(&rt, &fs::exists(&rt, "store.db-new").ok(), &Some(false));
}

// The first bytes of an empty database, and how many there are.
fn empty(alloc: Global) -> Option<([u8; 20], usize)> {
    let mut bytes = Vec::new(alloc);
    write_empty(&mut bytes).ok()?;
    let mut first = [0; 20];
    first.copy_from_slice(bytes.as_slice().get(..20)?);
    Some((first, bytes.len()))
}

#[test]
fn an_empty_database_is_one_page(rt: HostRuntime) {
    same(
        &rt,
        &empty(rt.alloc()),
        &Some((*b"SQLite format 3\0\x04\0\x01\x01", 1024)),
    );
}
