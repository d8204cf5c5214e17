//! Tries the ordered table at each of its types of keys, and prints what every call answers.
#![tactic(auto)]

use std::io;
use table::{Due, Entry, Full, Key};
use types::{Height, Participant, PublicKey};

/// What an insertion did.
fn word(inserted: Result<Option<u32>, Full>) -> &'static str {
    match inserted {
        Ok(None) => "added",
        Ok(Some(_)) => "replaced",
        Err(Full) => "full",
    }
}

/// The value of an entry, or 0 where there is none.
fn value<K: Key>(entry: Option<Entry<K, u32>>) -> u32 {
    entry.map_or(0, |entry| entry.value)
}

/// Fills a table of three places out of order, with four keys that ascend.
fn fill<K: Key>(rt: &HostRuntime, entries: &mut [Entry<K, u32>], keys: &[K; 4]) -> io::Result<()> {
    let [a, b, c, d] = *keys;
    let third = word(table::insert(entries, 0, c, 30));
    let first = word(table::insert(entries, 1, a, 10));
    let second = word(table::insert(entries, 2, b, 21));
    println!(rt; "  insert: {third}, {first}, {second}")?;
    let again = word(table::insert(entries, 3, b, 20));
    let more = word(table::insert(entries, 3, d, 40));
    let past = word(table::insert(entries, 9, d, 40));
    println!(rt; "  insert: {again}, {more}, {past}")
}

/// What a table answers of four keys.
fn ask<K: Key>(rt: &HostRuntime, rows: &[Entry<K, u32>], keys: &[K; 4]) -> io::Result<()> {
    let least = value(table::first(rows));
    let greatest = value(table::last(rows));
    println!(rt; "  first: {least}, last: {greatest}")?;
    let [a, b, c, d] = keys.each_ref().map(|key| table::position(rows, key));
    println!(rt; "  position: {a:?}, {b:?}, {c:?}, {d:?}")?;
    let [a, b, c, d] = keys.each_ref().map(|key| table::lookup(rows, key));
    println!(rt; "  lookup: {a:?}, {b:?}, {c:?}, {d:?}")
}

/// All of a table's calls, over three places and with four keys that ascend.
fn try_keys<K: Key>(
    rt: &HostRuntime,
    title: &str,
    entries: &mut [Entry<K, u32>; 3],
    keys: &[K; 4],
) -> io::Result<()> {
    println!(rt; "{title}")?;
    fill(rt, entries, keys)?;
    ask(rt, entries, keys)?;
    let there = table::remove(entries, 3, &keys[1]).is_some();
    let gone = table::remove(entries, 2, &keys[1]).is_some();
    println!(rt; "  remove: {there}, {gone}")?;
    let rows = &entries[..];
    ask(rt, &rows[..2], keys)?;
    ask(rt, &rows[..0], keys)
}

/// What a place holds that is not in use.
fn filler<K: Key>(key: K) -> Entry<K, u32> {
    Entry { key, value: 0 }
}

/// A deadline with a height.
fn due(deadline: u64, height: u64) -> Due {
    Due {
        deadline,
        height: Height::new(height),
    }
}

/// A public key of one byte over and over, with another at its end.
fn public_key(each: u8, end: u8) -> PublicKey {
    let mut bytes = [each; 32];
    bytes[31] = end;
    PublicKey::new(bytes)
}

fn main(rt: HostRuntime) -> io::Result<()> {
    let heights = [0, 5, 6, u64::MAX].map(Height::new);
    try_keys(&rt, "heights", &mut [filler(heights[3]); 3], &heights)?;
    let signers = [0, 1, 7, 15].map(Participant::new);
    try_keys(&rt, "signers", &mut [filler(signers[3]); 3], &signers)?;
    let dues = [due(1, 9), due(2, 4), due(2, 5), due(3, 0)];
    try_keys(
        &rt,
        "deadlines and heights",
        &mut [filler(dues[3]); 3],
        &dues,
    )?;
    let public_keys = [
        public_key(0, 255),
        public_key(1, 0),
        public_key(1, 1),
        public_key(2, 0),
    ];
    try_keys(
        &rt,
        "public keys",
        &mut [filler(public_keys[3]); 3],
        &public_keys,
    )
}
