//! Each call once, with enough memory: no clause says that a call finds memory.

use rc_names::{
    BitRow, BlockId, Boxed, CloneIn, EvaluationOrder, KeySet, Keyed, List, Name, Seed, Table, Text,
};
use std::alloc::{AllocError, Global};
use std::test::Fail;

#[test]
fn a_number_comes_back_from_its_index(rt: HostRuntime) {
    assert_eq!(rt; BlockId::new(7).index(), 7);
    assert_eq!(rt;
        BlockId::from_index(4294967295),
        Some(BlockId::new(4294967295))
    );
    assert_eq!(rt; BlockId::from_index(4294967296), None);
    assert_eq!(rt; EvaluationOrder::UNSET, EvaluationOrder::new(0));
    assert!(rt; EvaluationOrder::new(1) < EvaluationOrder::new(2));
}

/// A list of these entries.
fn list(alloc: Global, entries: &[u32]) -> Result<List<u32>, AllocError> {
    List::from_slice(alloc, entries)
}

/// Whether a list has these entries.
fn has(list: &List<u32>, entries: &[u32]) -> bool {
    list.as_slice() == entries
}

/// The entries of two lists, those of the first and then those of the second.
fn appended(alloc: Global, first: &[u32], second: &[u32]) -> Result<List<u32>, AllocError> {
    let mut both = list(alloc, first)?;
    both.append(list(alloc, second)?)?;
    Ok(both)
}

/// The list that `take` returns, as a copy; `None` if it leaves an entry behind.
fn taken(alloc: Global, list: &mut List<u32>) -> Result<Option<List<u32>>, AllocError> {
    let taken = list.take();
    if !list.is_empty() {
        return Ok(None);
    }
    Ok(Some(taken.copy_in(alloc)?))
}

#[test]
fn a_list_is_taken_whole(rt: HostRuntime) -> Result<(), Fail> {
    let alloc = rt.alloc();
    let mut list = appended(alloc, &[7, 8], &[9])?;
    match taken(alloc, &mut list)? {
        Some(taken) => assert!(rt; has(&taken, &[7, 8, 9])),
        None => panic!(rt; "an entry is left"),
    }
    Ok(())
}

/// Moves the entries of another list, and returns whether that list is empty afterwards.
fn is_emptied(list: &mut List<u32>, mut other: List<u32>) -> Result<bool, AllocError> {
    list.take_from(&mut other)?;
    Ok(other.is_empty())
}

#[test]
fn a_list_takes_from_others(rt: HostRuntime) -> Result<(), Fail> {
    let alloc = rt.alloc();
    let mut whole = list(alloc, &[])?;
    assert!(rt; is_emptied(&mut whole, list(alloc, &[7, 8])?)?);
    assert!(rt; is_emptied(&mut whole, list(alloc, &[9])?)?);
    assert!(rt; has(&whole, &[7, 8, 9]));
    Ok(())
}

/// A list into which one entry was pushed.
fn pushed(alloc: Global, entry: u32) -> Result<List<u32>, AllocError> {
    let mut list = List::new(alloc);
    list.push(entry)?;
    Ok(list)
}

/// Adds to the first entry, if there is one.
fn add_to_first(list: &mut List<u32>, more: u32) {
    if let Some(first) = list.get_mut(0) {
        *first = first.saturating_add(more);
    }
}

/// The entry at that index, if there is one.
fn entry(list: &List<u32>, at: usize) -> Option<u32> {
    list.get(at).copied()
}

#[test]
fn an_entry_is_changed_in_its_place(rt: HostRuntime) -> Result<(), Fail> {
    let mut list = pushed(rt.alloc(), 7)?;
    assert_eq!(rt; list.len(), 1);
    add_to_first(&mut list, 10);
    assert_eq!(rt; entry(&list, 0), Some(17));
    assert_eq!(rt; entry(&list, 1), None);
    Ok(())
}

/// The entries in reverse order.
fn reversed(alloc: Global, entries: &[u32]) -> Result<List<u32>, AllocError> {
    let mut list = list(alloc, entries)?;
    list.reverse();
    Ok(list)
}

/// The entry that `pop` removes, if there is one.
fn popped(list: &mut List<u32>) -> Option<u32> {
    list.pop()
}

#[test]
fn after_reverse_the_first_comes_off_first(rt: HostRuntime) -> Result<(), Fail> {
    let mut list = reversed(rt.alloc(), &[7, 8])?;
    assert_eq!(rt; popped(&mut list), Some(7));
    assert_eq!(rt; popped(&mut list), Some(8));
    assert_eq!(rt; popped(&mut list), None);
    Ok(())
}

/// A table into which one entry was pushed, and that entry's number.
fn table(alloc: Global, entry: u8) -> Result<(Table<BlockId, u8>, BlockId), AllocError> {
    let mut table = Table::new(alloc);
    let number = table.push(entry)?;
    Ok((table, number))
}

/// Replaces the first entry, if there is one.
fn put_first(table: &mut Table<BlockId, u8>, other: u8) {
    if let Some(entry) = table.get_mut(BlockId::new(0)) {
        *entry = other;
    }
}

/// The entry with that number, if there is one.
fn entry_of(table: &Table<BlockId, u8>, number: u32) -> Option<u8> {
    table.get(BlockId::new(number)).copied()
}

/// Whether a copy of a table has these entries.
fn is_copied_as(
    alloc: Global,
    table: &Table<BlockId, u8>,
    entries: &[u8],
) -> Result<bool, AllocError> {
    Ok(table.copy_in(alloc)?.as_slice() == entries)
}

/// Whether an empty table is full.
fn is_empty_full(alloc: Global) -> bool {
    let table: Table<BlockId, u8> = Table::new(alloc);
    table.is_full()
}

#[test]
fn a_table_answers_the_number_of_an_entry(rt: HostRuntime) -> Result<(), Fail> {
    let alloc = rt.alloc();
    assert!(rt; !is_empty_full(alloc));
    let (mut table, number) = table(alloc, 5)?;
    assert_eq!(rt; number, BlockId::new(0));
    assert_eq!(rt; table.len(), 1);
    put_first(&mut table, 6);
    assert_eq!(rt; entry_of(&table, 0), Some(6));
    assert_eq!(rt; entry_of(&table, 1), None);
    assert!(rt; is_copied_as(alloc, &table, &[6])?);
    Ok(())
}

/// Pairs of a block and a number.
type Pairs = Keyed<BlockId, u32>;

/// Sets the value of the key with that number, and returns the old value.
fn inserted(keyed: &mut Pairs, key: u32, value: u32) -> Result<Option<u32>, AllocError> {
    keyed.insert(BlockId::new(key), value)
}

/// Changes the value of that key, if the key is there.
fn put_value(keyed: &mut Pairs, key: u32, other: u32) {
    if let Some(value) = keyed.get_mut(BlockId::new(key)) {
        *value = other;
    }
}

/// The value of that key, if the key is there.
fn value_of(keyed: &Pairs, key: u32) -> Option<u32> {
    keyed.get(BlockId::new(key)).copied()
}

/// The index of that key, if the key is there.
fn position_of(keyed: &Pairs, key: u32) -> Option<usize> {
    keyed.position(BlockId::new(key))
}

/// The pair at that index, if there is one.
fn pair_at(keyed: &Pairs, at: usize) -> Option<(BlockId, u32)> {
    let (key, value) = keyed.at(at)?;
    Some((key, *value))
}

#[test]
fn a_key_that_is_there_keeps_its_place(rt: HostRuntime) -> Result<(), Fail> {
    let mut keyed = Keyed::new(rt.alloc());
    assert_eq!(rt; inserted(&mut keyed, 4, 1)?, None);
    assert_eq!(rt; inserted(&mut keyed, 2, 2)?, None);
    assert_eq!(rt; inserted(&mut keyed, 4, 3)?, Some(1));
    put_value(&mut keyed, 2, 5);
    assert_eq!(rt; keyed.len(), 2);
    assert_eq!(rt; value_of(&keyed, 4), Some(3));
    assert_eq!(rt; value_of(&keyed, 3), None);
    assert_eq!(rt; position_of(&keyed, 2), Some(1));
    assert_eq!(rt; pair_at(&keyed, 1), Some((BlockId::new(2), 5)));
    assert_eq!(rt; pair_at(&keyed, 2), None);
    Ok(())
}

/// Inserts the key with that number, and returns whether it is new.
fn is_new(keys: &mut KeySet<BlockId>, key: u32) -> Result<bool, AllocError> {
    keys.insert(BlockId::new(key))
}

/// Whether that key is there, and its index.
fn found(keys: &KeySet<BlockId>, key: u32) -> (bool, Option<usize>) {
    (
        keys.contains(BlockId::new(key)),
        keys.position(BlockId::new(key)),
    )
}

/// The key at that index, if there is one.
fn key_at(keys: &KeySet<BlockId>, at: usize) -> Option<BlockId> {
    keys.at(at)
}

#[test]
fn a_key_is_new_once(rt: HostRuntime) -> Result<(), Fail> {
    let mut keys = KeySet::new(rt.alloc());
    assert!(rt; is_new(&mut keys, 4)?);
    assert!(rt; is_new(&mut keys, 2)?);
    assert!(rt; !is_new(&mut keys, 4)?);
    assert_eq!(rt; keys.len(), 2);
    assert_eq!(rt; found(&keys, 2), (true, Some(1)));
    assert_eq!(rt; found(&keys, 3), (false, None));
    assert_eq!(rt; key_at(&keys, 0), Some(BlockId::new(4)));
    assert_eq!(rt; key_at(&keys, 2), None);
    Ok(())
}

/// Inserts the keys with the numbers below a bound.
fn insert_below(keys: &mut KeySet<BlockId>, bound: u32) -> Result<(), AllocError> {
    for key in 0..bound {
        keys.insert(BlockId::new(key))?;
    }
    Ok(())
}

#[test]
fn numbers_that_lie_apart_keep_their_places(rt: HostRuntime) -> Result<(), Fail> {
    let mut keys = KeySet::new(rt.alloc());
    assert!(rt; is_new(&mut keys, 4_000_000_000)?);
    assert!(rt; is_new(&mut keys, 90)?);
    insert_below(&mut keys, 100)?;
    assert_eq!(rt; keys.len(), 101);
    assert_eq!(rt; found(&keys, 4_000_000_000), (true, Some(0)));
    assert_eq!(rt; found(&keys, 90), (true, Some(1)));
    assert_eq!(rt; found(&keys, 99), (true, Some(100)));
    assert_eq!(rt; found(&keys, 100), (false, None));
    Ok(())
}

/// The key of that index, where keys lie a thousand apart.
fn apart(index: u32) -> BlockId {
    BlockId::new(index.saturating_mul(1000))
}

/// Whether a set has the first keys of those apart, each at its index, and not the next one.
fn has_first(keys: &KeySet<BlockId>, count: u32) -> bool {
    for index in 0..count {
        if keys.position(apart(index)) != Some(index as usize) {
            return false;
        }
    }
    keys.len() == count as usize && !keys.contains(apart(count))
}

/// Inserts the next key of those apart. Where that finds no memory it has to leave the set as it was, and is tried once
/// more.
fn insert_next(keys: &mut KeySet<BlockId>, count: u32) -> Result<bool, AllocError> {
    match keys.insert(apart(count)) {
        Ok(is_new) => Ok(is_new),
        Err(error) => {
            if has_first(keys, count) {
                keys.insert(apart(count))
            } else {
                Err(error)
            }
        }
    }
}

/// Whether a set that takes twenty keys one by one has each at its index all the while.
fn has_each_in_turn(alloc: Global) -> Result<bool, AllocError> {
    let mut keys = KeySet::new(alloc);
    for count in 0..20 {
        if !has_first(&keys, count) || !insert_next(&mut keys, count)? {
            return Ok(false);
        }
    }
    Ok(has_first(&keys, 20))
}

// This holds for each call for memory that fails: `rt try --test --fail-alloc N`.
#[test]
fn each_key_is_found_while_a_set_grows(rt: HostRuntime) -> Result<(), Fail> {
    assert!(rt; has_each_in_turn(rt.alloc())?);
    Ok(())
}

/// A map with that seed and twenty keys that lie apart, whose values are empty lists.
fn map_with_seed(alloc: Global, seed: u64) -> Result<Keyed<BlockId, List<Text>>, AllocError> {
    let mut keyed = Keyed::with_seed(alloc, 2, Seed::new(seed))?;
    for index in 0..20 {
        keyed.insert(apart(index), List::new(alloc))?;
    }
    Ok(keyed)
}

/// Whether a map has each of those keys at its index, and no other.
fn has_twenty(keyed: &Keyed<BlockId, List<Text>>) -> bool {
    for index in 0..20 {
        if keyed.position(apart(index)) != Some(index as usize) {
            return false;
        }
    }
    keyed.len() == 20 && keyed.position(apart(20)).is_none()
}

/// Whether each key of a map with that seed, and of its copy, is found.
fn finds_keys_under(alloc: Global, seed: u64) -> Result<bool, AllocError> {
    let keyed = map_with_seed(alloc, seed)?;
    let copy = keyed.clone_in(alloc)?;
    Ok(has_twenty(&keyed) && has_twenty(&copy))
}

#[test]
fn each_key_is_found_under_any_seed(rt: HostRuntime) -> Result<(), Fail> {
    let alloc = rt.alloc();
    for seed in [0, 1, 18_446_744_073_709_551_615] {
        assert!(rt; finds_keys_under(alloc, seed)?);
    }
    Ok(())
}

/// A text of its own.
fn text(alloc: Global, text: &str) -> Result<Text, AllocError> {
    Text::from_str(alloc, text)
}

/// A list of the text `C`.
fn texts(alloc: Global) -> Result<List<Text>, AllocError> {
    let mut texts = List::new(alloc);
    texts.push(text(alloc, "C")?)?;
    Ok(texts)
}

/// Whether a copy of a text is `C`.
fn is_text_copied(alloc: Global) -> Result<bool, AllocError> {
    Ok(text(alloc, "C")?.clone_in(alloc)?.as_str() == "C")
}

/// The length of the copy of a list of one text.
fn copied_list(alloc: Global) -> Result<usize, AllocError> {
    Ok(texts(alloc)?.clone_in(alloc)?.len())
}

/// A table of the text `C`.
fn table_of_texts(alloc: Global) -> Result<Table<BlockId, Text>, AllocError> {
    let mut texts = List::new(alloc);
    texts.push(text(alloc, "C")?)?;
    Ok(Table::from_list(texts))
}

/// The length of the copy of a table of one text.
fn copied_table(alloc: Global) -> Result<usize, AllocError> {
    Ok(table_of_texts(alloc)?.clone_in(alloc)?.len())
}

/// The pair of block 4 and the text `D`.
fn keyed_text(alloc: Global) -> Result<Keyed<BlockId, Text>, AllocError> {
    let mut keyed = Keyed::new(alloc);
    keyed.insert(BlockId::new(4), Text::from(String::from_str(alloc, "D")?))?;
    Ok(keyed)
}

/// Whether its copy has `D` under block 4.
fn is_keyed_copied(alloc: Global) -> Result<bool, AllocError> {
    let copy = keyed_text(alloc)?.clone_in(alloc)?;
    Ok(copy.get(BlockId::new(4)).map(|text| text.as_str()) == Some("D"))
}

#[test]
fn copies_find_memory(rt: HostRuntime) -> Result<(), Fail> {
    let alloc = rt.alloc();
    assert!(rt; is_text_copied(alloc)?);
    assert_eq!(rt; copied_list(alloc)?, 1);
    assert_eq!(rt; copied_table(alloc)?, 1);
    assert!(rt; is_keyed_copied(alloc)?);
    Ok(())
}

/// A boxed number that was raised by one through `get_mut`.
fn boxed(alloc: Global, number: u32) -> Result<Boxed<u32>, AllocError> {
    let mut boxed = Boxed::new(alloc, number)?;
    let held = boxed.get_mut();
    *held = held.saturating_add(1);
    Ok(boxed)
}

#[test]
fn a_box_gives_its_value_back(rt: HostRuntime) -> Result<(), Fail> {
    let boxed = boxed(rt.alloc(), 7)?;
    assert_eq!(rt; *boxed.get(), 8);
    assert_eq!(rt; boxed.into_inner(), 8);
    Ok(())
}

/// The truth values at three places of a row of nine, in which the last one is set.
fn last_of_nine(alloc: Global) -> Result<[Option<bool>; 3], AllocError> {
    let mut row = BitRow::new(alloc, 9)?;
    if row.len() == 9 {
        row.set(8, true);
    }
    Ok([row.get(8), row.get(0), row.get(9)])
}

#[test]
fn a_truth_value_is_set_alone(rt: HostRuntime) -> Result<(), Fail> {
    assert_eq!(rt; last_of_nine(rt.alloc())?, [Some(true), Some(false), None]);
    Ok(())
}
