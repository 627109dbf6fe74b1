// The lookups of document 01. None of them changes the book. Each is a call of its own, named as in the Rust: one function over a lookup
// passed to it would be no plainer, since what they share is the check, one line. Those of a place answer 0 or the empty text past the end and no
// Option: document 01 has it so.
ghost use Rattle.vrf_model.specs.Calls.{get_group_by_index, get_group_by_path, get_gameplay_tag_name, get_field, unique-leaf-match, resolve_cnc_for_instance_name, find-class-net-cache-key};
ghost use Rattle.vrf_model.specs.Calls.{group_path, group_index, group_slots, field_name, get_path_by_guid, get_outer_guid, get_outer_path, guid_path, of_groups, of_guids};
ghost use Rattle.vrf_model.specs.Answers.{found_of, number_of};
ghost use Rattle.vrf_schema.specs.CallContract.{LookupContract, text_of};
ghost use Rattle.vrf_schema.specs.CountersContract.{CountersContract};

use crate::checked::{check_book, check_book_text};
use vrf_bitio::Refusal;
use vrf_cache::resolve;
use vrf_store::counters::{BookCounters, read_counters};
use vrf_store::look;

// The place of the group with the given path-name index.
pub fn get_group_by_index(book: &[u8], index: u32) -> Result<Option<u32>, Refusal>
    ensures { LookupContract (of_groups (get_group_by_index index)) book.now (found_of result) }
{
    check_book(book)?;
    Ok(look::find_index(book, index))
}

// The place of the last group that has the path as a key.
pub fn get_group_by_path(book: &[u8], path: &[u8]) -> Result<Option<u32>, Refusal>
    ensures { LookupContract (of_groups (get_group_by_path path.now)) book.now (found_of result) }
{
    check_book_text(book, path)?;
    Ok(look::find_path_place(book, path))
}

// The place of a GUID's record in the GUID list. `guid_path` gives the path at that place.
pub fn get_path_by_guid(book: &[u8], guid: u32) -> Result<Option<u32>, Refusal>
    ensures { LookupContract (of_guids (get_path_by_guid guid)) book.now (found_of result) }
{
    check_book(book)?;
    Ok(look::find_guid(book, guid))
}

// The outer of a GUID.
pub fn get_outer_guid(book: &[u8], guid: u32) -> Result<Option<u32>, Refusal>
    ensures { LookupContract (of_guids (get_outer_guid guid)) book.now (found_of result) }
{
    check_book(book)?;
    Ok(look::get_outer_guid(book, guid))
}

// The place of the record of a GUID's outer in the GUID list. `guid_path` gives the path at that place.
pub fn get_outer_path(book: &[u8], guid: u32) -> Result<Option<u32>, Refusal>
    ensures { LookupContract (of_guids (get_outer_path guid)) book.now (found_of result) }
{
    check_book(book)?;
    Ok(look::get_outer_path(book, guid))
}

// The place of the group of gameplay tags, if the tag's slot is filled there. `field_name` gives the tag's name.
pub fn get_gameplay_tag_name(book: &[u8], tag: u32) -> Result<Option<u32>, Refusal>
    ensures { LookupContract (of_groups (get_gameplay_tag_name tag)) book.now (found_of result) }
{
    check_book(book)?;
    Ok(look::get_gameplay_tag_name(book, tag))
}

// The checksum of the field in a group's slot.
pub fn get_field(book: &[u8], place: u32, slot: u32) -> Result<Option<u32>, Refusal>
    ensures { LookupContract (of_groups (get_field place slot)) book.now (found_of result) }
{
    check_book(book)?;
    Ok(look::field_checksum(book, place, slot))
}

// The place of the only group whose leaf is the name, or the name with `Component` or `_C` added. They are tried in this order.
pub fn unique_leaf_match(book: &[u8], name: &[u8]) -> Result<Option<u32>, Refusal>
    ensures { LookupContract (of_groups (unique-leaf-match name.now)) book.now (found_of result) }
{
    check_book_text(book, name)?;
    Ok(resolve::unique_leaf_match(book, name))
}

// The place of the ClassNetCache group of an instance name.
pub fn resolve_cnc_for_instance_name(book: &[u8], name: &[u8]) -> Result<Option<u32>, Refusal>
    ensures { LookupContract (of_groups (resolve_cnc_for_instance_name name.now)) book.now (found_of result) }
{
    check_book_text(book, name)?;
    Ok(resolve::resolve_cnc_for_instance_name(book, name))
}

// The place of the group of a path's ClassNetCache key.
pub fn find_class_net_cache_key(book: &[u8], path: &[u8]) -> Result<Option<u32>, Refusal>
    ensures { LookupContract (of_groups (find-class-net-cache-key path.now)) book.now (found_of result) }
{
    check_book_text(book, path)?;
    Ok(resolve::find_class_net_cache_key(book, path))
}

// The path-name index of the group at a place; 0 if there is no group.
pub fn group_index(book: &[u8], place: u32) -> Result<u32, Refusal>
    ensures { LookupContract (of_groups (group_index place)) book.now (number_of result) }
{
    check_book(book)?;
    Ok(look::group_index(book, place))
}

// The slot count of the group at a place; 0 if there is no group.
pub fn group_slots(book: &[u8], place: u32) -> Result<u32, Refusal>
    ensures { LookupContract (of_groups (group_slots place)) book.now (number_of result) }
{
    check_book(book)?;
    Ok(look::group_slots(book, place))
}

pub fn get_counters(book: &[u8]) -> Result<BookCounters, Refusal>
    ensures { CountersContract book.now result }
{
    check_book(book)?;
    Ok(read_counters(book))
}

// The lookups below answer the part of the book that holds a text.

// The path of the group at a place; empty if there is no group.
pub fn group_path<'a>(book: &'a [u8], place: u32) -> Result<&'a [u8], Refusal>
    ensures { LookupContract (of_groups (group_path place)) book.now (text_of result) }
{
    check_book(book)?;
    Ok(look::group_path(book, place))
}

// The name of the field in a group's slot; empty if there is no field.
pub fn field_name<'a>(book: &'a [u8], place: u32, slot: u32) -> Result<&'a [u8], Refusal>
    ensures { LookupContract (of_groups (field_name place slot)) book.now (text_of result) }
{
    check_book(book)?;
    Ok(look::field_name(book, place, slot))
}

// The path of the GUID record at a place; empty if there is no record.
pub fn guid_path<'a>(book: &'a [u8], place: u32) -> Result<&'a [u8], Refusal>
    ensures { LookupContract (of_guids (guid_path place)) book.now (text_of result) }
{
    check_book(book)?;
    Ok(look::guid_path(book, place))
}
