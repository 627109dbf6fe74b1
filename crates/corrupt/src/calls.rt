// The exported calls but the readers and the writer, with arguments that fit the books of this program, and how each call ended.
use vrf_bitio::{Reason, Refusal};
use vrf_model::Allowances;
use vrf_schema::{calls, lookups};

// The number of calls: `OPENING`, then the calls that change a book, and from `FIRST_LOOKUP` on the lookups. Calls stay numbers:
// an enum would list all 34 three times, in itself, in the list to go through and in the matches below, and the report prints the number.
pub const CALLS: u32 = 34;

pub const OPENING: u32 = 0;

pub const FIRST_LOOKUP: u32 = 16;

// Fewer than the book had before it is opened again.
const FEWER: Allowances = Allowances {
    guids: 2,
    groups: 1,
    fields: 1,
    text: 50,
    literals: 0,
};

#[derive(Clone, Copy, Debug, PartialEq, Eq)]
pub enum CallEnd {
    // Refused with 2.
    Corrupt,
    // Refused with another number.
    Refused,
    Answered,
}

fn end<T: Drop>(answer: Result<T, Refusal>) -> CallEnd {
    match answer {
        Ok(_) => CallEnd::Answered,
        Err(r) if r.reason == Reason::CorruptBook => CallEnd::Corrupt,
        Err(_) => CallEnd::Refused,
    }
}

fn set_guid(book: &mut [u8], which: u32) -> CallEnd {
    match which {
        1 => end(calls::set_net_guid_path(book, 8, b"/D.D_C", 2)),
        2 => end(calls::set_net_guid_path(book, 4, b"/Game/O.O_C", 0)),
        3 => end(calls::set_net_guid_path(book, 2, b"/A", 0)),
        4 => end(calls::set_net_guid_path(book, 2, b"\xC0\x80", 0)),
        _ => end(calls::clear(book)),
    }
}

fn add_group(book: &mut [u8], which: u32) -> CallEnd {
    match which {
        6 => end(calls::add_export_group(book, b"/New.K_C", 9, 2)),
        7 => end(calls::add_export_group(book, b"/Game/Characters/J.J_C", 1, 5)),
        8 => end(calls::add_export_group(book, b"/Game/Characters/_Core/J.J_C", 7, 2)),
        9 => end(calls::add_export_group(book, b"/Z.Z", 5, 1)),
        10 => end(calls::add_export_group(book, b"/X.J_C", 1, 1)),
        _ => end(calls::add_export_group(book, b"/New.K_C", 9, 65_537)),
    }
}

fn set_field(book: &mut [u8], which: u32) -> CallEnd {
    match which {
        12 => end(calls::set_field_on_group(book, 1, 1, 77, b"HP")),
        13 => end(calls::set_field_on_group(book, 1, 0, 78, b"Own")),
        14 => end(calls::set_field_on_group(book, 5, 2, 79, b"Status")),
        _ => end(calls::set_field_on_group(book, 300, 0, 80, b"Lost")),
    }
}

fn look_by_number(book: &[u8], which: u32) -> CallEnd {
    match which {
        16 => end(lookups::get_group_by_index(book, 5)),
        17 => end(lookups::get_path_by_guid(book, 4)),
        18 => end(lookups::get_outer_guid(book, 4)),
        19 => end(lookups::get_outer_path(book, 6)),
        20 => end(lookups::get_gameplay_tag_name(book, 0)),
        21 => end(lookups::get_field(book, 0, 0)),
        22 => end(lookups::group_index(book, 1)),
        23 => end(lookups::group_slots(book, 1)),
        _ => end(lookups::get_counters(book)),
    }
}

fn look_by_text(book: &[u8], which: u32) -> CallEnd {
    match which {
        25 => end(lookups::get_group_by_path(book, b"/X.J_C")),
        26 => end(lookups::get_group_by_path(book, b"/Game/Characters/_Core/J.J_C")),
        27 => end(lookups::unique_leaf_match(book, b"J")),
        28 => end(lookups::resolve_cnc_for_instance_name(book, b"K_A_12")),
        29 => end(lookups::find_class_net_cache_key(book, b"NetworkGameplayTagNodeIndex")),
        _ => end(lookups::unique_leaf_match(book, b"\xFF")),
    }
}

fn look_for_text(book: &[u8], which: u32) -> CallEnd {
    match which {
        31 => end(lookups::group_path(book, 1)),
        32 => end(lookups::field_name(book, 0, 0)),
        _ => end(lookups::guid_path(book, 1)),
    }
}

pub fn call(book: &mut [u8], which: u32) -> CallEnd {
    match which {
        0 => end(calls::open(book, FEWER)),
        1..=5 => set_guid(book, which),
        6..=11 => add_group(book, which),
        12..=15 => set_field(book, which),
        16..=24 => look_by_number(book, which),
        25..=30 => look_by_text(book, which),
        _ => look_for_text(book, which),
    }
}

// Whether the book fails its check: then a lookup is refused with 2.
pub fn is_corrupt(book: &[u8]) -> bool {
    matches!(end(lookups::get_counters(book)), CallEnd::Corrupt)
}
