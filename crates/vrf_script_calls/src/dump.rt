// The call `dump`: a line for every place below the given numbers, also for an empty place, because no lookup gives the number of places.
// Once the buffer is full, no further line would be seen. The rest is then skipped, because the numbers may ask for billions of lines.
use crate::lookups::{group, guid, name};
use vrf_schema::lookups::{get_field, group_slots};
use vrf_script::answers::Answers;

// A group with its filled slots: at most those that it has, and at most those asked for.
fn group_line(book: &[u8], place: u32, slots: u32, answers: &mut Answers<'_>) {
    answers.begin();
    answers.labelled("group ", place);
    answers.put(" ");
    group(book, place, answers);
    for slot in 0..group_slots(book, place).unwrap_or(0).min(slots) {
        if let Ok(Some(checksum)) = get_field(book, place, slot) {
            answers.labelled(" field ", slot);
            answers.labelled(" ", checksum);
            name(" ", book, place, slot, answers);
        }
    }
    answers.end();
}

fn guid_line(book: &[u8], place: u32, answers: &mut Answers<'_>) {
    answers.begin();
    answers.labelled("guid ", place);
    answers.put(" ");
    guid(book, place, answers);
    answers.end();
}

pub fn play(book: &[u8], groups: u32, slots: u32, guids: u32, answers: &mut Answers<'_>) {
    for place in 0..groups {
        if answers.is_full() {
            break;
        }
        group_line(book, place, slots, answers);
    }
    for place in 0..guids {
        if answers.is_full() {
            break;
        }
        guid_line(book, place, answers);
    }
}
