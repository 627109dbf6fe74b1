// The lookups, which do not change a book.
use vrf_bitio::Refusal;
use vrf_schema::lookups;
use vrf_script::answers::Answers;
use vrf_script::call::Lookup;

// What was found, after its label.
fn found(answer: Result<Option<u32>, Refusal>, label: &str, answers: &mut Answers<'_>) {
    match answer {
        Ok(Some(n)) => answers.labelled(label, n),
        Ok(None) => answers.put("absent"),
        Err(r) => answers.put(r),
    }
}

// A place of a group or of a GUID record.
fn place(answer: Result<Option<u32>, Refusal>, answers: &mut Answers<'_>) {
    found(answer, "place ", answers);
}

// A text of the book after its label.
fn titled(label: &str, text: Result<&[u8], Refusal>, answers: &mut Answers<'_>) {
    match text {
        Ok(text) => {
            answers.put(label);
            answers.quoted(text);
        }
        Err(r) => answers.put(r),
    }
}

pub fn group(book: &[u8], place: u32, answers: &mut Answers<'_>) {
    titled("path ", lookups::group_path(book, place), answers);
    answers.value(" index ", lookups::group_index(book, place));
    answers.value(" slots ", lookups::group_slots(book, place));
}

pub fn name(label: &str, book: &[u8], place: u32, slot: u32, answers: &mut Answers<'_>) {
    titled(label, lookups::field_name(book, place, slot), answers);
}

pub fn guid(book: &[u8], place: u32, answers: &mut Answers<'_>) {
    titled("path ", lookups::guid_path(book, place), answers);
}

fn counters(book: &[u8], answers: &mut Answers<'_>) {
    match lookups::get_counters(book) {
        Ok(n) => {
            answers.labelled("counters schema ", n.schema);
            answers.labelled(" guid ", n.guid);
            answers.labelled(" dropped ", n.dropped);
            answers.labelled(" replaced ", n.replaced);
            answers.labelled(" renamed ", n.renamed);
        }
        Err(r) => answers.put(r),
    }
}

// The answer of a lookup. A lookup by a text is given its text.
pub fn say(book: &[u8], lookup: Lookup<'_>, text: &[u8], answers: &mut Answers<'_>) {
    match lookup {
        Lookup::GroupByIndex(i) => place(lookups::get_group_by_index(book, i), answers),
        Lookup::GroupByPath(_) => place(lookups::get_group_by_path(book, text), answers),
        Lookup::PathByGuid(guid) => place(lookups::get_path_by_guid(book, guid), answers),
        Lookup::OuterGuid(guid) => found(lookups::get_outer_guid(book, guid), "guid ", answers),
        Lookup::OuterPath(guid) => place(lookups::get_outer_path(book, guid), answers),
        Lookup::GameplayTagName(tag) => place(lookups::get_gameplay_tag_name(book, tag), answers),
        Lookup::Field { place, slot } => {
            found(lookups::get_field(book, place, slot), "checksum ", answers)
        }
        Lookup::Group(place) => group(book, place, answers),
        Lookup::FieldName { place, slot } => name("name ", book, place, slot, answers),
        Lookup::GuidPath(place) => guid(book, place, answers),
        Lookup::UniqueLeafMatch(_) => place(lookups::unique_leaf_match(book, text), answers),
        Lookup::ResolveCncForInstanceName(_) => {
            place(lookups::resolve_cnc_for_instance_name(book, text), answers)
        }
        Lookup::FindClassNetCacheKey(_) => {
            place(lookups::find_class_net_cache_key(book, text), answers)
        }
        Lookup::Counters => counters(book, answers),
    }
}
