// The books that the program corrupts. Each needs 784 bytes.
use vrf_bitio::Refusal;
use vrf_model::Allowances;
use vrf_schema::calls;

// Three GUID records. The third has an outer that has an outer itself. One path is replaced, so that the text area has unused bytes.
fn set_guids(book: &mut [u8]) -> Result<(), Refusal> {
    calls::set_net_guid_path(book, 2, b"/First", 0)?;
    calls::set_net_guid_path(book, 4, b"/B.B_C", 2)?;
    calls::set_net_guid_path(book, 6, b"\xC3\xA9t\xC3\xA9", 4)?;
    calls::set_net_guid_path(book, 2, b"/A", 0)?;
    Ok(())
}

// Three groups: two with the same leaf, one of them with a core alias, and one with a default alias.
fn add_groups(book: &mut [u8]) -> Result<(), Refusal> {
    calls::add_export_group(book, b"/Game/Characters/J.J_C", 1, 2)?;
    calls::add_export_group(book, b"/X.J_C", 5, 3)?;
    calls::add_export_group(book, b"NetworkGameplayTagNodeIndex", 6, 1)?;
    Ok(())
}

fn set_fields(book: &mut [u8]) -> Result<(), Refusal> {
    calls::set_field_on_group(book, 1, 0, 11, b"Own")?;
    calls::set_field_on_group(book, 5, 2, 12, b"State")?;
    calls::set_field_on_group(book, 6, 0, 13, b"T.A")?;
    Ok(())
}

fn fill(book: &mut [u8]) -> Result<(), Refusal> {
    set_guids(book)?;
    add_groups(book)?;
    set_fields(book)
}

// A full book and further calls: a group is replaced and its field is gone, a group is merged under its core alias, and a field is dropped.
// Afterwards the texts are in the other half of the text area and use all of their allowance.
fn work_on(book: &mut [u8]) -> Result<(), Refusal> {
    fill(book)?;
    calls::add_export_group(book, b"/Y.K_C_ClassNetCache", 5, 4)?;
    calls::add_export_group(book, b"/Game/Characters/_Core/J.J_C", 7, 2)?;
    calls::set_field_on_group(book, 7, 1, 14, b"HP")?;
    calls::set_field_on_group(book, 300, 0, 15, b"Lost")?;
    calls::set_net_guid_path(book, 4, b"/Other.O_C", 0)?;
    Ok(())
}

const ALLOWED: Allowances = Allowances {
    guids: 3,
    groups: 3,
    fields: 3,
    text: 100,
    literals: 1,
};

#[derive(Clone, Copy, Debug, PartialEq, Eq)]
pub enum Book {
    Empty,
    Full,
    // Full, with further calls made on it.
    Worked,
}

pub const BOOKS: [Book; 3] = [Book::Empty, Book::Full, Book::Worked];

pub fn make(book: &mut [u8], which: Book) -> Result<(), Refusal> {
    calls::open(book, ALLOWED)?;
    match which {
        Book::Empty => Ok(()),
        Book::Full => fill(book),
        Book::Worked => work_on(book),
    }
}
