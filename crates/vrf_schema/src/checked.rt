// The checks before every call: first the check of the lent book, then the check of the caller's text, if there is one.
ghost use Rattle.vrf_text.specs.Text.{accepted, caller_text};
ghost use Rattle.vrf_schema.specs.Checked.{CheckedText};

use vrf_bitio::{Reason, Refusal};
use vrf_check::check;
use vrf_text::check_text;

// The check before a call without a text.
pub fn check_book(book: &[u8]) -> Result<(), Refusal>
    ensures { CheckedText book.now accepted result }
{
    if !check(book) {
        return Err(Refusal {
            reason: Reason::CorruptBook,
            a: 0,
            b: 0,
        });
    }
    Ok(())
}

// The checks before a call with a text.
pub fn check_book_text(book: &[u8], text: &[u8]) -> Result<(), Refusal>
    ensures { CheckedText book.now (caller_text text.now) result }
{
    check_book(book)?;
    check_text(text)
}
