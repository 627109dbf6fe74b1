// What the buffer of the answers holds after a `write!` of values that have a `Display`, and that a refusal or a stop is shown in a line as it is
// printed. (No clause speaks of a whole line.)
use crate::answers::Answers;
use crate::script::Stop;
use std::fmt::Write;
use vrf_bitio::{Reason, Refusal};

#[test]
fn writes_any_display(rt: HostRuntime) {
    let mut out = [b'.'; 12];
    let mut answers = Answers::new(&mut out);
    answers.begin();
    let written = write!(answers, "{} {:?}", 'x', true);
    assert!(rt; written.is_ok());
    answers.end();
    assert_eq!(rt; out, *b"0 x true\n...");
}

#[test]
fn leaves_out_what_does_not_fit(rt: HostRuntime) {
    let mut out = [b'.'; 4];
    let mut answers = Answers::new(&mut out);
    let written = write!(answers, "{}{}", "abc", 123);
    assert!(rt; written.is_ok());
    assert!(rt; answers.is_full());
    assert_eq!(rt; out, *b"abc1");
}

// docs/SCRIPTS.md has these texts. A `Stop` is printed as it is shown.
#[test]
fn prints_why_a_run_ends(rt: HostRuntime) {
    let texts = [
        (Stop::NoScript, *b"no script..."),
        (Stop::NoSuchCall, *b"no such call"),
        (Stop::TooLarge, *b"too large..."),
    ];
    for (stop, text) in texts {
        let mut printed = [b'.'; 12];
        let _ = write!(Answers::new(&mut printed), "{stop}");
        assert_eq!(rt; printed, text);
        let mut shown = [b'.'; 12];
        Answers::new(&mut shown).put(stop);
        assert_eq!(rt; shown, text);
    }
}

// docs/REFUSALS.md has this form.
#[test]
fn prints_a_refusal(rt: HostRuntime) {
    let refusal = Refusal {
        reason: Reason::WindowTooLarge,
        a: 0,
        b: u64::MAX,
    };
    let text = *b"refused 43 0 18446744073709551615";
    let mut printed = [b'.'; 33];
    let _ = write!(Answers::new(&mut printed), "{refusal}");
    assert_eq!(rt; printed, text);
    let mut shown = [b'.'; 33];
    Answers::new(&mut shown).put(refusal);
    assert_eq!(rt; shown, text);
}
