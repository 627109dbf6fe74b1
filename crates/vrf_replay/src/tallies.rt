// The call `tally`: the lines that the tool prints for a blob, joined by single spaces.
use vrf_script::answers::Answers;

// The last line end is left out.
pub fn play(input: &[u8], answers: &mut Answers<'_>) {
    let mut out = [0u8; 512];
    let n = vrf_tally::tally(input, &mut out);
    answers.begin();
    answers.put("tally ");
    if let Some((_, lines)) = out[..n].split_last() {
        answers.joined(lines);
    }
    answers.end();
}
