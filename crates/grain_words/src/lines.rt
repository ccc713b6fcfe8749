//! The lines of a text.

ghost use Rattle.std.specs.Prelude.{◌≡◌, ◌==◌, ◌∷◌, ◌<◌, length, position};
ghost use Rattle.grain_words.specs.Lines.{lines_of, without_return};

fn line_end(text: &[char]) -> Option<usize>
    ensures { result ≡ position (λ c. c == 10) text.now }
{
    text.iter().position(|c| *c == '\n')
}

/// What stands before a CR at the line's end.
#[tactic(auto, using(crate::proofs::LineEnds::return_dropped, crate::proofs::LineEnds::return_missing, crate::proofs::LineEnds::nothing_dropped))]
fn without_return(line: &[char]) -> &[char]
    ensures { result.now ≡ without_return line.now }
{
    match line.split_last() {
        Some((c, front)) => { if *c == '\r' { front } else { line } }
        None => line,
    }
}

/// The first line of a text that has characters, and what follows it.
#[tactic(auto, using(crate::proofs::LineEnds::line_cut, crate::proofs::LineEnds::line_whole, crate::proofs::LineEnds::found_within))]
pub fn next_line(text: &[char]) -> (&[char], &[char])
    requires { 0 < length text.now }
    ensures line { lines_of text.now ≡ result.0.now ∷ lines_of result.1.now }
    ensures less { length result.1.now < length text.now }
{
    match line_end(text) {
        Some(end) => {
            let (line, _) = text.split_at(end);
            let (_, others) = text.split_at(end + 1);
            (without_return(line), others)
        }
        None => (text, &[]),
    }
}
