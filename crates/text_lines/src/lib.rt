#![tactic(auto)]
//! The lines of a text that is at hand, and the blanks in them.
ghost use Rattle.std.specs.Prelude.{◌≡◌, ◌≢◌, ◌<◌, ◌==◌, ◌∷◌, [], length, position};
ghost use Rattle.text_lines.specs.Lines.{is_blank, lines_of};

/// Whether a byte is a blank or a tab.
pub fn is_blank(byte: u8) -> bool
    ensures { result ≡ is_blank byte }
{
    byte == b' ' || byte == b'\t'
}

// Where the first line feed of a text stands.
fn feed_of(text: &[u8]) -> Option<usize>
    ensures { result ≡ position (λ b. b == 10) text.now }
{
    text.iter().position(|byte| *byte == b'\n')
}

/// The first line of a text, and the text behind its line feed.
#[tactic(auto, using(crate::proofs::Cutting::cut_at, crate::proofs::Cutting::cut_nowhere))]
pub fn first_line(text: &[u8]) -> (&[u8], &[u8])
    requires { text.now ≢ [] }
    ensures lines { lines_of text.now ≡ result.0.now ∷ lines_of result.1.now }
    ensures shorter { length result.1.now < length text.now }
{
    match feed_of(text) {
        Some(at) => {
            let (line, rest) = text.split_at(at);
            let (_, rest) = rest.split_at(1);
            (line, rest)
        }
        None => (text, &[]),
    }
}
