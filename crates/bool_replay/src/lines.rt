ghost use Rattle.std.specs.Prelude.{◌≡◌};
ghost use Rattle.std.specs.Str.{bytes_eq};
ghost use Rattle.bool_replay.specs.TraceTexts.{trimmed, without_end, without_front};

use text_lines::is_blank;

/// Whether two texts are the same.
pub(crate) fn equal(a: &[u8], b: &[u8]) -> bool
    ensures { result ≡ bytes_eq a.now b.now }
{
    a == b
}

/// The line without blanks at its front.
pub(crate) fn without_front(line: &[u8]) -> &[u8]
    ensures { result.now ≡ without_front line.now }
{
    let mut rest = line;
    while let [byte, others @ ..] = rest {
        if !is_blank(*byte) {
            break;
        }
        rest = others;
    }
    rest
}

/// The line without blanks at its end.
#[tactic(auto, using(crate::proofs::LineLemmas::blank_back, crate::proofs::LineLemmas::other_back))]
fn without_end(line: &[u8]) -> &[u8]
    ensures { result.now ≡ without_end line.now }
{
    let mut rest = line;
    while let [others @ .., byte] = rest {
        if !is_blank(*byte) {
            break;
        }
        rest = others;
    }
    rest
}

/// The line without blanks at both ends.
pub(crate) fn trimmed(line: &[u8]) -> &[u8]
    ensures { result.now ≡ trimmed line.now }
{
    without_end(without_front(line))
}
