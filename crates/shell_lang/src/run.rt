ghost use Rattle.std.specs.Prelude.{◌≡◌, ◌≤◌, length};
ghost use Rattle.std.specs.List.{prefix_len};
ghost use Rattle.shell_lang.specs.Bytes.{is_name_byte, is_plain};
ghost use Rattle.text_lines.specs.Lines.{is_blank};

use outside::is_digit;
use text_lines::is_blank;

// Bytes that stand together.
#[derive(Clone, Copy, Debug)]
pub enum Run {
    // The name of a variable.
    Name,
    // Plain text outside quotes.
    Plain,
    // Text inside quotes.
    Quoted,
    // Decimal digits.
    Digits,
    // Blanks and tabs.
    Blanks,
}

impl Run {
    ghost use Rattle.shell_lang.specs.Runs.{is_in};

    // Whether the byte belongs to such a run.
    pub fn has(self, byte: u8) -> bool
        ensures { result ≡ is_in self byte }
    {
        match self {
            Run::Name => is_name_byte(byte),
            Run::Plain => is_plain(byte),
            Run::Quoted => byte != b'"',
            Run::Digits => is_digit(byte),
            Run::Blanks => is_blank(byte),
        }
    }

    // The length of the longest run that the bytes begin with.
    pub fn len(self, bytes: &[u8]) -> usize
        ensures length { result ≡ prefix_len (is_in self) bytes.now }
        ensures within { result ≤ length bytes.now }
    {
        let mut len = 0;
        while len < bytes.len() && self.has(bytes[len]) {
            len += 1;
        }
        len
    }
}

fn is_name_byte(byte: u8) -> bool
    ensures { result ≡ is_name_byte byte }
{
    is_digit(byte)
        || (b'A' <= byte && byte <= b'Z')
        || (b'a' <= byte && byte <= b'z')
        || byte == b'_'
}

fn is_plain(byte: u8) -> bool
    ensures { result ≡ is_plain byte }
{
    !(is_blank(byte) || byte == b'"' || byte == b'#' || byte == b'$' || byte == b';')
}
