ghost use Rattle.std.specs.Prelude.{◌≡◌, ◌<◌, option_copied, IfOk, OnOk, OnErr};
ghost use Rattle.shell_lang.specs.Past.{no_past, remembering, line_of};

use outside::Text;
use std::alloc::{AllocError, Global};
use std::collections::VecDeque;
use std::marker::Model;

/// How many lines are kept.
const KEPT: usize = 10_000;

/// The lines that were entered: how many, and the last ten thousand of them.
#[derive(Debug, Drop)]
pub struct History {
    alloc: Global,
    count: u64,
    lines: VecDeque<Text>,
}

impl Model for History {
    ghost use Rattle.std.specs.Prelude.{◌≡◌, ◌≤◌, length, min};
    ghost use Rattle.shell_lang.specs.Past.{Past};

    ghost Value = { Past };

    ghost view = { λ h. record { count = h.count; kept = h.lines.items } };

    ghost invariant = { λ h. length h.lines.items ≡ min h.count 10000 };
}

impl History {
    /// No line is remembered.
    ///
    /// # Errors
    ///
    /// None is answered today; the signature leaves room for a ring that is made at once.
    pub fn new(alloc: Global) -> Result<History, AllocError>
        ensures { IfOk result (λ history. history ≡ no_past) }
    {
        Ok(History {
            alloc,
            count: 0,
            lines: VecDeque::new(alloc),
        })
    }

    /// Remembers a line. The oldest one is dropped where more than ten thousand would be kept.
    ///
    /// # Errors
    ///
    /// `AllocError` where memory is refused; nothing has changed then.
    pub fn add(&mut self, line: &Text) -> Result<(), AllocError>
        requires { self.old.count < 1000000 }
        ensures ok { OnOk result (self.new ≡ remembering self.old line.now) }
        ensures err { OnErr result (self.new ≡ self.old) }
    {
        let line = line.copy(self.alloc)?;
        self.lines.push_back(line)?;
        if self.lines.len() > KEPT {
            self.lines.pop_front();
        }
        self.count += 1;
        Ok(())
    }

    /// How many lines were remembered so far.
    pub fn count(&self) -> u64
        ensures { result ≡ self.now.count }
    {
        self.count
    }

    /// Line `n`, from 1, if it is kept.
    pub fn line(&self, n: u64) -> Option<&Text>
        ensures { option_copied result ≡ line_of self.now n }
    {
        let lost = self.count - self.lines.len() as u64;
        if n <= lost || n - lost > self.lines.len() as u64 {
            return None;
        }
        self.lines.get((n - lost - 1) as usize)
    }

    /// The lines that are kept, the oldest first.
    pub fn kept(&self) -> &VecDeque<Text>
        ensures { result.now.items ≡ self.now.kept }
    {
        &self.lines
    }
}
