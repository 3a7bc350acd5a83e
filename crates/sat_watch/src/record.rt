ghost use Rattle.std.specs.Prelude.{◌≡◌};
ghost use Rattle.sat_log.specs.Packing.{packed};
ghost use Rattle.sat_watch.specs.Threads.{link, relinked, exchanged};

use sat_log::SLit;

/// A literal that a clause watches, and the clause behind it among those that watch the literal.
#[derive(Clone, Copy, Debug)]
pub(crate) struct Watch {
    pub(crate) literal: SLit,
    pub(crate) next: Option<usize>,
}

/// The two watches of a clause.
#[derive(Clone, Copy, Debug)]
pub(crate) struct Record {
    pub(crate) first: Watch,
    pub(crate) second: Watch,
}

impl Record {
    /// The clause behind this one among those that watch a literal which this one watches.
    pub(crate) fn next(&self, literal: SLit) -> Option<usize>
        ensures { result ≡ link (packed literal) self.now }
    {
        if self.first.literal.index() == literal.index() {
            self.first.next
        } else {
            self.second.next
        }
    }

    /// Puts another clause behind this one among those that watch a literal which this one watches.
    pub(crate) fn relink(&mut self, literal: SLit, next: Option<usize>)
        ensures { self.new ≡ relinked (packed literal) next self.old }
    {
        if self.first.literal.index() == literal.index() {
            self.first.next = next;
        } else {
            self.second.next = next;
        }
    }

    /// Watches another literal in place of one.
    pub(crate) fn exchange(&mut self, literal: SLit, watch: Watch)
        ensures { self.new ≡ exchanged (packed literal) watch self.old }
    {
        if self.first.literal.index() == literal.index() {
            self.first = watch;
        } else {
            self.second = watch;
        }
    }
}
