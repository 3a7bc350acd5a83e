//! Decisions: first what is wanted, then any variable that has no value.

ghost use Rattle.std.specs.Prelude.{◌≡◌, ◌≢◌, ◌<◌, ◌≤◌, length, take, IfSome, IfNone};
ghost use Rattle.sat_log.specs.Clause.{Among};
ghost use Rattle.sat_log.specs.Clauses.{clauses};
ghost use Rattle.sat_log.specs.Checking.{IsUpTo};
ghost use Rattle.sat_trail.specs.Trail.{literals, AreAllSet};
ghost use Rattle.sat_trail.specs.Units.{AreQuiet};
ghost use Rattle.sat_core.specs.Search.{AreAmong, AskedFirst, IsDecided};

use crate::search::Search;
use sat_log::SLit;
use sat_trail::Trail;

/// What comes of looking for a decision.
#[derive(Clone, Copy, Debug)]
pub(crate) enum Decision {
    /// A literal was decided.
    Made,
    /// This wanted literal is false.
    False(SLit),
    /// All that is wanted is true, and each variable has a value.
    Complete,
}

/// The first of the wanted literals that is not true, where so many are known to be. All before it
/// are then.
fn first_open(trail: &Trail, want: &[SLit], asked: &mut usize) -> Option<SLit>
    requires exist { IsUpTo trail.now.variables want.now }
    requires true_ { AreAmong (literals trail.now.entries) (take asked.old want.now) }
    ensures true_ { AreAmong (literals trail.now.entries) (take asked.new want.now) }
    ensures wanted { IfSome result (Among want.now) }
    ensures open_ { IfSome result (λ l. ¬ Among (literals trail.now.entries) l) }
    ensures none { IfNone result (AreAmong (literals trail.now.entries) want.now) }
{
    while let Some(&literal) = want.get(*asked) {
        if !trail.is_true(literal) {
            return Some(literal);
        }
        *asked += 1;
    }
    None
}

impl Search {
    /// Decides the first wanted literal that is not true, where so many are known to be, and else a
    /// variable that has no value.
    pub(crate) fn decide(&mut self, want: &[SLit], asked: &mut usize) -> Decision
        requires exist { IsUpTo self.old.variables want.now }
        requires quiet { AreQuiet (literals self.old.entries) (clauses self.old.log) }
        requires asked { AskedFirst want.now self.old.entries }
        requires true_ { AreAmong (literals self.old.entries) (take asked.old want.now) }
        requires all { length self.old.entries ≤ self.old.looked }
        ensures decided { IsDecided want.now self.old.entries result }
        ensures complete { result ≡ Decision.Complete →
            AreAllSet self.old.variables (literals self.old.entries) }
        ensures longer { result ≡ Decision.Made →
            length self.old.entries < length self.new.entries }
        ensures room { result ≡ Decision.Made →
            length self.new.entries ≤ self.new.variables }
        ensures same { result ≢ Decision.Made → self.new.entries ≡ self.old.entries }
        ensures asked { AskedFirst want.now self.new.entries }
        ensures true_ { AreAmong (literals self.new.entries) (take asked.new want.now) }
        ensures attached { self.new.attached ≡ self.old.attached }
        ensures log { self.new.log ≡ self.old.log }
        ensures variables { self.new.variables ≡ self.old.variables }
    {
        match first_open(&self.trail, want, asked) {
            Some(literal) if self.trail.is_true(literal.negated()) => Decision::False(literal),
            Some(literal) => {
                self.trail.decide(literal);
                Decision::Made
            }
            None => match self.trail.unset() {
                Some(literal) => {
                    self.trail.decide(literal);
                    Decision::Made
                }
                None => Decision::Complete,
            },
        }
    }
}
