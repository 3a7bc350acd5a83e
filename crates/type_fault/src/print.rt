ghost use Rattle.std.specs.Prelude.{◌≡◌, ◌++◌, codes, decimal};
ghost use Rattle.std.specs.List.{flat_map};
ghost use Rattle.std.specs.Fmt.{signed_decimal};
ghost use Rattle.outside.specs.Calls.{Writes};
ghost use Rattle.type_fault.specs.Texts.{behind, between, path_text, paths_behind, paths_between, kind_text, said, placed, fault_text};

use crate::TypeFault;
use itoa::Buffer;
use outside::{Failed, Sink, put_all, put_numbered, put_parts};
use smv_kinds::TyWord;
use smv_tree::{Name, Path, Place};

/// Writes a name behind a mark.
fn put_marked<S: Sink>(out: &mut S, mark: &[u8], name: &Name) -> Result<(), Failed>
    ensures { Writes (mark.now ++ name.now) (S.told out.old) result (S.told out.new) }
{
    put_all(out, mark)?;
    put_all(out, name.as_slice())
}

/// Writes names, each behind a mark.
fn put_behind<S: Sink>(out: &mut S, mark: &[u8], names: &[Name]) -> Result<(), Failed>
    ensures { Writes (behind mark.now names.now) (S.told out.old) result (S.told out.new) }
{
    for name in names {
        put_marked(out, mark, name)?;
    }
    Ok(())
}

/// Writes names with a mark between each two.
fn put_between<S: Sink>(out: &mut S, mark: &[u8], names: &[Name]) -> Result<(), Failed>
    ensures { Writes (between mark.now names.now) (S.told out.old) result (S.told out.new) }
{
    match names {
        [first, rest @ ..] => {
            put_all(out, first.as_slice())?;
            put_behind(out, mark, rest)
        }
        [] => Ok(()),
    }
}

/// Writes a path.
fn put_path<S: Sink>(out: &mut S, path: &Path) -> Result<(), Failed>
    ensures { Writes (path_text path.now) (S.told out.old) result (S.told out.new) }
{
    put_between(out, b".", path.as_slice())
}

/// Writes a path behind an arrow.
fn put_next_path<S: Sink>(out: &mut S, path: &Path) -> Result<(), Failed>
    ensures { Writes (codes " -> " ++ path_text path.now) (S.told out.old) result (S.told out.new) }
{
    put_all(out, b" -> ")?;
    put_path(out, path)
}

/// Writes paths, each behind an arrow.
fn put_paths_behind<S: Sink>(out: &mut S, paths: &[Path]) -> Result<(), Failed>
    ensures { Writes (paths_behind paths.now) (S.told out.old) result (S.told out.new) }
{
    for path in paths {
        put_next_path(out, path)?;
    }
    Ok(())
}

/// Writes paths with an arrow between each two.
fn put_paths<S: Sink>(out: &mut S, paths: &[Path]) -> Result<(), Failed>
    ensures { Writes (paths_between paths.now) (S.told out.old) result (S.told out.new) }
{
    match paths {
        [first, rest @ ..] => {
            put_path(out, first)?;
            put_paths_behind(out, rest)
        }
        [] => Ok(()),
    }
}

/// Writes a kind.
fn put_kind<S: Sink>(out: &mut S, kind: TyWord) -> Result<(), Failed>
    ensures { Writes (kind_text kind) (S.told out.old) result (S.told out.new) }
{
    match kind {
        TyWord::Boolean => put_all(out, b"boolean"),
        TyWord::Integer => put_all(out, b"integer"),
        TyWord::Symbolic => put_all(out, b"symbolic"),
        TyWord::Mixed => put_all(out, b"mixed"),
        TyWord::Word(width) => put_numbered(out, b"word[", width as u64, b"]"),
        TyWord::Signed(width) => put_numbered(out, b"signed word[", width as u64, b"]"),
        TyWord::Instance => put_all(out, b"instance"),
        TyWord::AnyWord => put_all(out, b"word"),
    }
}

/// Writes the kind of a right operand, behind that of the left.
fn put_right<S: Sink>(out: &mut S, right: TyWord) -> Result<(), Failed>
    ensures { Writes (codes " and " ++ kind_text right) (S.told out.old) result (S.told out.new) }
{
    put_all(out, b" and ")?;
    put_kind(out, right)
}

/// Writes two kinds.
fn put_pair<S: Sink>(out: &mut S, left: TyWord, right: TyWord) -> Result<(), Failed>
    ensures { Writes
        (kind_text left ++ (codes " and " ++ kind_text right))
        (S.told out.old) result (S.told out.new) }
{
    put_kind(out, left)?;
    put_right(out, right)
}

/// Writes which two kinds operands have.
fn put_kinds<S: Sink>(out: &mut S, left: TyWord, right: TyWord) -> Result<(), Failed>
    ensures { Writes
        (codes "operand types " ++ (kind_text left ++ (codes " and " ++ kind_text right)))
        (S.told out.old) result (S.told out.new) }
{
    put_all(out, b"operand types ")?;
    put_pair(out, left, right)
}

/// Writes that a path is unknown.
fn put_unknown<S: Sink>(out: &mut S, path: &Path) -> Result<(), Failed>
    ensures { Writes
        (path_text path.now ++ codes " is unknown")
        (S.told out.old) result (S.told out.new) }
{
    put_path(out, path)?;
    put_all(out, b" is unknown")
}

/// Writes that a path is out of place.
fn put_misplaced<S: Sink>(out: &mut S, path: &Path) -> Result<(), Failed>
    ensures { Writes
        (path_text path.now ++ codes " is out of place")
        (S.told out.old) result (S.told out.new) }
{
    put_path(out, path)?;
    put_all(out, b" is out of place")
}

/// Writes which input is out of place.
fn put_input<S: Sink>(out: &mut S, path: &Path) -> Result<(), Failed>
    ensures { Writes
        (codes "input " ++ (path_text path.now ++ codes " is out of place"))
        (S.told out.old) result (S.told out.new) }
{
    put_all(out, b"input ")?;
    put_misplaced(out, path)
}

/// Writes which integer is outside 64 bits.
fn put_interval<S: Sink>(out: &mut S, end: &i128) -> Result<(), Failed>
    ensures { Writes
        (codes "integer " ++ (signed_decimal end.now ++ codes " is outside 64 bits"))
        (S.told out.old) result (S.told out.new) }
{
    let mut buffer = Buffer::new();
    let digits = buffer.format(*end).as_bytes();
    put_parts(out, &[b"integer ", digits, b" is outside 64 bits"])
}

/// Writes the modules of a cycle.
fn put_contains<S: Sink>(out: &mut S, names: &[Name]) -> Result<(), Failed>
    ensures { Writes
        (codes "module contains itself: " ++ between (codes " -> ") names.now)
        (S.told out.old) result (S.told out.new) }
{
    put_all(out, b"module contains itself: ")?;
    put_between(out, b" -> ", names)
}

/// Writes the defines of a cycle.
fn put_cycle<S: Sink>(out: &mut S, paths: &[Path]) -> Result<(), Failed>
    ensures { Writes
        (codes "defines in a cycle: " ++ paths_between paths.now)
        (S.told out.old) result (S.told out.new) }
{
    put_all(out, b"defines in a cycle: ")?;
    put_paths(out, paths)
}

/// Writes a place as line and column, if there is one.
fn put_place<S: Sink>(out: &mut S, place: Option<Place>) -> Result<(), Failed>
    ensures { Writes (placed place) (S.told out.old) result (S.told out.new) }
{
    let Some(place) = place else {
        return Ok(());
    };
    put_numbered(out, b"", place.line as u64, b":")?;
    put_numbered(out, b"", place.column as u64, b": ")
}

impl TypeFault {
    /// Writes what the fault says, without its place.
    fn put_said<S: Sink>(&self, out: &mut S) -> Result<(), Failed>
        ensures { Writes (said self.now) (S.told out.old) result (S.told out.new) }
    {
        match self {
            TypeFault::NoMain => put_all(out, b"no module main"),
            TypeFault::Twice(_, name) => put_parts(out, &[name.as_slice(), b" is declared twice"]),
            TypeFault::Unknown(_, path) => put_unknown(out, path),
            TypeFault::Arity(_) => put_all(out, b"wrong number of parameters"),
            TypeFault::Operands(_, left, right) => put_kinds(out, *left, *right),
            TypeFault::SetHere(_) => put_all(out, b"a set where one value is wanted"),
            TypeFault::NextHere(_) => put_all(out, b"next is out of place"),
            TypeFault::InputHere(_, path) => put_input(out, path),
            TypeFault::Assigned(_, name) => {
                put_parts(out, &[name.as_slice(), b" is assigned twice"])
            }
            TypeFault::FrozenAssigned(_, name) => {
                put_parts(out, &[b"frozen ", name.as_slice(), b" is assigned"])
            }
            TypeFault::Reversed(_) => put_all(out, b"reversed range"),
            TypeFault::Width(_) => put_all(out, b"width or bit number out of range"),
            TypeFault::Interval(_, end) => put_interval(out, end),
            TypeFault::Contains(_, names) => put_contains(out, names.as_slice()),
            TypeFault::DefineCycle(_, paths) => put_cycle(out, paths.as_slice()),
            TypeFault::Instances => put_all(out, b"more than 100000 instances"),
            TypeFault::Deep(_) => put_all(out, b"instances nested deeper than 64"),
            TypeFault::NoMemory(_) => put_all(out, b"out of memory"),
        }
    }

    /// Writes the place that the fault names, as line and column, and what it says to users.
    ///
    /// # Errors
    ///
    /// `Failed` after a fault of the sink; a front of the text was written then.
    pub fn print_text<S: Sink>(&self, out: &mut S) -> Result<(), Failed>
        ensures { Writes (fault_text self.now) (S.told out.old) result (S.told out.new) }
    {
        put_place(out, self.place())?;
        self.put_said(out)
    }
}
