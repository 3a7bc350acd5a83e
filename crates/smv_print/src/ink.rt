//! Single tokens, as they are printed.

ghost use Rattle.std.specs.Prelude.{◌≡◌, ◌∷◌, []};
ghost use Rattle.smv_token.specs.declared.token.Lexeme.TheVariants as lexeme;
ghost use Rattle.smv_printing.specs.Printing.{blank, dotted, integer, numeral, path, path_head, symbol, token, width, word_head};
ghost use Rattle.smv_print.specs.Written.{Prints};

use itoa::Buffer;
use outside::{Failed, Sink, put_all, put_parts};
use smv_token::Mark;
use smv_tree::{Name, WordVal};

/// Writes a blank.
#[tactic(auto, using(crate::proofs::Inks::prints_one))]
pub fn put_blank<S: Sink>(out: &mut S) -> Result<(), Failed>
    ensures { Prints (blank ∷ []) (S.told out.old) result (S.told out.new) }
{
    put_all(out, b" ")
}

/// Writes a mark.
#[tactic(auto, using(crate::proofs::Inks::prints_one))]
pub fn put_mark<S: Sink>(out: &mut S, mark: Mark) -> Result<(), Failed>
    ensures { Prints (symbol mark ∷ []) (S.told out.old) result (S.told out.new) }
{
    put_all(out, mark.text())
}

/// Writes a mark between two blanks.
pub fn put_operator<S: Sink>(out: &mut S, mark: Mark) -> Result<(), Failed>
    ensures { Prints (blank ∷ symbol mark ∷ blank ∷ []) (S.told out.old) result (S.told out.new) }
{
    put_blank(out)?;
    put_mark(out, mark)?;
    put_blank(out)
}

/// Writes a number in decimal digits.
#[tactic(auto, using(crate::proofs::Inks::prints_one))]
pub fn put_number<S: Sink>(out: &mut S, number: u64) -> Result<(), Failed>
    ensures { Prints (numeral number ∷ []) (S.told out.old) result (S.told out.new) }
{
    outside::put_number(out, number)
}

/// Writes a number behind a comma, and the bracket behind it.
pub fn put_width<S: Sink>(out: &mut S, number: u32) -> Result<(), Failed>
    ensures { Prints (width number) (S.told out.old) result (S.told out.new) }
{
    put_mark(out, Mark::Comma)?;
    put_blank(out)?;
    put_number(out, number as u64)?;
    put_mark(out, Mark::CloseRound)
}

/// Writes a number, behind a minus sign where it is below zero.
pub fn put_integer<S: Sink>(out: &mut S, number: &i64) -> Result<(), Failed>
    ensures { Prints (integer number.now) (S.told out.old) result (S.told out.new) }
{
    outside::put_integer(out, number)
}

/// What a word constant begins with.
fn word_head(signed: bool) -> &'static [u8]
    ensures { result.now ≡ word_head signed }
{
    if signed { b"0sd" } else { b"0ud" }
}

/// Writes a word constant.
#[tactic(auto, using(crate::proofs::Inks::prints_one))]
pub fn put_word<S: Sink>(out: &mut S, word: WordVal) -> Result<(), Failed>
    ensures { Prints (token (lexeme.Word word) ∷ []) (S.told out.old) result (S.told out.new) }
{
    let mut width = Buffer::new();
    let mut bits = Buffer::new();
    let width = width.format(word.width()).as_bytes();
    let bits = bits.format(word.bits()).as_bytes();
    put_parts(out, &[word_head(word.signed()), width, b"_", bits])
}

/// Writes a name.
#[tactic(auto, using(crate::proofs::Inks::prints_one))]
fn put_name<S: Sink>(out: &mut S, name: &Name) -> Result<(), Failed>
    ensures { Prints (token (lexeme.Name name.now) ∷ []) (S.told out.old) result (S.told out.new) }
{
    put_all(out, name.as_slice())
}

/// Writes what a path begins with.
#[tactic(auto, using(crate::proofs::Inks::prints_head))]
fn put_head<S: Sink>(out: &mut S, name: &Name) -> Result<(), Failed>
    ensures { Prints (token (path_head name.now) ∷ []) (S.told out.old) result (S.told out.new) }
{
    put_name(out, name)
}

/// Writes a name behind a dot.
fn put_member<S: Sink>(out: &mut S, name: &Name) -> Result<(), Failed>
    ensures { Prints (dotted (name.now ∷ [])) (S.told out.old) result (S.told out.new) }
{
    put_mark(out, Mark::Dot)?;
    put_name(out, name)
}

/// Writes names, each behind a dot.
fn put_dotted<S: Sink>(out: &mut S, names: &[Name]) -> Result<(), Failed>
    ensures { Prints (dotted names.now) (S.told out.old) result (S.told out.new) }
{
    for name in names {
        put_member(out, name)?;
    }
    Ok(())
}

/// Writes a name, and others behind dots.
fn put_first<S: Sink>(out: &mut S, first: &Name, others: &[Name]) -> Result<(), Failed>
    ensures { Prints (path (first.now ∷ others.now)) (S.told out.old) result (S.told out.new) }
{
    put_head(out, first)?;
    put_dotted(out, others)
}

/// Writes names with dots between them.
#[tactic(auto, using(crate::proofs::Inks::prints_none))]
pub fn put_path<S: Sink>(out: &mut S, names: &[Name]) -> Result<(), Failed>
    ensures { Prints (path names.now) (S.told out.old) result (S.told out.new) }
{
    match names {
        [] => Ok(()),
        [first, others @ ..] => put_first(out, first, others),
    }
}
