ghost use Rattle.std.specs.Prelude.{◌≡◌, ◌⊎◌, length, IfOk, Result, Err, alloc_error};
ghost use Rattle.cmd_table.specs.Answers.{Answers};
ghost use Rattle.cmd_table.specs.Fitting.{AllFit};
ghost use Rattle.cmd_table.specs.Options.{Options, Reads, nothing};
ghost use Rattle.cmd_table.specs.declared.fault.OptFault.{OptFault};
ghost use Rattle.cmd_table.specs.declared.fault.OptFault.TheVariants.{NoMemory};
ghost use Rattle.cmd_table.specs.declared.given.Given.{Given};

use crate::check::check;
use crate::next::read_next;
use crate::{Given, Opt, OptFault, OptTexts, Table};
use outside::{Text, Words};
use std::alloc::Global;

/// The options and the free words of a command, by its table. The words are read from left to right.
///
/// # Errors
///
/// The first word that is wrong decides: `Unknown`, `Repeated`, `NoArgument`, `Number` or `Many`. Then
/// `Excluded` names the first two options in the table's order that exclude each other, or else the
/// first option and the first free word that may not stand beside it. Then `Required` names the first
/// option that is missing, or else the free word. `NoMemory` where memory is refused.
pub fn read_options<const N: usize>(
    alloc: Global,
    table: &Table<N>,
    words: &Words,
) -> Result<Given, OptFault>
    ensures right { Options table.now words.now result ⊎ (result ≡ Err (NoMemory alloc_error)) }
    ensures only { (answer : Result Given OptFault) → Options table.now words.now answer →
        Answers answer result }
    ensures fit { IfOk result (λ given. AllFit table.now.opts given.values) }
{
    let opts = table.opts.as_slice();
    let given = read_words(alloc, opts, table.most, table.raw, words.as_slice())?;
    check(
        alloc,
        opts,
        table.least,
        table.alone,
        table.free.text(),
        &given,
    )?;
    Ok(given)
}

// What the words give, read from left to right.
fn read_words(
    alloc: Global,
    opts: &[Opt],
    most: u32,
    raw: bool,
    words: &[Text],
) -> Result<Given, OptFault>
    ensures right { Reads opts.now most raw (nothing (length opts.now)) words.now result
        ⊎ (result ≡ Err (NoMemory alloc_error)) }
    ensures only { (end : Result Given OptFault) →
        Reads opts.now most raw (nothing (length opts.now)) words.now end → Answers end result }
{
    let mut given = Given {
        values: OptTexts::none(alloc, opts.len())?,
        rest: Words::new(alloc),
    };
    let mut at = 0;
    while at < words.len() {
        let (_, rest) = words.split_at(at + 1);
        at += 1 + read_next(alloc, opts, most, raw, &mut given, &words[at], rest)?;
    }
    Ok(given)
}
