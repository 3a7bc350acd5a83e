ghost use Rattle.std.specs.Prelude.{◌≡◌, IfOk};
ghost use Rattle.cmd_table.specs.Options.{word_at, excludes_at, has_bit, exclude, partner_of, first_excluding, first_alone, first_missing, is_given, is_required, excluded_pair, excluded_free, missing_of, fault_among};
ghost use Rattle.cmd_table.specs.Steps.{Finds};

use crate::{Given, Opt, OptFault};
use outside::Text;
use std::alloc::{AllocError, Global};

// Whether what is given in all is wrong: two options, or else an option and a free word, exclude each
// other, or something is missing.
pub fn check(
    alloc: Global,
    opts: &[Opt],
    least: u32,
    alone: u32,
    free: &[u8],
    given: &Given,
) -> Result<(), OptFault>
    ensures { Finds (fault_among opts.now least alone free.now given.now) result }
{
    check_pairs(alloc, opts, given)?;
    check_free(alloc, opts, alone, given)?;
    check_missing(alloc, opts, least, free, given)
}

fn check_pairs(alloc: Global, opts: &[Opt], given: &Given) -> Result<(), OptFault>
    ensures { Finds (excluded_pair opts.now given.now) result }
{
    match first_excluding(opts, given) {
        Some(i) => match partner_of(opts, given, i) {
            Some(j) => Err(OptFault::Excluded(word_at(alloc, opts, i)?, word_at(alloc, opts, j)?)),
            None => Ok(()),
        },
        None => Ok(()),
    }
}

fn check_free(alloc: Global, opts: &[Opt], alone: u32, given: &Given) -> Result<(), OptFault>
    ensures { Finds (excluded_free opts.now alone given.now) result }
{
    match given.rest.as_slice().first() {
        Some(word) => match first_alone(opts, alone, given) {
            Some(i) => Err(OptFault::Excluded(word_at(alloc, opts, i)?, word.copy(alloc)?)),
            None => Ok(()),
        },
        None => Ok(()),
    }
}

fn check_missing(
    alloc: Global,
    opts: &[Opt],
    least: u32,
    free: &[u8],
    given: &Given,
) -> Result<(), OptFault>
    ensures { Finds (missing_of opts.now least free.now given.now) result }
{
    match first_missing(opts, given) {
        Some(i) => Err(OptFault::Required(word_at(alloc, opts, i)?)),
        None => {
            if given.rest.len() < least as usize {
                return Err(OptFault::Required(Text::from_slice(alloc, free)?));
            }
            Ok(())
        }
    }
}

// The word of an option.
fn word_at(alloc: Global, opts: &[Opt], place: usize) -> Result<Text, AllocError>
    ensures { IfOk result (λ word. word ≡ word_at opts.now place) }
{
    match opts.get(place) {
        Some(opt) => Text::from_slice(alloc, opt.word.text()),
        None => Ok(Text::new(alloc)),
    }
}

// The first option after option `i` that is given and that excludes it or is excluded by it, where `i`
// is given.
fn partner_of(opts: &[Opt], given: &Given, i: usize) -> Option<usize>
    ensures { result ≡ partner_of opts.now given.now i }
{
    (0..opts.len()).find(|j| is_given(given, i)
        && i < *j
        && is_given(given, *j)
        && exclude(opts, i, *j))
}

// The first option that is given beside one that it excludes.
fn first_excluding(opts: &[Opt], given: &Given) -> Option<usize>
    ensures { result ≡ first_excluding opts.now given.now }
{
    (0..opts.len()).find(|i| partner_of(opts, given, *i).is_some())
}

// The first option that is given and beside which no free word may stand.
fn first_alone(opts: &[Opt], alone: u32, given: &Given) -> Option<usize>
    ensures { result ≡ first_alone opts.now alone given.now }
{
    (0..opts.len()).find(|i| is_given(given, *i) && has_bit(alone, *i))
}

// The first option that must be given and is not.
fn first_missing(opts: &[Opt], given: &Given) -> Option<usize>
    ensures { result ≡ first_missing opts.now given.now }
{
    (0..opts.len()).find(|i| is_required(opts, *i) && !is_given(given, *i))
}

// Whether the option at a place is given.
pub fn is_given(given: &Given, place: usize) -> bool
    ensures { result ≡ is_given given.now place }
{
    given.values.get(place).is_some()
}

fn is_required(opts: &[Opt], place: usize) -> bool
    ensures { result ≡ is_required opts.now place }
{
    match opts.get(place) {
        Some(opt) => opt.required,
        None => false,
    }
}

// Whether one of two options excludes the other.
fn exclude(opts: &[Opt], i: usize, j: usize) -> bool
    ensures { result ≡ exclude opts.now i j }
{
    has_bit(excludes_at(opts, i), j) || has_bit(excludes_at(opts, j), i)
}

fn excludes_at(opts: &[Opt], place: usize) -> u32
    ensures { result ≡ excludes_at opts.now place }
{
    match opts.get(place) {
        Some(opt) => opt.excludes,
        None => 0,
    }
}

fn has_bit(mask: u32, place: usize) -> bool
    ensures { result ≡ has_bit mask place }
{
    place < 32 && (mask >> place) % 2 == 1
}
