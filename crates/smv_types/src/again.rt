//! Which assignments of a module are excluded by earlier ones.
ghost use Rattle.std.specs.Prelude.{◌≡◌, ◌||◌, false, ℕ, List, IfOk, is_some, map};
ghost use Rattle.std.specs.Map.{lookup};
ghost use Rattle.std.specs.Str.{bytes_eq};
ghost use Rattle.smv_tree.specs.Models.{part_of};
ghost use Rattle.smv_tree.specs.declared.program.Moment.{Moment};
ghost use Rattle.smv_types.specs.Assigning.{excludes_one};
ghost use Rattle.smv_types.specs.Excluded.{excluded_at, is_excluded, is_again_by, AreAgain};

use smv_graph::Numbers;
use smv_tree::{Item, Items, Moment};
use smv_typing::excludes;
use std::alloc::{AllocError, Global};

/// The names of which assignments so far exclude one more, by its moment.
#[derive(Drop)]
struct Excluded {
    first: Numbers,
    each: Numbers,
    next: Numbers,
}

/// Names with that of an item, if it is an assignment that excludes one at this moment.
fn with_excluded(
    names: Numbers,
    alloc: Global,
    moment: Moment,
    item: &Item,
    number: usize,
) -> Result<Numbers, AllocError>
    ensures { IfOk result (λ n. (m : List ℕ) → is_some (lookup (bytes_eq m) n)
        ≡ (is_some (lookup (bytes_eq m) names) || excludes_one moment m (part_of item.now))) }
{
    match item {
        Item::Assign(earlier, name, _, _) if excludes(*earlier, moment) => {
            let mut names = names;
            names.insert(alloc, name.as_slice(), number)?;
            Ok(names)
        }
        _ => Ok(names),
    }
}

impl Excluded {
    /// No names.
    fn new(alloc: Global) -> Excluded
        ensures { (moment : Moment) → (m : List ℕ) → is_excluded result moment m ≡ false }
    {
        Excluded {
            first: Numbers::new(alloc),
            each: Numbers::new(alloc),
            next: Numbers::new(alloc),
        }
    }

    /// Those of a moment.
    fn at(&self, moment: Moment) -> &Numbers
        ensures { result.now ≡ excluded_at self.now moment }
    {
        match moment {
            Moment::First => &self.first,
            Moment::Each => &self.each,
            Moment::Next => &self.next,
        }
    }

    /// The names with that of one more item.
    fn with(self, alloc: Global, item: &Item, number: usize) -> Result<Excluded, AllocError>
        ensures { IfOk result (λ e. (moment : Moment) (m : List ℕ) → is_excluded e moment m
            ≡ (is_excluded self moment m || excludes_one moment m (part_of item.now))) }
    {
        let first = with_excluded(self.first, alloc, Moment::First, item, number)?;
        let each = with_excluded(self.each, alloc, Moment::Each, item, number)?;
        let next = with_excluded(self.next, alloc, Moment::Next, item, number)?;
        Ok(Excluded { first, each, next })
    }

    /// Whether an item is an assignment that is excluded.
    fn has(&self, item: &Item) -> bool
        ensures { result ≡ is_again_by self.now (part_of item.now) }
    {
        match item {
            Item::Assign(moment, name, _, _) => self.at(*moment).get(name.as_slice()).is_some(),
            _ => false,
        }
    }
}

/// For each item whether it is an assignment that an earlier one excludes.
pub(crate) fn again_flags(alloc: Global, items: &Items) -> Result<Vec<bool>, AllocError>
    ensures { IfOk result (λ v. AreAgain (map part_of items.now.items) v.items) }
{
    let mut flags = Vec::new(alloc);
    let mut excluded = Excluded::new(alloc);
    for (number, item) in items.iter().enumerate() {
        flags.push(excluded.has(item))?;
        excluded = excluded.with(alloc, item, number)?;
    }
    Ok(flags)
}
