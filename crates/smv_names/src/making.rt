//! The tables for look-ups are made.
ghost use Rattle.std.specs.Prelude.{◌≡◌, ◌<◌, ◌+◌, length, map, IfOk};
ghost use Rattle.smv_tree.specs.Trees.{expr_tree};
ghost use Rattle.smv_tree.specs.Models.{bodies};
ghost use Rattle.smv_meaning.specs.Rows.{AreRows};
ghost use Rattle.smv_modules.specs.Told.{row_of};
ghost use Rattle.smv_names.specs.Declaring.{given_target, AreGiven};
ghost use Rattle.smv_names.specs.Whole.{IsWhole};
ghost use Rattle.smv_names.specs.Ready.{IsReadyBelow, IsReady};

use crate::children::children_of;
use crate::scopes::Scopes;
use crate::{Resolver, Target, symbols_of};
use smv_modules::Instances;
use smv_tree::{Expr, Program};
use std::alloc::{AllocError, Global};

impl Resolver {
    /// What an actual parameter of an instance stands for, which stands in the instance around it.
    fn given(&self, around: usize, number: usize, parameter: usize, actual: &Expr) -> Option<Target>
        ensures { result ≡ given_target self.now around number parameter (expr_tree actual.now) }
    {
        match actual {
            Expr::Name(_, path) => self.resolve(around, path),
            _ => Some(Target::Parameter(number, parameter)),
        }
    }

    /// What the actual parameters of an instance stand for.
    fn all_given(
        &self,
        alloc: Global,
        around: usize,
        number: usize,
        actuals: &[Expr],
    ) -> Result<Vec<Option<Target>>, AllocError>
        ensures { IfOk result (λ v.
            AreGiven self.now around number (map expr_tree actuals.now) v.items) }
    {
        let mut targets = Vec::new(alloc);
        for (parameter, actual) in actuals.iter().enumerate() {
            targets.push(self.given(around, number, parameter, actual))?;
        }
        Ok(targets)
    }

    /// The tables with what the actual parameters of the instance of a number stand for.
    fn with_given(
        self,
        alloc: Global,
        p: &Program,
        instances: &Instances,
        number: usize,
    ) -> Result<Resolver, AllocError>
        requires rows { AreRows (bodies p.now) instances.now }
        requires number { number < length instances.now }
        requires ready { IsReadyBelow (bodies p.now) number self }
        ensures { IfOk result (IsReadyBelow (bodies p.now) (number + 1)) }
    {
        let instance = instances.instance(number);
        let actuals = self.scopes.actuals(p, instance);
        let targets = self.all_given(alloc, instance.parent as usize, number, actuals)?;
        let mut resolver = self;
        resolver.actuals.push(targets)?;
        Ok(resolver)
    }

    /// What the names in each instance of a program stand for.
    ///
    /// # Errors
    ///
    /// `AllocError` where memory was refused.
    pub fn of(alloc: Global, p: &Program, instances: &Instances) -> Result<Resolver, AllocError>
        requires whole { IsWhole (bodies p.now) }
        requires rows { AreRows (bodies p.now) instances.now }
        ensures { IfOk result (IsReady (bodies p.now)) }
    {
        let scopes = Scopes::of(alloc, p, instances)?;
        let children = children_of(alloc, &scopes, instances)?;
        let symbols = symbols_of(alloc, p)?;
        let mut resolver = Resolver {
            scopes,
            children,
            symbols,
            actuals: Vec::new(alloc),
        };
        for number in 0..instances.instance_count() {
            resolver = resolver.with_given(alloc, p, instances, number)?;
        }
        Ok(resolver)
    }
}
