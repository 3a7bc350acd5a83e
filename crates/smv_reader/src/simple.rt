ghost use Rattle.std.specs.Prelude.{◌≡◌, ◌≤◌, ◌∷◌, [], IfOk, false, length, max};
ghost use Rattle.smv_tree.specs.Trees.{expr_tree, two};
ghost use Rattle.smv_reader.specs.Halts.{Halts, Reads};
ghost use Rattle.smv_rules.specs.Expressions.{bracketed, constant, deeper, last_semicolon, more_names, primary_from, range_from, selecting};
ghost use Rattle.smv_rules.specs.Keys.{below, digits, operand, path};
ghost use Rattle.smv_rules.specs.Rules.{bits, must, part, too_deep};
ghost use Rattle.smv_rules.specs.Running.{run};
ghost use Rattle.smv_rules.specs.Sorts.{an_expression};
ghost use Rattle.smv_reader.specs.Turns.{seen_rest, turn};
ghost use Rattle.smv_reader.specs.Views.{expression_of, found};

use crate::halt::Halt;
use crate::opening::begins_operand;
use crate::parsed::Parsed;
use crate::reader::{Reader, begins_with};
use smv_grammar::{DEEPEST, capped, integer};
use smv_token::{Lexeme, Mark, Token};
use smv_tree::{Expr, Name, Op2, Path, Place};
use std::alloc::AllocError;

impl Parsed {
    /// What has no parts.
    pub fn single(expr: Expr) -> Parsed
        ensures { expression_of result ≡ record { tree = expr_tree expr; depth = 1; bare = false } }
    {
        Parsed {
            expr,
            depth: 1,
            bare: false,
        }
    }
}

impl Reader {
    /// An expression one deeper than its deepest part, if it may be so deep.
    #[tactic(auto, unfolding(smv_rules::specs::Running::run))]
    pub fn deeper(self, expr: Expr, depth: u32, rest: &[Token]) -> Result<(Parsed, &[Token]), Halt>
        ensures { Reads found result (run self.room (deeper (expr_tree expr) depth) rest.now) }
    {
        if depth < DEEPEST {
            let depth = depth + 1;
            let bare = false;
            Ok((Parsed { expr, depth, bare }, rest))
        } else {
            Err(Halt::Deep(rest.len()))
        }
    }

    /// An expression in brackets, behind them. They add nothing to a range that stands alone.
    #[tactic(auto, unfolding(smv_rules::specs::Running::run))]
    pub fn bracketed(self, held: Parsed, rest: &[Token]) -> Result<(Parsed, &[Token]), Halt>
        ensures { Reads found result (run self.room (bracketed (expression_of held)) rest.now) }
    {
        if held.bare {
            let (expr, depth) = (held.expr, held.depth);
            let bare = false;
            return Ok((Parsed { expr, depth, bare }, rest));
        }
        self.deeper(held.expr, held.depth, rest)
    }

    /// One more name behind a dot, if a dot stands there.
    #[tactic(auto, unfolding(smv_rules::specs::Running::run, smv_rules::specs::Keys::sees, crate::specs::Turns::turn))]
    fn next_name<'a>(
        self,
        names: &mut Vec<Name>,
        tokens: &'a [Token],
    ) -> Result<Option<&'a [Token]>, Halt>
        ensures { Reads (λ x. (names.new.items, seen_rest x)) result (turn self.room (more_names names.old.items) tokens.now) }
    {
        let (dot, rest) = self.eat(Mark::Dot, tokens)?;
        if !dot {
            return Ok(None);
        }
        let (name, _, rest) = self.name(rest)?;
        names.push(name)?;
        Ok(Some(rest))
    }

    /// Further names of a path, each behind a dot.
    #[tactic(auto, using(crate::proofs::Loops::loop_stops, crate::proofs::Loops::loop_goes, crate::proofs::Loops::loop_less))]
    fn more_names(self, before: Vec<Name>, tokens: &[Token]) -> Result<(Vec<Name>, &[Token]), Halt>
        ensures { Reads (λ x. (x.0.items, x.1.now)) result (run self.room (more_names before.items) tokens.now) }
    {
        let (mut names, mut rest) = (before, tokens);
        'names: while let Some(behind) = self.next_name(&mut names, rest)? {
            rest = behind;
        }
        Ok((names, rest))
    }

    /// A list of one name.
    fn one_name(self, name: &[u8]) -> Result<Vec<Name>, AllocError>
        requires { (1 ≤ length name.now) × (length name.now ≤ 255) }
        ensures { IfOk result (λ v. v.items ≡ name.now ∷ []) }
    {
        let mut names = Vec::new(self.alloc);
        names.push(Name::from_vec(Vec::from_slice(self.alloc, name)?))?;
        Ok(names)
    }

    /// A path, behind its first name.
    #[tactic(auto, unfolding(smv_rules::specs::Running::run))]
    #[inline(never)]
    pub fn path<'a>(
        self,
        place: Place,
        first: &[u8],
        tokens: &'a [Token],
    ) -> Result<(Parsed, &'a [Token]), Halt>
        requires { (1 ≤ length first.now) × (length first.now ≤ 255) }
        ensures { Reads found result (run self.room (primary_from (path first.now) place) tokens.now) }
    {
        let names = self.one_name(first)?;
        let (names, rest) = self.more_names(names, tokens)?;
        let expr = Expr::Name(place, Path::from_vec(names));
        Ok((Parsed::single(expr), rest))
    }

    /// The upper end of a range, behind the `..`.
    #[tactic(auto, unfolding(smv_rules::specs::Running::run))]
    fn range_from(
        self,
        place: Place,
        minus: bool,
        low: u64,
        tokens: &[Token],
    ) -> Result<(Parsed, &[Token]), Halt>
        ensures { Reads found result (run self.room (range_from place minus low) tokens.now) }
    {
        let (high, rest) = self.integer(tokens)?;
        let expr = Expr::Span(place, integer(minus, low), high);
        let (depth, bare) = (2, true);
        Ok((Parsed { expr, depth, bare }, rest))
    }

    /// A number, or a range from it, behind the number.
    #[tactic(auto, unfolding(smv_rules::specs::Running::run, smv_rules::specs::Keys::sees))]
    #[inline(never)]
    pub fn digits(
        self,
        place: Place,
        value: u64,
        tokens: &[Token],
    ) -> Result<(Parsed, &[Token]), Halt>
        ensures { Reads found result (run self.room (primary_from (digits value) place) tokens.now) }
    {
        let (dots, rest) = self.eat(Mark::Dots, tokens)?;
        if dots {
            return self.range_from(place, false, value, rest);
        }
        Ok((Parsed::single(Expr::Number(place, value)), rest))
    }

    /// A range from a number below zero, behind its `-`.
    #[tactic(auto, unfolding(smv_rules::specs::Running::run))]
    #[inline(never)]
    pub fn below(self, place: Place, tokens: &[Token]) -> Result<(Parsed, &[Token]), Halt>
        ensures { Reads found result (run self.room (primary_from below place) tokens.now) }
    {
        let (low, rest) = self.number(tokens)?;
        let (_, rest) = self.expect(Mark::Dots, rest)?;
        self.range_from(place, true, low, rest)
    }

    /// Bits of an expression, behind the `[`.
    #[tactic(auto, unfolding(smv_rules::specs::Running::run))]
    pub fn selecting(
        self,
        whole: Parsed,
        place: Place,
        tokens: &[Token],
    ) -> Result<(Parsed, &[Token]), Halt>
        ensures { Reads found result (run self.room (selecting (expression_of whole) place) tokens.now) }
    {
        let (high, rest) = self.number(tokens)?;
        let (_, rest) = self.expect(Mark::Colon, rest)?;
        let (low, rest) = self.number(rest)?;
        let (_, rest) = self.expect(Mark::CloseSquare, rest)?;
        let depth = whole.depth;
        let whole = Box::new(self.alloc, whole.expr)?;
        self.deeper(
            Expr::Select(place, whole, capped(high), capped(low)),
            depth,
            rest,
        )
    }

    /// A number as a word of a width, behind the word that says whether it is signed.
    #[tactic(auto, unfolding(smv_rules::specs::Running::run))]
    #[inline(never)]
    pub fn constant(
        self,
        place: Place,
        signed: bool,
        tokens: &[Token],
    ) -> Result<(Parsed, &[Token]), Halt>
        ensures { Reads found result (run self.room (constant place signed) tokens.now) }
    {
        let (_, rest) = self.expect(Mark::OpenRound, tokens)?;
        let (value, rest) = self.integer(rest)?;
        let (_, rest) = self.expect(Mark::Comma, rest)?;
        let (width, rest) = self.number(rest)?;
        let (_, rest) = self.expect(Mark::CloseRound, rest)?;
        self.deeper(Expr::Const(place, signed, value, capped(width)), 1, rest)
    }

    /// Two operands and the operator between them.
    #[inline(never)]
    pub fn joined(
        self,
        left: Parsed,
        op: Op2,
        place: Place,
        right: Parsed,
        rest: &[Token],
    ) -> Result<(Parsed, &[Token]), Halt>
        ensures { Reads found result (run self.room (deeper (two place op (expr_tree left.expr) (expr_tree right.expr)) (max left.depth right.depth)) rest.now) }
    {
        let depth = left.depth.max(right.depth);
        let left = Box::new(self.alloc, left.expr)?;
        let right = Box::new(self.alloc, right.expr)?;
        self.deeper(Expr::Two(place, op, left, right), depth, rest)
    }

    /// Bits of an expression, behind the `[`, where there is room for one more nesting.
    #[tactic(auto, using(crate::proofs::Parts::part_inner), unfolding(smv_rules::specs::Running::run, smv_rules::specs::Table::table))]
    #[inline(never)]
    pub fn selected(
        self,
        whole: Parsed,
        place: Place,
        tokens: &[Token],
    ) -> Result<(Parsed, &[Token]), Halt>
        ensures { Reads found result (run self.room (part an_expression (bits (expression_of whole) place) (too_deep an_expression)) tokens.now) }
    {
        if self.room < 1 {
            return Err(Halt::Deep(tokens.len()));
        }
        let room = self.room - 1;
        let inner = Reader {
            alloc: self.alloc,
            room,
        };
        inner.selecting(whole, place, tokens)
    }

    /// Where a part that is open from its own first token has no room.
    #[tactic(auto, unfolding(smv_rules::specs::Running::run, smv_rules::specs::Keys::sees))]
    pub fn side_too_deep(self, tokens: &[Token]) -> Halt
        ensures { Halts result (run 0 (must an_expression operand (λ p. too_deep an_expression)) tokens.now) }
    {
        let [first, rest @ ..] = tokens else {
            return Halt::Wrong(0);
        };
        if begins_operand(&first.lexeme) {
            Halt::Deep(rest.len())
        } else {
            Halt::Wrong(tokens.len())
        }
    }

    /// The `;` before the end of a case.
    #[tactic(auto, unfolding(smv_rules::specs::Running::run, smv_rules::specs::Keys::sees, smv_grammar::specs::IsMark::same_mark))]
    pub fn last_semicolon(self, tokens: &[Token]) -> Result<(Place, &[Token]), Halt>
        ensures { Reads (λ x. (x.0, x.1.now)) result (run self.room last_semicolon tokens.now) }
    {
        let [first, rest @ ..] = tokens else {
            return Err(Halt::Wrong(0));
        };
        if !begins_with(Mark::Esac, rest) {
            return Err(Halt::Wrong(tokens.len()));
        }
        match first.lexeme {
            Lexeme::Mark(found) if Mark::Semicolon == found => Ok((first.place, rest)),
            _ => Err(Halt::Wrong(tokens.len())),
        }
    }
}
