//! Expressions, read by recursive descent: a function for each level of the grammar calls that of the
//! next tighter level and goes on while an operator of its own follows.
//!
//! Descent was taken because each function then is one rule of the grammar. Its contract speaks of that
//! rule alone, both ways: what is read obeys it, and where something obeys it, it is read. A reader
//! finds the rule by its name. Climbing by precedence does all levels in one loop over a table, in fewer
//! lines, but the one contract of that loop has to speak of every level at once. A generated table of
//! states needs no stack of calls, but its states are no rules of the grammar, so neither its faults nor
//! its proof could be told in the grammar's words.
//!
//! It costs one pass with a token of look-ahead; two more behind a `[`, since `a[x : 0]` is a slice and
//! `a[x]` an element. The token behind a factor is looked at once by each level that may end there, some
//! half a dozen times. Each node is allocated once and moved up. Calls nest as deep as an expression has
//! tokens, brackets and chains of operators alike, which is why one has at most 512 of them. The price
//! is in the proof: these functions call one another, so they are proved as one cycle, the dearest single
//! part of the gate.
ghost use Rattle.std.specs.Prelude.{ℕ, List, ◌<◌, ◌≤◌, length, IfOk, IfErr, ◌≡◌};
ghost use Rattle.lola_tree.specs.Tree.{tree, parts_tree};
ghost use Rattle.lola_parse.specs.declared.symbol.Language.{Language as TheLanguage};
ghost use Rattle.lola_parse.specs.Symbols.{Item};
ghost use Rattle.lola_parse.specs.Parts.{part_tree};
ghost use Rattle.lola_parse.specs.Grammar.{Expression, Rel, Sum, Terms, Term, Factors, Factor, OnePart, MoreParts, relation_of, adding_of};
ghost use Rattle.lola_parse.specs.Design.{Outermost};
ghost use Rattle.lola_parse.specs.Behind.{ChoiceBehind, NegationBehind, NestedBehind, ShiftBehind, ConcatBehind, IndexBehind, Referred, PartRead};
ghost use Rattle.lola_parse.specs.MayEnd.{Closes};
ghost use Rattle.lola_parse.specs.Read.{Stops, IsWant, IsWhole};
ghost use Rattle.lola_parse.specs.Long.{Any, AnyChoice, AnyTerms, AnyFactors, AnyParts, FailsBy, LongFront};

use crate::cursor::Cursor;
use crate::fault::Fault;
use crate::made::{
    binary, choice_of, concat_of, index_of, not_of, number, only, part_of, whole, with_part,
};
use crate::reference::{begins_slice, bit, reference, slice, times};
use crate::symbol::{Language, Symbol};
use lola_bits::Op;
use lola_tree::{Expr, Part, Ref};
use std::alloc::Global;

/// How many tokens an outermost expression may have.
const LIMIT: usize = 512;

/// An outermost expression at the front, and what stands behind it. It has at most 512 tokens; where
/// the 513th would go on, the answer is Long. That comes only where 513 tokens stand there with which
/// some expression begins, and counts the tokens from the last of them on. Where an expression of at
/// most 512 tokens stands there and ends where no token goes on, it is the one that is answered, and no
/// fault comes but Memory.
pub fn outermost<'a>(
    alloc: Global,
    language: Language,
    here: Cursor<'a>,
) -> Result<(Expr, Cursor<'a>), Fault>
    ensures shorter { IfOk result (λ read. length read.1 < length here.entry) }
    ensures ok { IfOk result (λ read. Outermost language here.entry (tree read.0) read.1) }
    ensures whole { IsWhole tree (Outermost language here.entry) Stops result }
    ensures long { IfErr result (LongFront language here.entry) }
{
    let floor = here.left().saturating_sub(LIMIT);
    let descent = Descent {
        alloc,
        language,
        floor,
    };
    match descent.expr(here) {
        Ok((tree, behind)) => {
            if behind.left() < floor {
                Err(Fault::Long { left: floor })
            } else {
                Ok((Box::into_inner(tree), behind))
            }
        }
        Err(fault) => Err(within(floor, fault)),
    }
}

/// The fault of an outermost expression: past the limit it is that the expression is too long.
fn within(floor: usize, fault: Fault) -> Fault
    ensures wants { IsWant fault → IsWant result }
    ensures past { (l : TheLanguage) (all : List Item) → FailsBy (Any (Expression l)) floor all fault → FailsBy (Any (Expression l)) floor all result }
{
    match fault {
        Fault::Syntax { left } => {
            if left < floor {
                Fault::Long { left: floor }
            } else {
                Fault::Syntax { left }
            }
        }
        Fault::Long { left: _ } => Fault::Long { left: floor },
        Fault::Memory => Fault::Memory,
    }
}

/// The descent through one outermost expression, which must leave `floor` tokens. It looks a few
/// tokens past that bound at most, so its depth is bounded too.
#[derive(Clone, Copy)]
struct Descent {
    alloc: Global,
    language: Language,
    floor: usize,
}

impl Descent {
    /// `rel ["->" expr ":" expr]`.
    #[cycle(descent)]
    fn expr<'a>(self, here: Cursor<'a>) -> Result<(Box<Expr>, Cursor<'a>), Fault>
        ensures shorter { IfOk result (λ read. length read.1 < length here.entry) }
        ensures ok { IfOk result (λ read. Expression self.language here.entry (tree read.0.value) read.1) }
        ensures whole { IsWhole (λ b. tree b.value) (Expression self.language here.entry) (Closes 3 self.floor) result }
        ensures fails { IfErr result (FailsBy (Any (Expression self.language)) self.floor here.entry) }
    {
        let (test, behind) = self.rel(here)?;
        let next = behind.next();
        match next.symbol {
            Symbol::Arrow => self.choice(test, next.at, next.rest),
            _ => Ok((test, behind)),
        }
    }

    /// What stands behind the `->` of a choice.
    #[cycle(descent)]
    fn choice<'a>(
        self,
        test: Box<Expr>,
        at: u32,
        here: Cursor<'a>,
    ) -> Result<(Box<Expr>, Cursor<'a>), Fault>
        ensures shorter { IfOk result (λ read. length read.1 < length here.entry) }
        ensures ok { IfOk result (λ read. ChoiceBehind self.language (tree test.value) at here.entry (tree read.0.value) read.1) }
        ensures whole { IsWhole (λ b. tree b.value) (ChoiceBehind self.language (tree test.value) at here.entry) (Closes 3 self.floor) result }
        ensures fails { IfErr result (FailsBy (AnyChoice self.language) self.floor here.entry) }
    {
        let (yes, behind) = self.expr(here)?;
        let behind = behind.behind_colon()?;
        let (no, behind) = self.expr(behind)?;
        Ok((choice_of(self.alloc, test, yes, no, at)?, behind))
    }

    /// `sum [relation sum]`.
    #[cycle(descent)]
    fn rel<'a>(self, here: Cursor<'a>) -> Result<(Box<Expr>, Cursor<'a>), Fault>
        ensures shorter { IfOk result (λ read. length read.1 < length here.entry) }
        ensures ok { IfOk result (λ read. Rel self.language here.entry (tree read.0.value) read.1) }
        ensures whole { IsWhole (λ b. tree b.value) (Rel self.language here.entry) (Closes 4 self.floor) result }
        ensures fails { IfErr result (FailsBy (Any (Rel self.language)) self.floor here.entry) }
    {
        let (left, behind) = self.sum(here)?;
        let next = behind.next();
        match relation(next.symbol) {
            Some(op) => {
                let (right, behind) = self.sum(next.rest)?;
                Ok((binary(self.alloc, op, left, right, next.at)?, behind))
            }
            None => Ok((left, behind)),
        }
    }

    /// `term {adding term}`.
    #[cycle(descent)]
    fn sum<'a>(self, here: Cursor<'a>) -> Result<(Box<Expr>, Cursor<'a>), Fault>
        ensures shorter { IfOk result (λ read. length read.1 < length here.entry) }
        ensures ok { IfOk result (λ read. Sum self.language here.entry (tree read.0.value) read.1) }
        ensures whole { IsWhole (λ b. tree b.value) (Sum self.language here.entry) (Closes 5 self.floor) result }
        ensures fails { IfErr result (FailsBy (Any (Sum self.language)) self.floor here.entry) }
    {
        let (first, behind) = self.term(here)?;
        self.terms(first, behind)
    }

    /// `{adding term}` behind what is on the left.
    #[cycle(descent)]
    fn terms<'a>(self, left: Box<Expr>, here: Cursor<'a>) -> Result<(Box<Expr>, Cursor<'a>), Fault>
        ensures shorter { IfOk result (λ read. length read.1 ≤ length here.entry) }
        ensures ok { IfOk result (λ read. Terms self.language (tree left.value) here.entry (tree read.0.value) read.1) }
        ensures whole { IsWhole (λ b. tree b.value) (Terms self.language (tree left.value) here.entry) (Closes 5 self.floor) result }
        ensures fails { IfErr result (FailsBy (AnyTerms self.language) self.floor here.entry) }
    {
        let next = here.next();
        match adding(next.symbol) {
            Some(op) => {
                let (right, behind) = self.term(next.rest)?;
                let sum = binary(self.alloc, op, left, right, next.at)?;
                self.terms(sum, behind)
            }
            None => Ok((left, here)),
        }
    }

    /// `factor {"&" factor}`.
    #[cycle(descent)]
    fn term<'a>(self, here: Cursor<'a>) -> Result<(Box<Expr>, Cursor<'a>), Fault>
        ensures shorter { IfOk result (λ read. length read.1 < length here.entry) }
        ensures ok { IfOk result (λ read. Term self.language here.entry (tree read.0.value) read.1) }
        ensures whole { IsWhole (λ b. tree b.value) (Term self.language here.entry) (Closes 6 self.floor) result }
        ensures fails { IfErr result (FailsBy (Any (Term self.language)) self.floor here.entry) }
    {
        let (first, behind) = self.factor(here)?;
        self.factors(first, behind)
    }

    /// `{"&" factor}` behind what is on the left.
    #[cycle(descent)]
    fn factors<'a>(
        self,
        left: Box<Expr>,
        here: Cursor<'a>,
    ) -> Result<(Box<Expr>, Cursor<'a>), Fault>
        ensures shorter { IfOk result (λ read. length read.1 ≤ length here.entry) }
        ensures ok { IfOk result (λ read. Factors self.language (tree left.value) here.entry (tree read.0.value) read.1) }
        ensures whole { IsWhole (λ b. tree b.value) (Factors self.language (tree left.value) here.entry) (Closes 6 self.floor) result }
        ensures fails { IfErr result (FailsBy (AnyFactors self.language) self.floor here.entry) }
    {
        let next = here.next();
        match next.symbol {
            Symbol::And => {
                let (right, behind) = self.factor(next.rest)?;
                let product = binary(self.alloc, Op::And, left, right, next.at)?;
                self.factors(product, behind)
            }
            _ => Ok((left, here)),
        }
    }

    /// A factor. Each way around the cycle of calls comes by here, so the bound is checked here.
    #[cycle(descent)]
    fn factor<'a>(self, here: Cursor<'a>) -> Result<(Box<Expr>, Cursor<'a>), Fault>
        ensures shorter { IfOk result (λ read. length read.1 < length here.entry) }
        ensures ok { IfOk result (λ read. Factor self.language here.entry (tree read.0.value) read.1) }
        ensures whole { IsWhole (λ b. tree b.value) (Factor self.language here.entry) (Closes 7 self.floor) result }
        ensures fails { IfErr result (FailsBy (Any (Factor self.language)) self.floor here.entry) }
    {
        if here.left() < self.floor {
            return Err(Fault::Long { left: self.floor });
        }
        let next = here.next();
        match next.symbol {
            Symbol::Number { value, width } => Ok((
                number(self.alloc, value, width, next.at)?,
                next.rest,
            )),
            Symbol::Not => self.negation(next.at, next.rest),
            Symbol::OpenBrace => self.concat(next.at, next.rest),
            Symbol::OpenParen => self.nested(next.rest),
            Symbol::Name | Symbol::At => self.reference(here),
            Symbol::Shl => self.shift(Op::Shl, next.at, next.rest),
            Symbol::Shr => self.shift(Op::Shr, next.at, next.rest),
            Symbol::Asr => self.shift(Op::Asr, next.at, next.rest),
            Symbol::Ror => self.shift(Op::Ror, next.at, next.rest),
            _ => Err(here.fault()),
        }
    }

    /// What stands behind a `~`.
    #[cycle(descent)]
    fn negation<'a>(self, at: u32, here: Cursor<'a>) -> Result<(Box<Expr>, Cursor<'a>), Fault>
        ensures shorter { IfOk result (λ read. length read.1 < length here.entry) }
        ensures ok { IfOk result (λ read. NegationBehind self.language at here.entry (tree read.0.value) read.1) }
        ensures whole { IsWhole (λ b. tree b.value) (NegationBehind self.language at here.entry) (Closes 7 self.floor) result }
        ensures fails { IfErr result (FailsBy (Any (Factor self.language)) self.floor here.entry) }
    {
        let (arg, behind) = self.factor(here)?;
        Ok((not_of(self.alloc, arg, at)?, behind))
    }

    /// `expr ")"`, behind a `(`.
    #[cycle(descent)]
    fn nested<'a>(self, here: Cursor<'a>) -> Result<(Box<Expr>, Cursor<'a>), Fault>
        ensures shorter { IfOk result (λ read. length read.1 < length here.entry) }
        ensures ok { IfOk result (λ read. NestedBehind self.language here.entry (tree read.0.value) read.1) }
        ensures whole { IsWhole (λ b. tree b.value) (NestedBehind self.language here.entry) (λ rest. self.floor ≤ length rest) result }
        ensures fails { IfErr result (FailsBy (Any (NestedBehind self.language)) self.floor here.entry) }
    {
        let (inner, behind) = self.expr(here)?;
        Ok((inner, behind.behind_close_paren()?))
    }

    /// `"(" expr "," expr ")"`, behind the word of a shift.
    #[cycle(descent)]
    fn shift<'a>(self, op: Op, at: u32, here: Cursor<'a>) -> Result<(Box<Expr>, Cursor<'a>), Fault>
        ensures shorter { IfOk result (λ read. length read.1 < length here.entry) }
        ensures ok { IfOk result (λ read. ShiftBehind self.language op at here.entry (tree read.0.value) read.1) }
        ensures whole { IsWhole (λ b. tree b.value) (ShiftBehind self.language op at here.entry) (λ rest. self.floor ≤ length rest) result }
        ensures fails { IfErr result (FailsBy (Any (ShiftBehind self.language op at)) self.floor here.entry) }
    {
        let behind = here.behind_open_paren()?;
        let (value, behind) = self.expr(behind)?;
        let behind = behind.behind_comma()?;
        let (by, behind) = self.expr(behind)?;
        let behind = behind.behind_close_paren()?;
        Ok((binary(self.alloc, op, value, by, at)?, behind))
    }

    /// `part {"," part} "}"`, behind a `{`.
    #[cycle(descent)]
    fn concat<'a>(self, at: u32, here: Cursor<'a>) -> Result<(Box<Expr>, Cursor<'a>), Fault>
        ensures shorter { IfOk result (λ read. length read.1 < length here.entry) }
        ensures ok { IfOk result (λ read. ConcatBehind self.language at here.entry (tree read.0.value) read.1) }
        ensures whole { IsWhole (λ b. tree b.value) (ConcatBehind self.language at here.entry) (λ rest. self.floor ≤ length rest) result }
        ensures fails { IfErr result (FailsBy (Any (ConcatBehind self.language at)) self.floor here.entry) }
    {
        let (first, behind) = self.part(here)?;
        let (parts, behind) = self.parts(only(self.alloc, first)?, behind)?;
        let behind = behind.behind_close_brace()?;
        Ok((concat_of(self.alloc, parts, at)?, behind))
    }

    /// `{"," part}` behind the parts that are read.
    #[cycle(descent)]
    fn parts<'a>(self, parts: Vec<Part>, here: Cursor<'a>) -> Result<(Vec<Part>, Cursor<'a>), Fault>
        ensures shorter { IfOk result (λ read. length read.1 ≤ length here.entry) }
        ensures ok { IfOk result (λ read. MoreParts self.language (parts_tree parts.items) here.entry (parts_tree read.0.items) read.1) }
        ensures whole { IsWhole (λ v. parts_tree v.items) (MoreParts self.language (parts_tree parts.items) here.entry) (Closes 1 self.floor) result }
        ensures fails { IfErr result (FailsBy (AnyParts self.language) self.floor here.entry) }
    {
        let next = here.next();
        match next.symbol {
            Symbol::Comma => {
                let (part, behind) = self.part(next.rest)?;
                self.parts(with_part(parts, part)?, behind)
            }
            _ => Ok((parts, here)),
        }
    }

    /// `expr ["!" count]`.
    #[cycle(descent)]
    fn part<'a>(self, here: Cursor<'a>) -> Result<(Part, Cursor<'a>), Fault>
        ensures shorter { IfOk result (λ read. length read.1 < length here.entry) }
        ensures ok { IfOk result (λ read. OnePart self.language here.entry (tree read.0.value) read.0.times read.1) }
        ensures whole { IsWhole part_tree (PartRead self.language here.entry) (Closes 2 self.floor) result }
        ensures fails { IfErr result (FailsBy (Any (PartRead self.language)) self.floor here.entry) }
    {
        let at = here.at();
        let (value, behind) = self.expr(here)?;
        let (times, behind) = times(self.alloc, self.language, at, behind)?;
        Ok((part_of(value, times), behind))
    }

    /// `ref ["." count | "[" count ":" count "]" | "[" expr "]"]`.
    #[cycle(descent)]
    fn reference<'a>(self, here: Cursor<'a>) -> Result<(Box<Expr>, Cursor<'a>), Fault>
        ensures shorter { IfOk result (λ read. length read.1 < length here.entry) }
        ensures ok { IfOk result (λ read. Factor self.language here.entry (tree read.0.value) read.1) }
        ensures whole { IsWhole (λ b. tree b.value) (Referred self.language here.entry) (Closes 7 self.floor) result }
        ensures fails { IfErr result (FailsBy (Any (Factor self.language)) self.floor here.entry) }
    {
        let (of, behind) = reference(self.alloc, self.language, here)?;
        let next = behind.next();
        match next.symbol {
            Symbol::Dot => bit(self.alloc, self.language, of, next.at, next.rest),
            Symbol::OpenBracket => {
                if begins_slice(self.language, &next.rest) {
                    slice(self.alloc, self.language, of, next.at, next.rest)
                } else {
                    self.index(of, next.at, next.rest)
                }
            }
            _ => Ok((whole(self.alloc, of)?, behind)),
        }
    }

    /// `expr "]"`, behind the `[` of an index.
    #[cycle(descent)]
    fn index<'a>(self, of: Ref, at: u32, here: Cursor<'a>) -> Result<(Box<Expr>, Cursor<'a>), Fault>
        ensures shorter { IfOk result (λ read. length read.1 < length here.entry) }
        ensures ok { IfOk result (λ read. IndexBehind self.language of at here.entry (tree read.0.value) read.1) }
        ensures whole { IsWhole (λ b. tree b.value) (IndexBehind self.language of at here.entry) (λ rest. self.floor ≤ length rest) result }
        ensures fails { IfErr result (FailsBy (Any (IndexBehind self.language of at)) self.floor here.entry) }
    {
        let (place, behind) = self.expr(here)?;
        let behind = behind.behind_close_bracket()?;
        Ok((index_of(self.alloc, of, place, at)?, behind))
    }
}

/// The operator of a relation.
fn relation(symbol: Symbol) -> Option<Op>
    ensures { result ≡ relation_of symbol }
{
    match symbol {
        Symbol::Equal => Some(Op::Eq),
        Symbol::Unequal => Some(Op::Ne),
        Symbol::Less => Some(Op::Lt),
        Symbol::AtMost => Some(Op::Le),
        Symbol::Greater => Some(Op::Gt),
        Symbol::AtLeast => Some(Op::Ge),
        _ => None,
    }
}

/// The operator of a sum.
fn adding(symbol: Symbol) -> Option<Op>
    ensures { result ≡ adding_of symbol }
{
    match symbol {
        Symbol::Plus => Some(Op::Add),
        Symbol::Minus => Some(Op::Sub),
        Symbol::Or => Some(Op::Or),
        Symbol::Xor => Some(Op::Xor),
        _ => None,
    }
}
