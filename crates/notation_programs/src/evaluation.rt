//! Values that are computed during expansion, with the arithmetic of the process language.

use crate::environment::Environment;
use dbg_base::Operator;
use notation_tree::arithmetic::{ConstantValue, calculated, negated};
use notation_tree::fault::{Expanding, ExpansionStop, Problem};
use notation_tree::syntax::{Binder, Each, Expression, FormNode, Link, place};

// A number that is an operand.
fn number_of(value: ConstantValue, at: usize) -> Expanding<i64> {
    match value {
        ConstantValue::Number(number) => Ok(number),
        ConstantValue::Truth(_) => Err(ExpansionStop::Bad(Problem::NumberExpected, at)),
    }
}

// A truth value that is an operand.
fn truth_of(value: ConstantValue, at: usize) -> Expanding<bool> {
    match value {
        ConstantValue::Truth(truth) => Ok(truth),
        ConstantValue::Number(_) => Err(ExpansionStop::Bad(Problem::TruthExpected, at)),
    }
}

// What two numbers give; the operator is at this offset.
fn calculate(operator: Operator, x: i64, y: i64, at: usize) -> Expanding<ConstantValue> {
    if let Some(value) = calculated(operator, x, y) {
        return Ok(value);
    }
    let problem = match operator {
        Operator::Divide | Operator::Remainder if y == 0 => Problem::DivisionByZero,
        Operator::And | Operator::Or => Problem::TruthExpected,
        _ => Problem::Overflow,
    };
    Err(ExpansionStop::Bad(problem, at))
}

impl<'a> Environment<'a> {
    /// The value of an expression, where so many levels are left.
    #[cycle(evaluation)]
    pub(crate) fn value(
        &mut self,
        expression: &'a Expression,
        depth: u32,
    ) -> Expanding<ConstantValue> {
        let inner = self.step(depth, place(expression))?;
        match expression {
            Expression::Number(_, number) => Ok(ConstantValue::Number(*number)),
            Expression::Truth(_, truth) => Ok(ConstantValue::Truth(*truth)),
            Expression::Constant(at, number) => self.constant(*number, *at),
            Expression::Member(_, number) => Ok(ConstantValue::Number(self.member(*number))),
            Expression::Parameter(at, number) => {
                let argument = self.argument(*number, *at)?;
                self.value(argument, inner)
            }
            Expression::Name(reference) => {
                Err(ExpansionStop::Bad(Problem::VariableComputed, reference.at))
            }
            Expression::Count(at, _, _) => Err(ExpansionStop::Bad(Problem::CountComputed, *at)),
            Expression::Call(at, number, arguments) => {
                let body = self.begin_call(*number, *at, arguments.as_slice())?;
                let value = self.value(body, inner)?;
                self.end_call();
                Ok(value)
            }
            Expression::Not(_, operand) => {
                Ok(ConstantValue::Truth(!self.truth(operand, inner)?))
            }
            Expression::Negate(at, operand) => {
                let number = self.number(operand, inner)?;
                negated(number).ok_or(ExpansionStop::Bad(Problem::Overflow, *at))
            }
            Expression::Chain(_, first, links) => self.chain(first, links.as_slice(), inner),
            Expression::Each(each) => self.each(each, inner),
        }
    }

    /// The number that an expression gives.
    #[cycle(evaluation)]
    pub fn number(&mut self, expression: &'a Expression, depth: u32) -> Expanding<i64> {
        let value = self.value(expression, depth)?;
        number_of(value, place(expression))
    }

    /// The truth value that an expression gives.
    #[cycle(evaluation)]
    pub(crate) fn truth(&mut self, expression: &'a Expression, depth: u32) -> Expanding<bool> {
        let value = self.value(expression, depth)?;
        truth_of(value, place(expression))
    }

    // What an operator gives: `and` and `or` compute their right operand only where the left one does not decide.
    #[cycle(evaluation)]
    fn link(
        &mut self,
        left: ConstantValue,
        at: usize,
        link: &'a Link,
        depth: u32,
    ) -> Expanding<ConstantValue> {
        if matches!(link.operator, Operator::And | Operator::Or) {
            let decided = matches!(link.operator, Operator::Or);
            if truth_of(left, at)? == decided {
                return Ok(left);
            }
            return Ok(ConstantValue::Truth(self.truth(&link.operand, depth)?));
        }
        let x = number_of(left, at)?;
        let y = self.number(&link.operand, depth)?;
        calculate(link.operator, x, y, link.at)
    }

    // The value of operands with operators between them, from left to right.
    #[cycle(evaluation)]
    fn chain(
        &mut self,
        first: &'a Expression,
        links: &'a [Link],
        depth: u32,
    ) -> Expanding<ConstantValue> {
        let at = place(first);
        let mut value = self.value(first, depth)?;
        for link in links {
            value = self.link(value, at, link, depth)?;
        }
        Ok(value)
    }

    // Whether the condition of a range holds.
    #[cycle(evaluation)]
    fn holds(&mut self, binder: &'a Binder, depth: u32) -> Expanding<bool> {
        match &binder.condition {
            Some(condition) => self.truth(condition, depth),
            None => Ok(true),
        }
    }

    /// The members of a range for which its condition holds, in order, or so many of them as are wanted at most.
    #[cycle(evaluation)]
    pub(crate) fn range(
        &mut self,
        binder: &'a Binder,
        depth: u32,
        most: usize,
    ) -> Expanding<Vec<i64>> {
        let low = self.number(&binder.low, depth)?;
        let high = self.number(&binder.high, depth)?;
        let mut members = Vec::new(self.alloc);
        let mut next = Some(low);
        for _ in 0..u64::MAX {
            let Some(value) = next else {
                break;
            };
            if value > high || members.len() >= most {
                break;
            }
            let inner = self.step(depth, binder.at)?;
            let before = self.enter(binder.member, value)?;
            if self.holds(binder, inner)? {
                members.push(value)?;
            }
            self.leave(before);
            next = value.checked_add(1);
        }
        Ok(members)
    }

    // The value of the expression for one member.
    #[cycle(evaluation)]
    fn at_member(&mut self, each: &'a Each, member: i64, depth: u32) -> Expanding<ConstantValue> {
        let before = self.enter(each.binder.member, member)?;
        let value = self.value(&each.body, depth)?;
        self.leave(before);
        Ok(value)
    }

    // The sum over these members, the first half and the rest.
    #[cycle(evaluation)]
    fn sum(&mut self, each: &'a Each, members: &[i64], depth: u32) -> Expanding<ConstantValue> {
        match members {
            [] => return Ok(ConstantValue::Number(0)),
            [only] => return self.at_member(each, *only, depth),
            _ => {}
        }
        let inner = self.step(depth, each.at)?;
        let (prefix, rest) = halves(members);
        let x = number_of(self.sum(each, prefix, inner)?, place(&each.body))?;
        let y = number_of(self.sum(each, rest, inner)?, place(&each.body))?;
        calculate(Operator::Add, x, y, each.at)
    }

    // Whether so many of these members have a true expression.
    #[cycle(evaluation)]
    fn at_least(
        &mut self,
        each: &'a Each,
        least: i64,
        members: &[i64],
        depth: u32,
    ) -> Expanding<bool> {
        let mut missing = least;
        for (i, member) in members.iter().enumerate() {
            if missing <= 0 || missing > count_of(members.len().saturating_sub(i)) {
                break;
            }
            let value = self.at_member(each, *member, depth)?;
            if truth_of(value, place(&each.body))? {
                missing = missing.saturating_sub(1);
            }
        }
        Ok(missing <= 0)
    }

    // The value of a form.
    #[cycle(evaluation)]
    fn each(&mut self, each: &'a Each, depth: u32) -> Expanding<ConstantValue> {
        let inner = self.step(depth, each.at)?;
        let least = self.least(each, inner)?;
        let members = self.range(&each.binder, inner, usize::MAX)?;
        let wanted = match each.form {
            FormNode::Sum => return self.sum(each, members.as_slice(), inner),
            FormNode::All => count_of(members.len()),
            FormNode::Some => 1,
            FormNode::AtLeast => least,
        };
        let enough = self.at_least(each, wanted, members.as_slice(), inner)?;
        Ok(ConstantValue::Truth(enough))
    }

    /// The number of `at_least`, and 0 for other forms.
    #[cycle(evaluation)]
    pub(crate) fn least(&mut self, each: &'a Each, depth: u32) -> Expanding<i64> {
        match &each.least {
            Some(least) => self.number(least, depth),
            None => Ok(0),
        }
    }
}

/// How many there are.
pub(crate) fn count_of(length: usize) -> i64 {
    i64::try_from(length).unwrap_or(i64::MAX)
}

/// The first half of these, rounded up, and the rest.
pub(crate) fn halves(members: &[i64]) -> (&[i64], &[i64]) {
    members.split_at(members.len() - members.len() / 2)
}
