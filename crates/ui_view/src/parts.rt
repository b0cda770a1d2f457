//! The parts of a condition, and which of them hold.

use crate::expressions::ProcessView;
use dbg_base::Expr;
use local_eval::{Env, guard};
use std::alloc::{AllocError, Global};
use ui_conditions::{MemberCount, family_end, family_of, part_of, put_conjuncts, put_folded};
use ui_text::{Notes, Part};

impl ProcessView<'_> {
    // Expressions as texts, each in a line.
    fn texts(&self, alloc: Global, expressions: &[&Expr]) -> Result<Notes, AllocError> {
        let mut texts = Notes::new(alloc);
        for expr in expressions {
            texts.say("")?;
            self.put_expression(&mut texts, expr)?;
        }
        Ok(texts)
    }

    /// The parts of a condition, from the left. In a model, conjuncts that differ in indices alone are one part. Error: memory ran out.
    pub fn condition_parts<'e>(
        &self,
        alloc: Global,
        env: &Env,
        expr: &'e Expr,
    ) -> Result<Vec<MemberCount<'e>>, AllocError> {
        let mut conjuncts = Vec::new(alloc);
        put_conjuncts(&mut conjuncts, expr)?;
        let texts = self.texts(alloc, conjuncts.as_slice())?;
        let mut parts = Vec::new(alloc);
        let mut from = 0usize;
        for _ in 0..conjuncts.len() {
            let Some(conjunct) = conjuncts.get(from) else {
                break;
            };
            let end = family_end(&texts, from);
            match family_of(alloc, env, conjuncts.as_slice(), from, end)? {
                Some(family) if self.text.is_model() => {
                    parts.push(family)?;
                    from = end;
                }
                _ => {
                    parts.push(part_of(alloc, env, conjunct)?)?;
                    from = from.saturating_add(1);
                }
            }
        }
        Ok(parts)
    }

    /// Appends how many members of a part hold, and how many are needed, to the last line.
    pub fn put_holding(
        &self,
        notes: &mut Notes,
        env: &Env,
        part: &MemberCount<'_>,
    ) -> Result<(), AllocError> {
        let word = if part.least == 1 { "is" } else { "are" };
        notes.add_with(
            "{} of {} hold, {} {} needed",
            &[
                Part::Count(part.holding(env)),
                Part::Count(part.members.len()),
                Part::Count(part.least),
                Part::Text(word),
            ],
        )
    }

    /// Appends members, with a range for those that differ in indices, to the last line. Returns how many members or ranges that are.
    pub fn put_members(&self, notes: &mut Notes, members: &[&Expr]) -> Result<usize, AllocError> {
        match members {
            [only] => {
                self.put_shortened(notes, only)?;
                Ok(1)
            }
            _ => {
                let texts = self.texts(notes.alloc(), members)?;
                put_folded(notes, "", &texts)
            }
        }
    }

    /// Appends the members of a part that do not hold, and the values of the names in them, to the last line.
    pub(crate) fn put_false_part(
        &self,
        notes: &mut Notes,
        env: &Env,
        part: &MemberCount<'_>,
    ) -> Result<(), AllocError> {
        let mut failing = Vec::new(notes.alloc());
        for member in &part.members {
            if guard(member, env) != Ok(true) {
                failing.push(*member)?;
            }
        }
        if part.members.len() > 1 {
            self.put_holding(notes, env, part)?;
            notes.add("; ")?;
        }
        let count = self.put_members(notes, failing.as_slice())?;
        notes.add(if count == 1 {
            " is false"
        } else {
            " are false"
        })?;
        self.put_values(notes, ": ", env, failing.as_slice())
    }
}
