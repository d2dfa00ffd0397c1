//! What the steps of a command may run.

ghost use Rattle.std.specs.Prelude.{◌≡◌, true, [], IfOk, OnOk};
ghost use Rattle.plan_idle.specs.Gathered.{at_and, at_both, at_or, top_gathered, weighed, weighed_all, weighed_one, weighed_three, weighed_two};

use crate::answer::Look;
use crate::gathered::{Gathered, alone, at_and, at_both, at_if, at_look, at_not, at_or};
use crate::outcomes::{known, unknown};
use crate::stack::Stack;
use plan_shell::Step;
use std::alloc::{AllocError, Global};

/// Returns what the steps of a command may run.
///
/// # Errors
///
/// `AllocError` if an allocation fails.
pub(crate) fn gathered_of<L: Look>(
    alloc: Global,
    steps: &[Step],
    looks: &L,
) -> Result<Gathered, AllocError>
    ensures { L.is_known ≡ true → IfOk result (λ gathered.
        gathered ≡ top_gathered (weighed_all (L.looks looks.now) steps.now [])) }
{
    let mut stack = Stack::new(alloc);
    for step in steps {
        weigh(alloc, step, looks, &mut stack)?;
    }
    match stack.pop() {
        Some(gathered) => Ok(gathered),
        None => Ok(alone(alloc, known(true, None))),
    }
}

// Takes what the parts of a step may run, and adds what it may run.
fn weigh<L: Look>(
    alloc: Global,
    step: &Step,
    looks: &L,
    stack: &mut Stack,
) -> Result<(), AllocError>
    ensures { L.is_known ≡ true → OnOk result (stack.new ≡ weighed (L.looks looks.now) step.now stack.old) }
{
    match step {
        Step::Look(property, subject) => {
            let answer = looks.look(alloc, *property, subject.as_str())?;
            stack.push(at_look(alloc, *property, subject.as_str(), answer)?)
        }
        Step::Known(value) => stack.push(alone(alloc, known(*value, None))),
        Step::Effect => stack.push(alone(alloc, unknown(true))),
        Step::Not => weigh_not(stack),
        Step::Both => weigh_both(stack),
        Step::And => weigh_and(stack),
        Step::Or => weigh_or(stack),
        Step::If => weigh_if(stack),
    }
}

fn weigh_not(stack: &mut Stack) -> Result<(), AllocError>
    ensures { OnOk result (stack.new ≡ weighed_one stack.old) }
{
    let Some(a) = stack.pop() else {
        return Ok(());
    };
    stack.push(at_not(a))
}

fn weigh_both(stack: &mut Stack) -> Result<(), AllocError>
    ensures { OnOk result (stack.new ≡ weighed_two at_both stack.old) }
{
    let Some(b) = stack.pop() else {
        return Ok(());
    };
    let Some(a) = stack.pop() else {
        return Ok(());
    };
    stack.push(at_both(a, b)?)
}

fn weigh_and(stack: &mut Stack) -> Result<(), AllocError>
    ensures { OnOk result (stack.new ≡ weighed_two at_and stack.old) }
{
    let Some(b) = stack.pop() else {
        return Ok(());
    };
    let Some(a) = stack.pop() else {
        return Ok(());
    };
    stack.push(at_and(a, b)?)
}

fn weigh_or(stack: &mut Stack) -> Result<(), AllocError>
    ensures { OnOk result (stack.new ≡ weighed_two at_or stack.old) }
{
    let Some(b) = stack.pop() else {
        return Ok(());
    };
    let Some(a) = stack.pop() else {
        return Ok(());
    };
    stack.push(at_or(a, b)?)
}

fn weigh_if(stack: &mut Stack) -> Result<(), AllocError>
    ensures { OnOk result (stack.new ≡ weighed_three stack.old) }
{
    let Some(c) = stack.pop() else {
        return Ok(());
    };
    let Some(b) = stack.pop() else {
        return Ok(());
    };
    let Some(a) = stack.pop() else {
        return Ok(());
    };
    stack.push(at_if(a, b, c)?)
}
