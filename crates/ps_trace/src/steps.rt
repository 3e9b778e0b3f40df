//! The steps of a witness.
ghost use Rattle.std.specs.Prelude.{◌≡◌, ◌<◌, ◌≤◌, ◌+◌, ◌++◌, [], ◌∷◌, IfOk, OnErr, OnOk, Some, length, option_map, slice_get, slice_index, slice_range};
ghost use Rattle.ps_trace.specs.inner.Columns.{AreEnds};

use crate::step::Step;
use std::alloc::{AllocError, Global};
use std::marker::Model;

/// Steps in their order, which contracts see as a list of them. A step takes 8 bytes, and 16 for each of its choices; the room that
/// is kept for more is at most as much again.
#[derive(Debug, Drop)]
pub struct Steps {
    threads: Vec<u32>,
    // Where the choices of each step end among all choices; they begin where those of the step before end.
    ends: Vec<u32>,
    choices: Vec<i128>,
}

impl Model for Steps {
    ghost use Rattle.std.specs.Prelude.{List};
    ghost use Rattle.ps_trace.specs.declared.step.Step.{Step};
    ghost use Rattle.ps_trace.specs.inner.Columns.{AreColumns, steps_from};

    ghost Value = { List Step };

    ghost view = { λ s. steps_from 0 s.threads.items s.ends.items s.choices.items };

    ghost invariant = { λ s. AreColumns s.threads.items s.ends.items s.choices.items };
}

impl Steps {
    /// No steps; the call needs no memory.
    pub fn new(alloc: Global) -> Steps
        ensures { result ≡ [] }
    {
        Steps {
            threads: Vec::new(alloc),
            ends: Vec::new(alloc),
            choices: Vec::new(alloc),
        }
    }

    /// Appends a copy of the step. More than 2^32 - 1 choices in all are answered as want of memory; without memory
    /// nothing changes.
    pub fn push(&mut self, step: &Step) -> Result<(), AllocError>
        ensures ok { OnOk result (self.new ≡ self.old ++ step.now ∷ []) }
        ensures err { OnErr result (self.new ≡ self.old) }
    {
        let choices = step.choices.as_slice();
        let end = end_after(self.choices.len(), choices.len())?;
        self.threads.reserve(1)?;
        self.ends.reserve(1)?;
        self.choices.extend_from_slice(choices)?;
        self.threads.push_reserved(step.thread);
        self.ends.push_reserved(end);
        Ok(())
    }

    pub fn len(&self) -> usize
        ensures { result ≡ length self.now }
    {
        self.threads.len()
    }

    /// The thread of the step.
    pub fn thread(&self, n: usize) -> u32
        requires { n < length self.now }
        ensures { option_map (λ s. s.thread) (slice_get self.now n) ≡ Some result }
    {
        self.threads[n]
    }

    /// The choices of the step; the call needs no memory.
    pub fn choices(&self, n: usize) -> &[i128]
        requires { n < length self.now }
        ensures { option_map (λ s. s.choices) (slice_get self.now n) ≡ Some result.now }
    {
        choices_of(self.ends.as_slice(), self.choices.as_slice(), n)
    }

    /// A copy, in time and memory of the steps and their choices.
    pub fn copy(&self, alloc: Global) -> Result<Steps, AllocError>
        ensures { IfOk result (λ steps. steps ≡ self.now) }
    {
        Ok(Steps {
            threads: self.threads.to_vec(alloc)?,
            ends: self.ends.to_vec(alloc)?,
            choices: self.choices.to_vec(alloc)?,
        })
    }
}

// The end of so many choices that begin at `start`.
fn end_after(start: usize, count: usize) -> Result<u32, AllocError>
    ensures { IfOk result (λ end. end ≡ start + count) }
{
    let end = start.checked_add(count).ok_or(AllocError)?;
    u32::try_from(end).map_err(|_| AllocError)
}

// The choices of the step.
fn choices_of<'a>(ends: &[u32], choices: &'a [i128], n: usize) -> &'a [i128]
    requires within { n < length ends.now }
    requires ends { AreEnds 0 ends.now (length choices.now) }
    ensures { result.now
        ≡ slice_range choices.now (slice_index (0 ∷ ends.now) n) (slice_index ends.now n) }
{
    choices_between(choices, start_of(ends, n), ends[n])
}

fn choices_between(choices: &[i128], start: u32, end: u32) -> &[i128]
    requires ordered { start ≤ end }
    requires within { end ≤ length choices.now }
    ensures { result.now ≡ slice_range choices.now start end }
{
    &choices[start as usize..end as usize]
}

// Where the choices of the step begin.
fn start_of(ends: &[u32], n: usize) -> u32
    requires { n < length ends.now }
    ensures { result ≡ slice_index (0 ∷ ends.now) n }
{
    if n == 0 { 0 } else { ends[n - 1] }
}
