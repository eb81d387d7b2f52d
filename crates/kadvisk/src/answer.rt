// The answers of the layers as outcomes.
ghost use Rattle.std.specs.Prelude.{◌≡◌};
ghost use Rattle.sets.specs.Set.{size};
ghost use Rattle.sets.specs.Words.{mask};
ghost use Rattle.bounds.specs.Calls.{core_found_reply, reach_found_reply};
ghost use Rattle.largest.specs.Calls.{largest_found_reply};
ghost use Rattle.sheets.specs.Calls.{read_reply};
ghost use Rattle.judging.specs.Refusal.{answered};
ghost use Rattle.judging.specs.Calls.{refusal, found_reply, valued_reply};
ghost use Rattle.kadvisk.specs.Outcome.{outcome, core_outcome, read_outcome, yes_no, itself, nothing};

use crate::{CoreOutcome, Outcome, ReadOutcome};
use bounds::cores::Peeled;
use judging::Refusal;
use sets::Set;
use sheets::Sheet;

impl Outcome {
    // A success that found x.
    fn found(x: u64) -> Outcome
        ensures { result ≡ outcome itself (answered 0 x) }
    {
        Outcome {
            number: 0,
            value: 0,
            found: x,
        }
    }

    // A success whose value says all.
    fn valued(x: usize) -> Outcome
        ensures { result ≡ outcome nothing (answered x tt) }
    {
        Outcome {
            number: 0,
            value: x,
            found: 0,
        }
    }
}

impl From<Refusal> for Outcome {
    ghost from_gives = { λ f o. o ≡ outcome nothing (refusal f) };

    fn from(f: Refusal) -> Outcome {
        Outcome {
            number: f.number(),
            value: f.value(),
            found: 0,
        }
    }
}

impl From<Refusal> for CoreOutcome {
    ghost from_gives = { λ f o. o ≡ core_outcome (refusal f) };

    fn from(f: Refusal) -> CoreOutcome {
        CoreOutcome {
            number: f.number(),
            value: f.value(),
            core: 0,
            passes: 0,
        }
    }
}

impl From<Refusal> for ReadOutcome {
    ghost from_gives = { λ f o. o ≡ read_outcome (refusal f) };

    fn from(f: Refusal) -> ReadOutcome {
        ReadOutcome {
            number: f.number(),
            value: f.value(),
            vertices: 0,
            slack: 0,
            floor: 0,
            silent: 0,
        }
    }
}

// A `Result<usize, Refusal>` becomes an outcome in two ways, as what is found or as the value, so these are functions and no `From`.

// A looseness, or a bound.
pub fn number(answer: Result<usize, Refusal>) -> Outcome
    ensures { result ≡ outcome itself (found_reply answer) }
{
    match answer {
        Ok(x) => Outcome::found(x as u64),
        Err(f) => Outcome::from(f),
    }
}

// The length of a list or a sheet, or a number of vertices.
pub fn value(answer: Result<usize, Refusal>) -> Outcome
    ensures { result ≡ outcome nothing (valued_reply answer) }
{
    match answer {
        Ok(x) => Outcome::valued(x),
        Err(f) => Outcome::from(f),
    }
}

pub fn judged(answer: Result<bool, Refusal>) -> Outcome
    ensures { result ≡ outcome yes_no (found_reply answer) }
{
    match answer {
        Ok(true) => Outcome::found(1),
        Ok(false) => Outcome::found(0),
        Err(f) => Outcome::from(f),
    }
}

pub fn core(answer: Result<Peeled, Refusal>) -> CoreOutcome
    ensures { result ≡ core_outcome (core_found_reply answer) }
{
    match answer {
        Ok(peeled) => CoreOutcome {
            number: 0,
            value: 0,
            core: peeled.core.word(0),
            passes: peeled.passes,
        },
        Err(f) => CoreOutcome::from(f),
    }
}

pub fn reach(answer: Result<Set, Refusal>) -> Outcome
    ensures { result ≡ outcome itself (reach_found_reply answer) }
{
    match answer {
        Ok(s) => Outcome::found(s.word(0)),
        Err(f) => Outcome::from(f),
    }
}

pub fn largest(answer: Result<Set, Refusal>) -> Outcome
    ensures { result ≡ outcome itself (largest_found_reply answer) }
{
    match answer {
        Ok(s) => Outcome {
            number: 0,
            value: s.size(),
            found: s.word(0),
        },
        Err(f) => Outcome::from(f),
    }
}

pub fn read(answer: Result<Sheet, Refusal>) -> ReadOutcome
    ensures { result ≡ read_outcome (read_reply answer) }
{
    match answer {
        Ok(sheet) => ReadOutcome {
            number: 0,
            value: 0,
            vertices: sheet.vertices,
            slack: sheet.request.slack,
            floor: sheet.request.floor,
            silent: sheet.request.silent.word(0),
        },
        Err(f) => ReadOutcome::from(f),
    }
}
